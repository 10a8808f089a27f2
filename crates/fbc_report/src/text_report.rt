//! The report as lines of text.

ghost use Rattle.std.specs.Prelude.{◌≡◌, ◌++◌, IfOk, OnOk};
ghost use Rattle.std.specs.List.{flat_map};
ghost use Rattle.fbc_report.specs.Text.{report_text, is_sound, pages_line, damage_line, lost_page_line, lost_cell_line, verdict_line};

use fbc_kinds::Rule;
use fbc_validator::Findings;
use std::alloc::{AllocError, Global};

/// The report of what was found, line by line; the last line says whether the file is sound.
pub fn text(alloc: Global, findings: &Findings) -> Result<Vec<u8>, AllocError>
    ensures { IfOk result (λ text. text.items ≡ report_text findings.now) }
{
    let mut text = Vec::new(alloc);
    push_pages(alloc, &mut text, findings.pages)?;
    push_damages(alloc, &mut text, findings.damages.items())?;
    push_lost_pages(alloc, &mut text, findings.lost_pages.items())?;
    push_lost_cells(alloc, &mut text, findings.lost_cells.items())?;
    let sound = is_sound(findings.damages.items());
    text.extend_from_slice(verdict(sound))?;
    Ok(text)
}

/// Adds the line of the file's length.
fn push_pages(alloc: Global, text: &mut Vec<u8>, pages: u32) -> Result<(), AllocError>
    ensures { OnOk result (text.new.items ≡ text.old.items ++ pages_line pages) }
{
    let line = format!(in alloc; "pages {pages}\n")?;
    text.extend_from_slice(line.as_bytes())
}

/// Adds a line for each damaged page.
#[tactic(auto, using(std::proofs::lemmas::List::flat_map_more))]
fn push_damages(
    alloc: Global,
    text: &mut Vec<u8>,
    damages: &[(u32, Rule)],
) -> Result<(), AllocError>
    ensures { OnOk result (text.new.items ≡ text.old.items ++ flat_map damage_line damages.now) }
{
    for (page, rule) in damages {
        push_damage(alloc, text, *page, *rule)?;
    }
    Ok(())
}

fn push_damage(alloc: Global, text: &mut Vec<u8>, page: u32, rule: Rule) -> Result<(), AllocError>
    ensures { OnOk result (text.new.items ≡ text.old.items ++ damage_line (page, rule)) }
{
    let line = format!(in alloc; "damaged {page} {rule}\n")?;
    text.extend_from_slice(line.as_bytes())
}

/// Adds a line for each lost page.
#[tactic(auto, using(std::proofs::lemmas::List::flat_map_more))]
fn push_lost_pages(alloc: Global, text: &mut Vec<u8>, pages: &[u32]) -> Result<(), AllocError>
    ensures { OnOk result (text.new.items ≡ text.old.items ++ flat_map lost_page_line pages.now) }
{
    for page in pages {
        push_lost_page(alloc, text, *page)?;
    }
    Ok(())
}

fn push_lost_page(alloc: Global, text: &mut Vec<u8>, page: u32) -> Result<(), AllocError>
    ensures { OnOk result (text.new.items ≡ text.old.items ++ lost_page_line page) }
{
    let line = format!(in alloc; "lost page {page}\n")?;
    text.extend_from_slice(line.as_bytes())
}

/// Adds a line for each lost cell.
#[tactic(auto, using(std::proofs::lemmas::List::flat_map_more))]
fn push_lost_cells(
    alloc: Global,
    text: &mut Vec<u8>,
    cells: &[(u32, u16)],
) -> Result<(), AllocError>
    ensures { OnOk result (text.new.items ≡ text.old.items ++ flat_map lost_cell_line cells.now) }
{
    for (page, cell) in cells {
        push_lost_cell(alloc, text, *page, *cell)?;
    }
    Ok(())
}

fn push_lost_cell(alloc: Global, text: &mut Vec<u8>, page: u32, cell: u16) -> Result<(), AllocError>
    ensures { OnOk result (text.new.items ≡ text.old.items ++ lost_cell_line (page, cell)) }
{
    let line = format!(in alloc; "lost cell {page} {cell}\n")?;
    text.extend_from_slice(line.as_bytes())
}

/// Whether no page is damaged.
pub(crate) fn is_sound(damages: &[(u32, Rule)]) -> bool
    ensures { result ≡ is_sound damages.now }
{
    matches!(damages, [])
}

/// The last line.
fn verdict(sound: bool) -> &'static [u8]
    ensures { result.now ≡ verdict_line sound }
{
    if sound { b"sound\n" } else { b"damaged\n" }
}
