//! The check of a whole file: opening, walk, chains, damages and lost space.

ghost use Rattle.std.specs.Prelude.{◌≡◌, ◌≤◌, ◌/◌, ◌^◌, ◌⊎◌, ℕ, List, [], ◌∷◌, Some, Err, IfOk, IfErr, length};
ghost use Rattle.fbc_kinds.specs.File.{IsViewOf};
ghost use Rattle.fbc_kinds.specs.HeaderSpelling.{IsHeader, IsFileShape};
ghost use Rattle.fbc_kinds.specs.Limits.{IsPageSize};
ghost use Rattle.fbc_kinds.specs.View.{View, header_of};
ghost use Rattle.fbc_kinds.specs.declared.rules.Rule.{Rule};
ghost use Rattle.fbc_kinds.specs.declared.shapes.Shape.{Shape};
ghost use Rattle.fbc_outside.specs.Faults.{bump};
ghost use Rattle.fbc_outside.specs.Frames.{IsFaithful, IsUnwritten};
ghost use Rattle.fbc_validator.specs.Checked.{AreFindings, HasFound, WhyNotChecked};
ghost use Rattle.fbc_reach.specs.Content.{IsReadOf};
ghost use Rattle.fbc_reach.specs.Tally.{IsTallyOf};
ghost use Rattle.fbc_reach.specs.Walk.{data_namings, namings};

use crate::damages::damages;
use crate::faults::ValidateFault;
use crate::findings::Findings;
use crate::laws::sound_without_damage;
use crate::lost::lost_space;
use fbc_files::{OpenFault, open, recognised_header};
use fbc_kinds::{Header, Listed, PageFault, Rule, Shape};
use fbc_links::follow;
use fbc_outside::Device;
use fbc_pages::decode_header;
use fbc_reach::{PageRead, Visited, content_shown, read_bytes, walk};
use fbc_spelling::bytes_give_one_view;
use std::alloc::{AllocError, Global};

/// Checks the file on the device: its damages, and where it has none its lost space. It opens the
/// file, and then reads each page that is named once. The device's bytes stay as they are.
///
/// # Errors
///
/// `NotOurs` where the file is refused, with the first rule that it breaks, and `DeviceFault` where a
/// call was answered Failed.
pub fn validate<D: Device>(alloc: Global, device: &mut D) -> Result<Findings, ValidateFault>
    requires reach { D.reach device.old ≤ 2 ^ 40 }
    ensures found { IfOk result (HasFound (D.reach device.old) (D.bytes device.old)) }
    ensures refused { IfErr result (λ fault. WhyNotChecked fault (D.bytes device.old)) }
    ensures refused_read { (rule : Rule)
        → result ≡ Err (ValidateFault.NotOurs rule)
        → D.reads device.new ≡ bump (D.reads device.old) }
    ensures unwritten { IsUnwritten D.bytes D.writes D.landings device.old device.new }
    ensures device { IsFaithful D.reach D.faults (result ≡ Err ValidateFault.DeviceFault) device.old device.new }
{
    recognised_header();
    bytes_give_one_view();
    let opened = match open(device) {
        Ok(opened) => opened,
        Err(OpenFault::NotOurs(rule)) => return Err(ValidateFault::NotOurs(rule)),
        Err(OpenFault::DeviceFault) => return Err(ValidateFault::DeviceFault),
    };
    let pages = page_count(opened.length, opened.shape.size);
    check_file(alloc, device, &opened.shape, pages)
}

/// How many pages a file of this length has.
fn page_count(length: u64, size: u32) -> u32
    requires length { length ≤ 2 ^ 40 }
    requires size { IsPageSize size }
    ensures { result ≡ length / size }
{
    (length / u64::from(size)) as u32
}

/// Checks a file of this shape and of so many pages.
fn check_file<D: Device>(
    alloc: Global,
    device: &mut D,
    shape: &Shape,
    pages: u32,
) -> Result<Findings, ValidateFault>
    requires { IsFileShape shape.now }
    ensures found { IfOk result (λ found. (bytes : List ℕ) (view : View)
        → D.bytes device.old ≡ Some bytes
        → IsViewOf shape.now bytes view
        → AreFindings shape.now bytes view found) }
    ensures pages { IfOk result (λ found. found.pages ≡ pages) }
    ensures unwritten { IsUnwritten D.bytes D.writes D.landings device.old device.new }
    ensures device { IsFaithful D.reach D.faults (result ≡ Err ValidateFault.DeviceFault) device.old device.new }
    ensures only { IfErr result (λ fault. (fault ≡ ValidateFault.DeviceFault) ⊎ (fault ≡ ValidateFault.Memory)) }
{
    let bytes = read_bytes(alloc, device, shape.size, 0)?;
    match decode_header(alloc, shape.size, &bytes) {
        Ok(header) => {
            let first = content_shown(alloc, shape, 0, &bytes)?;
            check_pages(alloc, device, shape, &header, first, pages)
        }
        Err(PageFault::Damaged { rule }) => Ok(header_damaged(alloc, rule, pages)?),
        Err(PageFault::Memory) => Err(ValidateFault::Memory),
    }
}

/// Checks the pages of a file of this header, whose first page was read.
fn check_pages<D: Device>(
    alloc: Global,
    device: &mut D,
    shape: &Shape,
    header: &Header,
    first: PageRead,
    pages: u32,
) -> Result<Findings, ValidateFault>
    requires shape { IsFileShape shape.now }
    requires header { IsHeader header.now.size header.now }
    requires size { header.now.size ≡ shape.now.size }
    requires first { IsReadOf shape.now 0 (D.bytes device.old) first }
    ensures found { IfOk result (λ found. (bytes : List ℕ) (view : View)
        → D.bytes device.old ≡ Some bytes
        → IsViewOf shape.now bytes view
        → header_of view ≡ Some header.now
        → AreFindings shape.now bytes view found) }
    ensures pages { IfOk result (λ found. found.pages ≡ pages) }
    ensures unwritten { IsUnwritten D.bytes D.writes D.landings device.old device.new }
    ensures device { IsFaithful D.reach D.faults (result ≡ Err ValidateFault.DeviceFault) device.old device.new }
    ensures only { IfErr result (λ fault. (fault ≡ ValidateFault.DeviceFault) ⊎ (fault ≡ ValidateFault.Memory)) }
{
    let visited = walk(alloc, device, shape, header, first)?;
    Ok(findings(alloc, header, &visited, pages)?)
}

/// What is found in a file of this header and of so many pages, by what its walk gave.
fn findings(
    alloc: Global,
    header: &Header,
    visited: &Visited,
    pages: u32,
) -> Result<Findings, AllocError>
    requires size { IsPageSize header.now.size }
    requires header { IsHeader header.now.size header.now }
    ensures found { IfOk result (λ found. (shape : Shape) (bytes : List ℕ) (view : View)
        → shape.size ≡ header.now.size
        → IsViewOf shape bytes view
        → header_of view ≡ Some header.now
        → visited.now.tally.next ≡ header.now.next
        → IsTallyOf shape (Some bytes) (namings view) visited.now.tally
        → visited.now.found.items ≡ data_namings view
        → AreFindings shape bytes view found) }
    ensures pages { IfOk result (λ found. found.pages ≡ pages) }
{
    sound_without_damage();
    let tally = &visited.tally;
    let chains = follow(
        alloc,
        tally,
        header.size,
        header.tips.items(),
        &visited.found,
    )?;
    let damages = damages(alloc, header, tally, &chains)?;
    if damages.len() != 0 {
        return Ok(damaged(alloc, damages, pages));
    }
    let lost = lost_space(alloc, tally, header, &visited.found, &chains)?;
    Ok(Findings {
        pages,
        damages,
        lost_pages: lost.pages,
        lost_cells: lost.cells,
    })
}

/// What is found in a file with damage: no lost space is listed.
fn damaged(alloc: Global, damages: Listed<(u32, Rule)>, pages: u32) -> Findings
    ensures pages { result.pages ≡ pages }
    ensures damages { result.damages ≡ damages }
    ensures lost_pages { result.lost_pages ≡ [] }
    ensures lost_cells { result.lost_cells ≡ [] }
{
    Findings {
        pages,
        damages,
        lost_pages: Listed::new(Vec::new(alloc)),
        lost_cells: Listed::new(Vec::new(alloc)),
    }
}

/// What is found in a file whose header breaks a rule past the bytes by which it was recognised.
fn header_damaged(alloc: Global, rule: Rule, pages: u32) -> Result<Findings, AllocError>
    ensures pages { IfOk result (λ found. found.pages ≡ pages) }
    ensures damages { IfOk result (λ found. found.damages ≡ (0, rule) ∷ []) }
    ensures lost_pages { IfOk result (λ found. found.lost_pages ≡ []) }
    ensures lost_cells { IfOk result (λ found. found.lost_cells ≡ []) }
{
    let mut damages = Listed::new(Vec::new(alloc));
    damages.push((0, rule))?;
    Ok(damaged(alloc, damages, pages))
}
