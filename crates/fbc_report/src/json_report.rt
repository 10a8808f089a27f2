//! The report as one JSON value.

ghost use Rattle.std.specs.Prelude.{◌≡◌, ◌++◌, ◌∷◌, [], IfOk, map, false};
ghost use Rattle.serde_json.specs.View.{view};
ghost use Rattle.serde_json.specs.Written.{compact_text, has_float};
ghost use Rattle.fbc_report.specs.Json.{report_json};
ghost use Rattle.fbc_report.specs.Values.{array_of, damage_data, lost_cell_data, found_data, number_data, report_data};

use crate::text_report::is_sound;
use fbc_kinds::Rule;
use fbc_validator::Findings;
use serde_json::{Value, json};
use std::alloc::{AllocError, Global};

/// The report of what was found, as one JSON value and a line feed.
pub fn json(alloc: Global, findings: &Findings) -> Result<Vec<u8>, AllocError>
    ensures { IfOk result (λ text. text.items ≡ report_json findings.now) }
{
    let value = found_value(alloc, findings)?;
    line_of(alloc, &value)
}

/// A value's text without spaces, and a line feed.
fn line_of(alloc: Global, value: &Value) -> Result<Vec<u8>, AllocError>
    requires { has_float (view value.now) ≡ false }
    ensures { IfOk result (λ text. text.items ≡ compact_text (view value.now) ++ 10 ∷ []) }
{
    let mut text = value.to_string(alloc)?.into_bytes();
    text.push(b'\n')?;
    Ok(text)
}

/// What was found as a value.
fn found_value(alloc: Global, findings: &Findings) -> Result<Value, AllocError>
    ensures { IfOk result (λ value. view value ≡ found_data findings.now) }
{
    let damages = damage_values(alloc, findings.damages.items())?;
    let lost_cells = lost_cell_values(alloc, findings.lost_cells.items())?;
    let lost_pages = page_values(alloc, findings.lost_pages.items())?;
    let sound = is_sound(findings.damages.items());
    report_value(
        alloc,
        damages,
        lost_cells,
        lost_pages,
        findings.pages,
        sound,
    )
}

/// The whole report of its parts.
fn report_value(
    alloc: Global,
    damages: Value,
    lost_cells: Value,
    lost_pages: Value,
    pages: u32,
    sound: bool,
) -> Result<Value, AllocError>
    ensures { IfOk result (λ value. view value
        ≡ report_data (view damages) (view lost_cells) (view lost_pages) pages sound) }
{
    json!(in alloc; {
        "damages": damages,
        "lost_cells": lost_cells,
        "lost_pages": lost_pages,
        "pages": pages,
        "sound": sound
    })
}

/// The damages as an array of pairs.
fn damage_values(alloc: Global, damages: &[(u32, Rule)]) -> Result<Value, AllocError>
    ensures { IfOk result (λ value. view value ≡ array_of (map damage_data damages.now)) }
{
    let mut values = Vec::new(alloc);
    for (page, rule) in damages {
        values.push(damage_value(alloc, *page, *rule)?)?;
    }
    Ok(Value::Array(values))
}

fn damage_value(alloc: Global, page: u32, rule: Rule) -> Result<Value, AllocError>
    ensures { IfOk result (λ value. view value ≡ damage_data (page, rule)) }
{
    let word = format!(in alloc; "{rule}")?;
    json!(in alloc; [page, word])
}

/// The lost pages as an array of numbers.
fn page_values(alloc: Global, pages: &[u32]) -> Result<Value, AllocError>
    ensures { IfOk result (λ value. view value ≡ array_of (map number_data pages.now)) }
{
    let mut values = Vec::new(alloc);
    for page in pages {
        values.push(Value::from(*page))?;
    }
    Ok(Value::Array(values))
}

/// The lost cells as an array of pairs.
fn lost_cell_values(alloc: Global, cells: &[(u32, u16)]) -> Result<Value, AllocError>
    ensures { IfOk result (λ value. view value ≡ array_of (map lost_cell_data cells.now)) }
{
    let mut values = Vec::new(alloc);
    for (page, cell) in cells {
        values.push(lost_cell_value(alloc, *page, *cell)?)?;
    }
    Ok(Value::Array(values))
}

fn lost_cell_value(alloc: Global, page: u32, cell: u16) -> Result<Value, AllocError>
    ensures { IfOk result (λ value. view value ≡ lost_cell_data (page, cell)) }
{
    json!(in alloc; [page, cell])
}
