//! The damages of a file: the first rule that each page breaks, by what the walk and the chains kept.

ghost use Rattle.std.specs.Prelude.{◌≡◌, ◌++◌, ℕ, List, Some, IfOk, OnOk, nat_eq};
ghost use Rattle.std.specs.List.{flat_map};
ghost use Rattle.indexmap.specs.IndexMap.{get};
ghost use Rattle.fbc_kinds.specs.File.{IsViewOf};
ghost use Rattle.fbc_kinds.specs.HeaderSpelling.{IsHeader};
ghost use Rattle.fbc_kinds.specs.Limits.{IsPageSize};
ghost use Rattle.fbc_kinds.specs.View.{View, header_of};
ghost use Rattle.fbc_kinds.specs.declared.shapes.Shape.{Shape};
ghost use Rattle.fbc_links.specs.Chains.{AreChainsOf};
ghost use Rattle.fbc_validator.specs.Damage.{AreDamages};
ghost use Rattle.fbc_validator.specs.Damages.{broken_alone_in, broken_in, broken_in_place_in, damage_in};
ghost use Rattle.fbc_reach.specs.Tally.{IsTallyOf};
ghost use Rattle.fbc_reach.specs.Walk.{namings};

use crate::marks::is_taken;
use fbc_kinds::{Header, Listed, Rule};
use fbc_links::Chains;
use fbc_reach::{NamedPage, Tally};
use std::alloc::{AllocError, Global};

/// Each page that was named and breaks a rule, with the first that it breaks, by rising page numbers.
pub(crate) fn damages(
    alloc: Global,
    header: &Header,
    tally: &Tally,
    chains: &Chains,
) -> Result<Listed<(u32, Rule)>, AllocError>
    requires size { IsPageSize header.now.size }
    requires header { IsHeader header.now.size header.now }
    ensures { IfOk result (λ damages. (shape : Shape) (bytes : List ℕ) (view : View)
        → IsViewOf shape bytes view
        → header_of view ≡ Some header.now
        → tally.now.next ≡ header.now.next
        → IsTallyOf shape (Some bytes) (namings view) tally.now
        → AreChainsOf view chains.now
        → AreDamages shape bytes view damages) }
{
    let pages = tally.named_pages(alloc)?;
    let found = damages_among(alloc, header, tally, chains, &pages)?;
    Ok(Listed::new(found))
}

/// The damages of these pages, in their order.
fn damages_among(
    alloc: Global,
    header: &Header,
    tally: &Tally,
    chains: &Chains,
    pages: &[u32],
) -> Result<Vec<(u32, Rule)>, AllocError>
    requires size { IsPageSize header.now.size }
    requires header { IsHeader header.now.size header.now }
    ensures { IfOk result (λ found. found.items ≡ flat_map (damage_in header.now tally.now chains.now) pages.now) }
{
    let mut found = Vec::new(alloc);
    for page in pages {
        push_damage(&mut found, header, tally, chains, *page)?;
    }
    Ok(found)
}

/// Adds the page with the first rule that it breaks, if it breaks one.
fn push_damage(
    found: &mut Vec<(u32, Rule)>,
    header: &Header,
    tally: &Tally,
    chains: &Chains,
    page: u32,
) -> Result<(), AllocError>
    requires size { IsPageSize header.now.size }
    requires header { IsHeader header.now.size header.now }
    ensures { OnOk result (found.new.items ≡ found.old.items ++ damage_in header.now tally.now chains.now page) }
{
    if let Some(rule) = broken_rule(header, tally, chains, page) {
        found.push((page, rule))?;
    }
    Ok(())
}

/// The first rule that a page breaks, if it was named.
fn broken_rule(header: &Header, tally: &Tally, chains: &Chains, page: u32) -> Option<Rule>
    requires size { IsPageSize header.now.size }
    requires header { IsHeader header.now.size header.now }
    ensures { result ≡ broken_in header.now tally.now chains.now page (get nat_eq tally.now.pages page) }
{
    let named = tally.get(page)?;
    match broken_alone(named) {
        Some(rule) => Some(rule),
        None => broken_in_place(header, tally, chains, page, named),
    }
}

/// The first rule that a page breaks by itself, as one of the kind for which it is named.
fn broken_alone(named: &NamedPage) -> Option<Rule>
    ensures { result ≡ broken_alone_in named.now }
{
    if named.other_kind {
        return Some(Rule::Kind);
    }
    named.read.rule
}

/// The first rule of its place that a page breaks.
fn broken_in_place(
    header: &Header,
    tally: &Tally,
    chains: &Chains,
    page: u32,
    named: &NamedPage,
) -> Option<Rule>
    requires size { IsPageSize header.now.size }
    requires header { IsHeader header.now.size header.now }
    ensures { result ≡ broken_in_place_in header.now tally.now chains.now page named.now }
{
    if named.other_relation {
        Some(Rule::Relation)
    } else if named.other_sequence {
        Some(Rule::Sequence)
    } else if !is_taken(tally, header, page) {
        Some(Rule::Taken)
    } else if named.other_role {
        Some(Rule::Twice)
    } else if chains.has_fault(page) {
        Some(Rule::Chain)
    } else if named.late {
        Some(Rule::Future)
    } else if chains.has_below(page) {
        Some(Rule::Below)
    } else {
        None
    }
}
