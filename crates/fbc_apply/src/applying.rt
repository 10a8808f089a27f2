//! Applying an edit to a page.

mod formats;
mod headers;
mod inventories;
mod records;

ghost use Rattle.std.specs.Prelude.{◌≡◌, ◌↔◌, IfOk, IsSome, None, OnErr, OnOk, Some};
ghost use Rattle.fbc_kinds.specs.Edits.{IsEdit, IsShape, IsWithinLimits, Tried, applied};
ghost use Rattle.fbc_kinds.specs.declared.edits.Edit.{Edit};
ghost use Rattle.fbc_kinds.specs.declared.pages.Page.{Page};
ghost use Rattle.fbc_kinds.specs.declared.shapes.Shape.{Shape};

use fbc_kinds::{ApplyFault, Edit, Page, Shape};
use std::alloc::{AllocError, Global};

/// Makes the edit on a page that is within its limits in a file of that shape.
///
/// # Errors
///
/// `Unfit`, exactly where the edit does not fit the page. The page is then as it was, and likewise
/// where there was no memory.
pub fn apply(alloc: Global, shape: &Shape, edit: &Edit, page: &mut Page) -> Result<(), ApplyFault>
    requires shape { IsShape shape.now }
    requires limits { IsWithinLimits shape.now page.old }
    ensures ok { OnOk result (applied shape.now edit.now page.old ≡ Some page.new) }
    ensures unfit { (result ≡ Err ApplyFault.Unfit) ↔ (applied shape.now edit.now page.old ≡ None) }
    ensures err { OnErr result (page.new ≡ page.old) }
    ensures limits { IsWithinLimits shape.now page.new }
{
    if tried(alloc, shape, edit, page)? {
        Ok(())
    } else {
        Err(ApplyFault::Unfit)
    }
}

/// The law of edits: the page after an edit of a page within its limits is within them. It does
/// nothing when it is run.
pub fn edits_keep_limits()
    ensures { (shape : Shape) (edit : Edit) (before after : Page) → IsShape shape → IsEdit edit
        → IsWithinLimits shape before → applied shape edit before ≡ Some after → IsWithinLimits shape after }
{}

/// Tries the edit, and answers whether it fits.
fn tried(alloc: Global, shape: &Shape, edit: &Edit, page: &mut Page) -> Result<bool, AllocError>
    requires shape { IsShape shape.now }
    requires limits { IsWithinLimits shape.now page.old }
    ensures ok { IfOk result (λ fits. Tried fits (applied shape.now edit.now page.old) page.old page.new) }
    ensures fits { OnErr result (IsSome (applied shape.now edit.now page.old)) }
    ensures err { OnErr result (page.new ≡ page.old) }
    ensures limits { IsWithinLimits shape.now page.new }
{
    match *edit {
        Edit::SetNext { next } => Ok(headers::set_next(shape, next, page)),
        Edit::AddTip { page: number } => headers::add_tip(number, page),
        Edit::AddPointer {
            relation,
            page: number,
        } => headers::add_pointer(alloc, relation, number, page),
        Edit::AddInventory => Ok(headers::add_inventory(page)),
        Edit::TakePage { page: number } => Ok(inventories::take_page(shape, number, page)),
        Edit::FreePage { page: number } => Ok(inventories::free_page(shape, number, page)),
        Edit::Mark { number, state } => Ok(inventories::mark(shape, number, state, page)),
        Edit::Name { slot, page: number } => Ok(records::name(slot, number, page)),
        Edit::Unname { slot } => Ok(records::name(slot, 0, page)),
        Edit::PutCell { cell, content } => Ok(records::put_cell(shape, cell, content, page)),
        Edit::ClearCell { cell } => Ok(records::clear_cell(cell, page)),
        Edit::Format {
            kind,
            page: number,
            relation,
            sequence,
        } => {
            let after = formats::format(alloc, shape, kind, number, relation, sequence)?;
            Ok(replaced(page, after))
        }
    }
}

/// Puts the new page in place of the old one, if there is a new one.
fn replaced(page: &mut Page, after: Option<Page>) -> bool
    ensures { Tried result after page.old page.new }
{
    let Some(after) = after else {
        return false;
    };
    *page = after;
    true
}
