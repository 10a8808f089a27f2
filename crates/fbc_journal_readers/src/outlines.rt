//! What tells of a page which edits fit it: its kind, and where it stands in the file. It needs no
//! memory. Histories over blank pages make no headers, so there is none of a header.

ghost use Rattle.std.specs.Prelude.{◌≡◌};
ghost use Rattle.fbc_kinds.specs.Edits.{IsShape, covers, is_version, may_be, stands_in, value_length};
ghost use Rattle.fbc_kinds.specs.Limits.{cells, slots};
ghost use Rattle.fbc_journal_readers.specs.Outlines.{does_fit, fits_data, fits_inventory, fits_pointer, fits_tip, outline_after, outline_formatted};

use fbc_apply::fitting::{cells, covers, is_version, may_be, slots, stands_in, value_length};
use fbc_kinds::{Edit, Shape};

/// The outline of a page.
#[derive(Clone, Copy, Debug)]
pub(crate) enum Outline {
    Blank,
    Inventory { page: u32, sequence: u32 },
    Tip { sequence: u32 },
    Pointer,
    Data { relation: u8 },
}

impl Outline {
    /// The outline after the edit; none where the edit does not fit.
    pub(crate) fn after(self, shape: &Shape, edit: &Edit) -> Option<Outline>
        requires { IsShape shape.now }
        ensures { result ≡ outline_after shape.now edit.now self }
    {
        match *edit {
            Edit::Format {
                kind,
                page,
                relation,
                sequence,
            } => formatted(shape, kind, page, relation, sequence),
            _ => {
                if self.fits(shape, edit) {
                    Some(self)
                } else {
                    None
                }
            }
        }
    }

    /// Whether an edit other than a format fits.
    fn fits(self, shape: &Shape, edit: &Edit) -> bool
        requires { IsShape shape.now }
        ensures { result ≡ does_fit shape.now self edit.now }
    {
        match self {
            Outline::Blank => false,
            Outline::Inventory { page, sequence } => fits_inventory(shape, page, sequence, edit),
            Outline::Tip { sequence } => fits_tip(shape, sequence, edit),
            Outline::Pointer => fits_pointer(shape, edit),
            Outline::Data { relation } => fits_data(shape, relation, edit),
        }
    }
}

/// The outline of the empty page of a kind.
fn formatted(shape: &Shape, kind: u8, page: u32, relation: u8, sequence: u32) -> Option<Outline>
    requires { IsShape shape.now }
    ensures { result ≡ outline_formatted shape.now kind page relation sequence }
{
    match kind {
        2 if sequence != 0 || page == 0 => Some(Outline::Inventory { page, sequence }),
        3 => Some(Outline::Tip { sequence }),
        4 if relation < shape.count => Some(Outline::Pointer),
        5 if relation < shape.count => Some(Outline::Data { relation }),
        _ => None,
    }
}

fn fits_inventory(shape: &Shape, page: u32, sequence: u32, edit: &Edit) -> bool
    requires { IsShape shape.now }
    ensures { result ≡ fits_inventory shape.now page sequence edit.now }
{
    match *edit {
        Edit::TakePage { page: number } => covers(shape.size, sequence, number),
        Edit::FreePage { page: number } => {
            covers(shape.size, sequence, number) && number != 0 && number != page
        }
        _ => false,
    }
}

fn fits_tip(shape: &Shape, sequence: u32, edit: &Edit) -> bool
    requires { IsShape shape.now }
    ensures { result ≡ fits_tip shape.now sequence edit.now }
{
    match *edit {
        Edit::Mark { number, state } => {
            stands_in(shape.size, sequence, number) && may_be(number, state)
        }
        _ => false,
    }
}

fn fits_pointer(shape: &Shape, edit: &Edit) -> bool
    requires { IsShape shape.now }
    ensures { result ≡ fits_pointer shape.now edit.now }
{
    match *edit {
        Edit::Name { slot, page: _ } => slot < slots(shape.size),
        Edit::Unname { slot } => slot < slots(shape.size),
        _ => false,
    }
}

fn fits_data(shape: &Shape, relation: u8, edit: &Edit) -> bool
    requires { IsShape shape.now }
    ensures { result ≡ fits_data shape.now relation edit.now }
{
    let greatest = value_length(shape, relation);
    match *edit {
        Edit::PutCell { cell, content } => {
            (cell as u32) < cells(shape.size, greatest) && is_version(greatest, &content)
        }
        Edit::ClearCell { cell } => (cell as u32) < cells(shape.size, greatest),
        _ => false,
    }
}
