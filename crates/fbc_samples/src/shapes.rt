//! The shape of the files of one relation.

ghost use Rattle.std.specs.Prelude.{◌≡◌, IfSome};
ghost use Rattle.fbc_kinds.specs.HeaderSpelling.{IsFileShape};

use crate::files::FRESH;
use crate::parts::{Part, page_of};
use fbc_kinds::Shape;
use fbc_pages::recognise;

/// The shape of a file with pages of 1,024 bytes, of which it may have 100, and one relation `t`, of
/// values of at most 10 bytes.
pub fn shape() -> Option<Shape>
    ensures shape { IfSome result IsFileShape }
    ensures size { IfSome result (λ shape. shape.size ≡ 1024) }
{
    shape_with(&[])
}

/// The same of values of at most 200 bytes.
pub fn wide_shape() -> Option<Shape>
    ensures shape { IfSome result IsFileShape }
    ensures size { IfSome result (λ shape. shape.size ≡ 1024) }
{
    shape_with(&[(64, &[200])])
}

/// The shape that the fresh file's header shows after changes.
fn shape_with(changes: &[Part]) -> Option<Shape>
    ensures shape { IfSome result IsFileShape }
    ensures size { IfSome result (λ shape. shape.size ≡ 1024) }
{
    match recognise(&page_of(FRESH, 0, changes), 4096, 102_400) {
        Ok(shape) if shape.size == 1024 => Some(shape),
        _ => None,
    }
}
