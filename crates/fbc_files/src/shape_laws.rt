//! Laws of shapes: what is opened has a shape that a file may have, and the view of its bytes is of
//! that shape. None of these functions does anything.

ghost use Rattle.std.specs.Prelude.{◌≡◌, ◌<◌, ℕ, List};
ghost use Rattle.fbc_kinds.specs.declared.shapes.Shape.{Shape};
ghost use Rattle.fbc_kinds.specs.Edits.{IsShape, value_length};
ghost use Rattle.fbc_kinds.specs.File.{IsFile};
ghost use Rattle.fbc_kinds.specs.HeaderSpelling.{IsFileShape};
ghost use Rattle.fbc_kinds.specs.Limits.{relation_limit};
ghost use Rattle.fbc_kinds.specs.Spelling.{listed_length};
ghost use Rattle.fbc_kinds.specs.View.{View};
ghost use Rattle.fbc_page_edits.specs.Edited.{IsOfShape};

/// A recognised file's view is of the shape that its first bytes show: each page that is spelled is
/// within its limits, and the values of each relation have the shape's greatest length. The bytes
/// behind the first 1,024 may be damaged.
pub fn recognised_files_are_of_their_shape()
    ensures { (reach : ℕ) (bytes : List ℕ) (shape : Shape) (view : View) → IsFile reach bytes shape view → IsOfShape shape view }
{}

/// The shape of an opened file is one that a file may have, and of each relation that there may be it
/// gives one greatest length of values, by the count of relations and by the list of lengths.
pub fn file_shapes_are_shapes()
    ensures shape { (shape : Shape) → IsFileShape shape → IsShape shape }
    ensures lengths { (shape : Shape) (relation : ℕ)
        → IsFileShape shape
        → relation < relation_limit
        → value_length shape relation ≡ listed_length shape relation }
{}
