//! The shape of the file that is played over.

ghost use Rattle.std.specs.Prelude.{◌≡◌};
ghost use Rattle.fbc_kinds.specs.HeaderSpelling.{IsFileShape};

use fbc_kinds::Shape;
use std::marker::Model;

/// A shape that a recognised file has, seen by contracts as that shape.
#[derive(Debug, Drop)]
pub(crate) struct FileShape {
    shape: Shape,
}

impl Model for FileShape {
    ghost use Rattle.fbc_kinds.specs.declared.shapes.Shape.{Shape};
    ghost use Rattle.fbc_kinds.specs.HeaderSpelling.{IsFileShape as is_file_shape};

    ghost Value = { Shape };

    ghost view = { λ s. s.shape };

    ghost invariant = { λ s. is_file_shape s.shape };
}

impl FileShape {
    /// This shape.
    pub(crate) fn new(shape: Shape) -> FileShape
        requires { IsFileShape shape }
        ensures { result ≡ shape }
    {
        FileShape { shape }
    }

    /// The shape.
    pub(crate) fn get(&self) -> Shape
        ensures shape { result ≡ self.now }
        ensures file { IsFileShape result }
    {
        self.shape
    }
}
