//! The steps of a cache that is driven by hand, as plain data, and what is seen of each.

use fbc_kinds::{Edge, Flag, Rule};
use fbc_levels::Level;
use fbc_world::Cause;

/// A step, and what is seen of it.
pub(crate) type Row = (Step, Seen);

/// A step of a cache.
#[derive(Clone, Copy)]
pub(crate) enum Step {
    /// The page is wanted in the level. What is due first is taken, with the answer that lets go on.
    Want(u32, Level),
    /// The page is wanted to be formatted, likewise.
    Make(u32),
    /// The page is called back, and may be kept in the level, likewise.
    Serve(u32, Level),
    /// The page is wanted in the level. The lock that is due is asked for, and waited for.
    Queue(u32, Level),
    /// What is waited for is granted.
    Look,
    /// A page that is held in EX and in use is changed, after these pages in the order of writes.
    Edit(u32, Change, &'static [u32]),
    Pin(u32),
    Unpin(u32),
    Touch(u32),
    /// A reader answers.
    See(Question),
}

/// A change of a page.
#[derive(Clone, Copy)]
pub(crate) enum Change {
    /// The page inventory shows the page as taken.
    Take(u32),
    /// The page becomes an empty one of the kind, of the first relation, with the sequence.
    Format(u8, u32),
    /// The slot of the pointer page names the page.
    Name(u32, u32),
}

/// What a reader is asked.
#[derive(Clone, Copy)]
pub(crate) enum Question {
    Victim,
    Dirty,
    NextPinned(Option<u32>),
    NextHeld(Option<u32>),
    Waits,
    MayWant(u32, Level),
    HasCopy(u32),
    IsPinned(u32),
    Held(u32),
    Shape,
    Header,
    /// The pointer pages of the relation.
    Pointers(u8),
    Place(u32),
    Slot(u32, u32),
    FirstEmpty(u32),
    Version(u32, u16),
    /// Whether the value of the cell at the front of `-----` makes these bytes.
    HasValue(u32, u16, &'static [u8]),
    /// Whether the page is spelled as it stands in the file.
    IsSpelled(u32),
    HasPairs(&'static [Edge]),
}

/// What is seen of a step.
#[derive(Clone, Copy, Debug, PartialEq, Eq)]
pub(crate) enum Seen {
    /// It is done, and answers nothing.
    Done,
    /// The page may be used.
    Here,
    Lock(u32, Level),
    Look,
    Lower(u32, Level),
    Read(u32),
    Write(u32, Cause),
    /// Another step than these, or another answer than those below.
    Other,
    Granted,
    Queued,
    /// The owner holds the page, and is waited for.
    NotYet(u32),
    /// The dead owner is cleared away.
    Reaped(u32),
    /// So many bytes of the page are read.
    PageIs(u32),
    /// The page is called back, and may be kept in the level, for the owner.
    Callback(u32, Level, u32),
    NoCallback,
    /// The bytes of the page break the rule first.
    Damaged(u32, Rule),
    /// The page that is called back is in use.
    Later,
    /// Nothing is due for the callback.
    Served,
    Edited,
    /// The first page is to be written first, before the second.
    WriteFirst(u32, u32),
    Is(bool),
    Level(Level),
    Number(u32),
    Page(Option<u32>),
    Cell(Option<u16>),
    /// The size of pages, how many relations there are, and the most pages.
    Shape(u32, u8, u32),
    /// The next number, how many transaction inventory pages there are, and the first of them.
    Header(u32, u16, u32),
    /// How many pointer pages there are, and the first of them.
    Pointers(u8, u32),
    /// The kind and the sequence.
    Place(u8, u32),
    /// The flag, the number, the page and the cell of the version before, and the length of the value.
    Version(Flag, u32, u32, u16, usize),
}
