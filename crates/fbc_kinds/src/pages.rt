//! What a page holds, by its kind.

use crate::listed::Listed;
use crate::padded::{Name, Value};

/// A page. `Blank` is a page of zeros, and a page past the file's end.
#[derive(Debug, Drop)]
pub enum Page {
    Header(Header),
    Inventory(Inventory),
    Tip(Tip),
    Pointer(Pointer),
    Data(Data),
    Blank,
}

/// Page 0: what the whole file is.
#[derive(Debug, Drop)]
pub struct Header {
    /// Bytes of a page.
    pub size: u32,
    /// The number that the next transaction gets.
    pub next: u32,
    /// How many page inventory pages the file has.
    pub inventories: u16,
    /// The oldest transaction that is looked up; 0 in the first version of the file.
    pub oldest: u32,
    /// The relations, by their numbers.
    pub relations: Listed<Relation>,
    /// The transaction inventory pages, by their sequence.
    pub tips: Listed<u32>,
}

/// A relation's entry in the header.
#[derive(Debug, Drop)]
pub struct Relation {
    pub name: Name,
    /// The greatest length of a value, in bytes.
    pub length: u8,
    /// The pointer pages, by their sequence.
    pub pointers: Listed<u32>,
}

/// A page inventory: which pages are taken.
#[derive(Debug, Drop)]
pub struct Inventory {
    pub page: u32,
    pub sequence: u32,
    /// One mark for each page that is covered, in rising order.
    pub taken: Listed<bool>,
}

/// A transaction inventory page: the states of the transactions that stand in it.
#[derive(Debug, Drop)]
pub struct Tip {
    pub page: u32,
    pub sequence: u32,
    /// One state for each number that is covered, in rising order.
    pub states: Listed<State>,
}

/// A pointer page: where the data pages of a relation are.
#[derive(Debug, Drop)]
pub struct Pointer {
    pub page: u32,
    pub relation: u8,
    pub sequence: u32,
    /// Page numbers of data pages, 0 where there is none.
    pub slots: Listed<u32>,
}

/// A data page: versions of records.
#[derive(Debug, Drop)]
pub struct Data {
    pub page: u32,
    pub relation: u8,
    pub sequence: u32,
    pub cells: Listed<Cell>,
}

/// A place for one version of a record.
#[derive(Clone, Copy, Debug, PartialEq, Eq)]
pub struct Cell {
    pub flag: Flag,
    /// The transaction that made the version.
    pub number: u32,
    /// The page of the version before it, 0 if there is none.
    pub back_page: u32,
    /// The cell of the version before it, 0 if there is none.
    pub back_cell: u16,
    /// The value; empty for a deletion.
    pub value: Value,
}

/// What stands in a cell.
#[derive(Clone, Copy, Debug, PartialEq, Eq)]
pub enum Flag {
    /// Nothing.
    Empty,
    /// The newest version of a record, a value.
    Primary,
    /// The newest version of a record, its deletion.
    Deletion,
    /// An older version of a record.
    Back,
}

/// The state of a transaction.
#[derive(Clone, Copy, Debug, PartialEq, Eq)]
pub enum State {
    /// It runs, or it died and nobody has noticed.
    Active,
    /// Between the two parts of a commit over several files; unused.
    Limbo,
    /// It was rolled back.
    Dead,
    Committed,
}
