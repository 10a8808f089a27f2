//! The edits that a page may get.

use crate::pages::{Cell, State};

/// One change of one page. An edit fits a page where its place is there and the page after it is
/// within its limits.
#[derive(Clone, Copy, Debug, PartialEq, Eq)]
pub enum Edit {
    /// The header's next transaction number becomes `next`.
    SetNext {
        next: u32,
    },
    /// The header gets one more transaction inventory page.
    AddTip {
        page: u32,
    },
    /// A relation of the header gets one more pointer page.
    AddPointer {
        relation: u8,
        page: u32,
    },
    /// The header counts one more page inventory page.
    AddInventory,
    /// A page inventory page shows the page as taken.
    TakePage {
        page: u32,
    },
    /// A page inventory page shows the page as free.
    FreePage {
        page: u32,
    },
    /// A transaction inventory page shows the number in that state.
    Mark {
        number: u32,
        state: State,
    },
    /// A slot of a pointer page names the page.
    Name {
        slot: u32,
        page: u32,
    },
    /// A slot of a pointer page names no page.
    Unname {
        slot: u32,
    },
    /// A cell of a data page gets that content, which is not empty.
    PutCell {
        cell: u16,
        content: Cell,
    },
    /// A cell of a data page becomes empty.
    ClearCell {
        cell: u16,
    },
    /// The page becomes an empty page of that kind, as the first byte of a page numbers the kinds:
    /// 2 page inventory, 3 transaction inventory, 4 pointer, 5 data.
    Format {
        kind: u8,
        page: u32,
        relation: u8,
        sequence: u32,
    },
}
