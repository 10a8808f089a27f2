//! Bodies over transaction inventory pages (tip: transaction inventory page), for the statements of one attachment: the
//! snapshot of a transaction that begins, the state of a number on a version's page, and the mark of a number.
//!
//! A body works on the desk. It runs until a page is missing, and goes on where it stood when it is called again with
//! the same part.
//!
//! - **Proved**:
//!   - **The snapshot is of one moment** (`try_inventory`). `Done` comes exactly where all transaction inventory pages
//!     that the header last showed are in use at once, each in its place. The states are then those that their copies show,
//!     and the own number is the header's next one. `Miss` comes exactly where the next page in their order is not
//!     there, `Damaged` where it is no such page; and as many pages are in use as the part says, from the first on. A
//!     page that is in use still is not held again, and the others are held in turn, each once (`turns`).
//!   - `least_active` answers the least number from 1 on below the own one that is active, or else the own one, and
//!     `holds` whether a number is the own one or was committed. A number past the snapshot's states is active.
//!   - `try_state` answers the state that the number's page shows. `Unknown` comes exactly where the header is there
//!     and names no page for the number. The page is the one that the header named, and header and page are each
//!     looked at once, also over several calls (`found`, `after`).
//!   - `try_mark` makes the one edit through the door of the desk, asks for the next write in order where another page
//!     comes first, or changes nothing.
//!   - Each body goes on by calls of the desk alone (`goes`). The first one pins pages and does nothing else (`same`).
//! - **Supposed**: the header is in use, in EX, while a snapshot is taken, and the pages that one call has pinned stay
//!   so until the next; where they do not, they are held again. What a mark needs is tested by the desk, and nothing is
//!   supposed of its caller.
#![tactic(auto)]

mod inventories;
mod marks;
mod snapshots;
mod states;

pub use inventories::{InventoryPart, TipStep, try_inventory};
pub use marks::{MarkStep, try_mark};
pub use snapshots::{holds, least_active};
pub use states::{StatePart, StateStep, try_state};
