//! The pages of the fresh file as values, changed by one transaction.

ghost use Rattle.std.specs.Prelude.{◌≡◌, ◌<◌, ◌++◌, [], ◌∷◌, length, slice_get, IfOk, All};
ghost use Rattle.fbc_files.specs.NewPages.{taken_first, active_states, empty_slots};
ghost use Rattle.fbc_console.specs.FreshFile.{fresh_header, fresh_inventory, fresh_tip, fresh_pointer, begun_header, committed_tip, filled_inventory, filled_pointer, filled_data, cells_of};
ghost use Rattle.fbc_console.specs.StoredPages.{IsShortValue};
ghost use Rattle.fbc_console.specs.Images.{IsImage, AreImages, commit_pages};
ghost use Rattle.fbc_kinds.specs.HeaderSpelling.{IsHeader};
ghost use Rattle.fbc_kinds.specs.InventorySpelling.{IsInventory};
ghost use Rattle.fbc_kinds.specs.TipSpelling.{IsTip};
ghost use Rattle.fbc_kinds.specs.PointerSpelling.{IsPointer};

use crate::images::{
    image_of_data, image_of_header, image_of_inventory, image_of_pointer, image_of_tip,
};
use crate::writes::PageImage;
use fbc_kinds::{
    Cell, Data, Flag, Header, Inventory, Listed, Name, Page, Pointer, Relation, State, Tip, Value,
};
use std::alloc::{AllocError, Global};
use std::marker::Model;

/// The pages of a file with one open transaction, seen as the values that it inserted, by their rows.
#[derive(Debug, Drop)]
pub struct Store {
    header: Header,
    inventory: Inventory,
    tip: Tip,
    pointer: Pointer,
    data: Data,
    rows: u32,
}

impl Model for Store {
    ghost use Rattle.std.specs.Prelude.{List, ℕ};

    ghost Value = { List (List ℕ) };

    ghost use Rattle.fbc_console.specs.StoredPages.{values_of, IsStore};

    ghost view = { values_of };

    ghost invariant = { IsStore };
}

impl Store {
    /// The pages of the fresh file, in which nothing is inserted.
    pub fn new(alloc: Global) -> Result<Self, AllocError>
        ensures { IfOk result (λ store. store ≡ []) }
    {
        Ok(Store {
            header: fresh_header(alloc)?,
            inventory: fresh_inventory(alloc)?,
            tip: fresh_tip(alloc)?,
            pointer: fresh_pointer(alloc)?,
            data: empty_data(alloc)?,
            rows: 0,
        })
    }

    /// Inserts `value` and answers its row.
    pub fn insert(&mut self, value: Value) -> u32
        requires room { length self.old < 45 }
        requires short { IsShortValue value }
        ensures row { result ≡ length self.old }
        ensures values { self.new ≡ self.old ++ value ∷ [] }
    {
        let row = self.rows;
        let cell = Cell {
            flag: Flag::Primary,
            number: 1,
            back_page: 0,
            back_cell: 0,
            value,
        };
        self.data.cells.set(row as usize, cell);
        self.rows = row + 1;
        row
    }

    /// The value of a row; nothing where nothing was inserted there.
    pub fn read(&self, row: u32) -> Option<Value>
        ensures { result ≡ slice_get self.now row }
    {
        if row >= self.rows {
            return None;
        }
        Some(self.data.cells.items()[row as usize].value)
    }

    /// The pages that commit writes, in the order in which it writes them: the header and the
    /// transaction inventory, and between them the page inventory, the data page and the pointer page
    /// where something was inserted.
    pub fn commit(self, alloc: Global) -> Result<Vec<PageImage>, AllocError>
        ensures images { IfOk result (λ images. AreImages (commit_pages self) images.items) }
        ensures pages { IfOk result (λ images. All (λ image. image.page < 256) images.items) }
    {
        let Store {
            header,
            inventory,
            tip,
            pointer,
            data,
            rows,
        } = self;
        let header = image_of_begun(header);
        let tip = image_of_committed(tip);
        if rows == 0 {
            return Ok(vec![in alloc; header, tip]?);
        }
        let inventory = image_of_taken(inventory);
        let pointer = image_of_named(pointer);
        let data = image_of_data(&data);
        Ok(vec![in alloc; header, inventory, data, pointer, tip]?)
    }
}

/// The image of the header after transaction 1 has begun.
fn image_of_begun(mut header: Header) -> PageImage
    requires { header ≡ fresh_header }
    ensures { IsImage (Page.Header begun_header) result }
{
    header.next = 2;
    image_of_header(&header)
}

/// The image of the transaction inventory after transaction 1 is committed.
fn image_of_committed(mut tip: Tip) -> PageImage
    requires { tip ≡ fresh_tip }
    ensures { IsImage (Page.Tip committed_tip) result }
{
    tip.states.set(1, State::Committed);
    image_of_tip(&tip)
}

/// The image of the page inventory after page 4 is taken.
fn image_of_taken(mut inventory: Inventory) -> PageImage
    requires { inventory ≡ fresh_inventory }
    ensures { IsImage (Page.Inventory filled_inventory) result }
{
    inventory.taken.set(4, true);
    image_of_inventory(&inventory)
}

/// The image of the pointer page after it names page 4.
fn image_of_named(mut pointer: Pointer) -> PageImage
    requires { pointer ≡ fresh_pointer }
    ensures { IsImage (Page.Pointer filled_pointer) result }
{
    pointer.slots.set(0, 4);
    image_of_pointer(&pointer)
}

/// The header of the fresh file.
pub fn fresh_header(alloc: Global) -> Result<Header, AllocError>
    ensures page { IfOk result (λ page. page ≡ fresh_header) }
    ensures fits { IfOk result (λ page. IsHeader 1024 page) }
{
    let relation = Relation {
        name: Name::new(b"t"),
        length: 10,
        pointers: Listed::new(vec![in alloc; 3]?),
    };
    Ok(Header {
        size: 1024,
        next: 1,
        inventories: 1,
        oldest: 0,
        relations: Listed::new(vec![in alloc; relation]?),
        tips: Listed::new(vec![in alloc; 2]?),
    })
}

/// The page inventory of the fresh file.
pub fn fresh_inventory(alloc: Global) -> Result<Inventory, AllocError>
    ensures page { IfOk result (λ page. page ≡ fresh_inventory) }
    ensures fits { IfOk result (λ page. IsInventory 1024 page) }
{
    Ok(Inventory {
        page: 1,
        sequence: 0,
        taken: taken_first(alloc, 4, 8060)?,
    })
}

/// The transaction inventory of the fresh file.
pub fn fresh_tip(alloc: Global) -> Result<Tip, AllocError>
    ensures page { IfOk result (λ page. page ≡ fresh_tip) }
    ensures fits { IfOk result (λ page. IsTip 1024 page) }
{
    Ok(Tip {
        page: 2,
        sequence: 0,
        states: active_states(alloc, 4032)?,
    })
}

/// The pointer page of the fresh file.
pub fn fresh_pointer(alloc: Global) -> Result<Pointer, AllocError>
    ensures page { IfOk result (λ page. page ≡ fresh_pointer) }
    ensures fits { IfOk result (λ page. IsPointer 1024 page) }
{
    Ok(Pointer {
        page: 3,
        relation: 0,
        sequence: 0,
        slots: empty_slots(alloc, 252)?,
    })
}

/// A data page in which nothing is inserted.
fn empty_data(alloc: Global) -> Result<Data, AllocError>
    ensures { IfOk result (λ page. page ≡ filled_data []) }
{
    Ok(Data {
        page: 4,
        relation: 0,
        sequence: 0,
        cells: empty_cells(alloc, 45)?,
    })
}

#[tactic(auto, unfolding(fbc_files::specs::NewPages::taken_first))]
fn taken_first(alloc: Global, taken: usize, free: usize) -> Result<Listed<bool>, AllocError>
    ensures { IfOk result (λ marks. marks ≡ taken_first taken free) }
{
    let mut marks = Listed::filled(alloc, true, taken)?;
    marks.add_copies(false, free)?;
    Ok(marks)
}

#[tactic(auto, unfolding(fbc_files::specs::NewPages::active_states))]
fn active_states(alloc: Global, count: usize) -> Result<Listed<State>, AllocError>
    ensures { IfOk result (λ states. states ≡ active_states count) }
{
    Listed::filled(alloc, State::Active, count)
}

#[tactic(auto, unfolding(fbc_files::specs::NewPages::empty_slots))]
fn empty_slots(alloc: Global, count: usize) -> Result<Listed<u32>, AllocError>
    ensures { IfOk result (λ slots. slots ≡ empty_slots count) }
{
    Listed::filled(alloc, 0, count)
}

#[tactic(auto, unfolding(crate::specs::FreshFile::cells_of))]
fn empty_cells(alloc: Global, count: usize) -> Result<Listed<Cell>, AllocError>
    ensures { IfOk result (λ cells. cells ≡ cells_of count []) }
{
    let empty = Cell {
        flag: Flag::Empty,
        number: 0,
        back_page: 0,
        back_cell: 0,
        value: Value::new(b""),
    };
    Listed::filled(alloc, empty, count)
}
