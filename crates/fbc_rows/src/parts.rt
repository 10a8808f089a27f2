//! Where an insert stands, and what it comes to.

ghost use Rattle.std.specs.Prelude.{◌≡◌, [], Some, None};
ghost use Rattle.fbc_rows.specs.declared.parts.Stage.TheVariants as stages;
ghost use Rattle.fbc_rows.specs.Parts.{after_refusal, in_last, is_refused, is_to_put, may_pass, passes_over, went_back};

use fbc_cache::Need;
use fbc_kinds::Rule;
use fbc_space::{FreeSearch, Passed, Taking};
use fbc_world::Ask;

/// How many free pages a part passes over at most.
const MOST_PASSED: usize = 16;

/// What an insert comes to.
#[derive(Debug, Drop)]
pub enum RowStep {
    /// The row of this number is put.
    Done { row: u32 },
    /// This page is to be got first.
    Miss(Need),
    /// This write is due first.
    Must(Ask),
    /// Everything is unpinned, and the part is called again: it begins at its first line.
    Again,
    /// There is no place for a row: so many pages may be had, and no more.
    Limit { pages: u32 },
    /// The page breaks the rule.
    Damaged { page: u32, rule: Rule },
    /// An edit is not made: it does not have its grounds, or no place.
    Refused,
    /// What would come next is not built: a further page inventory page, or a further pointer page.
    Unbuilt,
}

/// A free page that becomes the relation's data page of the sequence.
#[derive(Clone, Copy, Debug, PartialEq, Eq)]
pub struct NewPage {
    pub page: u32,
    pub sequence: u32,
}

/// Where an insert stands.
#[derive(Clone, Copy, Debug, PartialEq, Eq)]
pub enum Stage {
    /// The slot of the sequence is looked at.
    Slot,
    /// The data page that the slot named is to be used.
    Page { page: u32 },
    /// The data page was used, and the slot is looked at once more. The page is in use, unless it breaks the rule.
    Named { page: u32, broken: Option<Rule> },
    /// The relation's pointer pages are looked at for an empty slot, from this one on.
    Slots { pointer: u32 },
    /// No slot of so many pointer pages is empty: the header is looked at, whether it names more.
    Header { known: u32 },
    /// The slot of this sequence is empty, and a free page is looked for.
    Find { sequence: u32, search: FreeSearch },
    /// The free page is to be got.
    Get { new: NewPage },
    /// The pointer page with the empty slot is to be used.
    Pointer { new: NewPage },
    /// The free page is to be used, with the page inventory over it.
    Free { new: NewPage },
    /// The free page becomes a data page.
    Take { new: NewPage, taking: Taking },
    /// The slot is to name the data page.
    Name { new: NewPage },
    /// The row is to be put into the cell of the data page.
    Put { page: u32, sequence: u32, cell: u16 },
}

/// Where an insert stands, and what it keeps when it begins again.
#[derive(Debug, Drop)]
pub struct InsertPart {
    /// The sequence at which the search for an empty cell goes on.
    pub at: u32,
    /// In the last pass: how many pages may be had, where it finds no place either.
    pub last: Option<u32>,
    /// The free page that was refused last.
    pub refused: Option<u32>,
    /// The free pages that are passed over.
    pub passed: Passed,
    pub stage: Stage,
}

impl InsertPart {
    /// The search begins at this sequence.
    pub fn new(place: u32) -> InsertPart
        ensures { result ≡ record { at = place; last = None; refused = None; passed = []; stage = stages.Slot } }
    {
        InsertPart {
            at: place,
            last: None,
            refused: None,
            passed: Passed::new(),
            stage: Stage::Slot,
        }
    }

    /// The part begins at its first line, when everything was unpinned.
    pub fn begin_again(&mut self)
        ensures { self.new ≡ record self.old { stage = stages.Slot } }
    {
        self.stage = Stage::Slot;
    }

    /// A free page was refused: whether it is passed over from now on, so that it is not got. It is so where it was the last
    /// one that was refused before, too, is not passed over yet, and fewer than 16 are.
    pub fn refuse(&mut self, page: u32) -> bool
        ensures passes { result ≡ passes_over self.old page }
        ensures after { self.new ≡ after_refusal self.old page }
    {
        let passes = self.passes_over(page);
        self.refused = Some(page);
        if passes {
            self.passed.add(page);
        }
        passes
    }

    /// Whether the page is passed over when it is refused.
    fn passes_over(&self, page: u32) -> bool
        ensures { result ≡ passes_over self.now page }
    {
        self.is_refused(page) && self.may_pass(page)
    }

    /// Whether the page was the last one that was refused.
    fn is_refused(&self, page: u32) -> bool
        ensures { result ≡ is_refused self.now page }
    {
        match self.refused {
            Some(last) => last == page,
            None => false,
        }
    }

    /// Whether the page is not passed over, and there is a place for it.
    fn may_pass(&self, page: u32) -> bool
        ensures { result ≡ may_pass self.now page }
    {
        !self.passed.contains(page) && self.passed.len() < MOST_PASSED
    }

    /// Whether the part stands where the row is put.
    pub(crate) fn is_to_put(&self) -> bool
        ensures { result ≡ is_to_put self.now.stage }
    {
        matches!(
            self.stage,
            Stage::Put {
                page: _,
                sequence: _,
                cell: _
            }
        )
    }

    /// The last pass begins: the search goes over all sequences once more, and ends with this limit.
    pub(crate) fn begin_last(&mut self, pages: u32)
        ensures { self.new ≡ in_last pages self.old }
    {
        self.at = 0;
        self.last = Some(pages);
        self.stage = Stage::Slot;
    }

    /// The search goes back to the place; in the last pass to the first sequence.
    pub(crate) fn go_back(&mut self, place: u32)
        ensures { self.new ≡ went_back place self.old }
    {
        self.at = match self.last {
            Some(_) => 0,
            None => place,
        };
        self.stage = Stage::Slot;
    }
}
