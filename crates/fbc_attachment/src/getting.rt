//! How the pages are got that a statement needs.
#![tactic(auto, using(crate::proofs::Runs::run_steps))]

ghost use Rattle.std.specs.Prelude.{◌≡◌, Some, true};
ghost use Rattle.fbc_attachment.specs.Attachment.{IsBelow, IsSame};
ghost use Rattle.fbc_attachment.specs.Running.{Runs};

use crate::attachment::Attachment;
use crate::due::Due;
use crate::errands::Errands;
use fbc_cache::{Need, Want};
use fbc_desk::Desk;
use fbc_kinds::{Reply, Rule};
use fbc_levels::{Level, Resource};
use fbc_world::{Answer, Ask};
use std::alloc::AllocError;

/// How many turns a statement takes between two steps at most.
const MOST_TURNS: u32 = 64;

/// How many pages an attachment holds at most.
const MOST_PAGES: u32 = 512;

impl Attachment {
    /// Goes on until a step is due.
    pub(crate) fn advance(&mut self) -> Result<(), AllocError>
        ensures same { IsSame self.old self.new }
        ensures runs { Runs self.old.desk self.new.desk }
    {
        for _ in 0..MOST_TURNS {
            self.turn()?;
            if self.due.is_some() {
                return Ok(());
            }
        }
        Err(AllocError)
    }

    /// Gets the page that is due, or else goes on with the statement.
    fn turn(&mut self) -> Result<(), AllocError>
        ensures same { IsSame self.old self.new }
        ensures runs { Runs self.old.desk self.new.desk }
    {
        match self.errands.current() {
            Some(need) => self.get(need),
            None => self.work(),
        }
    }

    /// Gets a page.
    fn get(&mut self, need: Need) -> Result<(), AllocError>
        ensures same { IsSame self.old self.new }
        ensures runs { Runs self.old.desk self.new.desk }
    {
        if need.page >= self.desk.cache().shape().limit {
            self.finish(Reply::Damaged {
                page: need.page,
                rule: Rule::Taken,
            });
            return Ok(());
        }
        if !self.desk.cache().may_want(&need) {
            return Err(AllocError);
        }
        match self.desk.want(need)? {
            Want::Must(ask) => self.must(&ask),
            Want::Here => {
                self.use_remembered(need.page);
                Ok(())
            }
        }
    }

    /// The page was got. A remembered one is used again, where it is a data page of the part's relation still.
    fn use_remembered(&mut self, page: u32)
        ensures same { IsSame self.old self.new }
        ensures runs { Runs self.old.desk self.new.desk }
    {
        if self.errands.got() && self.is_own_data_page(page) {
            self.desk.pin(page);
        }
    }

    /// Whether the page is a data page of the relation of the part.
    fn is_own_data_page(&self, page: u32) -> bool {
        let place = self.desk.cache().place(page);
        match self.body.relation() {
            Some(relation) => place.kind == 5 && place.relation == relation,
            None => false,
        }
    }

    /// This step is due. A page that is written is one that the file may have and that may be used.
    pub(crate) fn must(&mut self, ask: &Ask) -> Result<(), AllocError>
        ensures same { IsSame self.old self.new }
        ensures runs { Runs self.old.desk self.new.desk }
    {
        match Due::of_ask(ask) {
            Some(due) if self.may_be_due(&due) => {
                self.due = Some(due);
                Ok(())
            }
            _ => Err(AllocError),
        }
    }

    /// Whether a page that the step writes, if it writes one, is one that the file may have and that may be used.
    fn may_be_due(&self, due: &Due) -> bool
        ensures { result ≡ true → IsBelow self.now.limit (Some due.now) }
    {
        match *due {
            Due::Write { page, cause: _ } => {
                page < self.limit && self.desk.cache().has_copy(page)
            }
            _ => true,
        }
    }

    /// Takes the answer to a step of the statement.
    pub(crate) fn hear(&mut self, answer: &Answer) -> Result<(), AllocError>
        ensures same { IsSame self.old self.new }
        ensures runs { Runs self.old.desk self.new.desk }
    {
        match self.errands.current() {
            Some(need) => self.hear_page(need, answer),
            None => self.hear_body(answer),
        }
    }

    /// Takes the answer to a step by which a page is got.
    fn hear_page(&mut self, need: Need, answer: &Answer) -> Result<(), AllocError>
        ensures same { IsSame self.old self.new }
        ensures runs { Runs self.old.desk self.new.desk }
    {
        match *answer {
            Answer::Busy { .. } => self.regain(need),
            Answer::Room { used } => {
                self.finish(Reply::Room { used });
                Ok(())
            }
            Answer::ReadFault => self.give_up_unread(need.page),
            Answer::NotYet { .. } => {
                self.ask_poll(None, false);
                Ok(())
            }
            _ if self.is_faulted => {
                self.finish(Reply::ReadFault);
                Ok(())
            }
            _ => self.advance(),
        }
    }

    /// A page that could not be read is given up, and the statement is answered so.
    fn give_up_unread(&mut self, page: u32) -> Result<(), AllocError>
        ensures same { IsSame self.old self.new }
        ensures runs { Runs self.old.desk self.new.desk }
    {
        self.is_faulted = true;
        self.due = Some(Due::Lower {
            resource: Resource::page(page),
            level: Level::Free,
        });
        Ok(())
    }

    /// A page was not granted without waiting. The part remembers the data pages in use, and begins again when it has waited for
    /// that page and got them again. A free page that is refused twice running is passed over instead.
    fn regain(&mut self, need: Need) -> Result<(), AllocError>
        ensures same { IsSame self.old self.new }
        ensures runs { Runs self.old.desk self.new.desk }
    {
        self.let_go(need);
        self.get_again(need);
        self.advance()
    }

    /// The data pages in use are remembered, and no page is in use any more.
    fn let_go(&mut self, need: Need)
        ensures same { IsSame self.old self.new }
        ensures runs { Runs self.old.desk self.new.desk }
    {
        let level = self.body.level();
        self.errands.clear();
        if !remember_pinned(&mut self.errands, &self.desk, need, level) {
            self.errands.clear();
            if !need.fresh {
                self.errands.remember(need.page, level);
            }
        }
        self.desk.unpin_all();
    }

    /// The page that was not granted is got, unless it is passed over, and the part begins again.
    fn get_again(&mut self, need: Need)
        ensures same { IsSame self.old self.new }
        ensures desk { self.new.desk ≡ self.old.desk }
    {
        if !need.fresh || !self.body.refuse(need.page) {
            self.errands.first = Some(Need {
                page: need.page,
                level: if need.fresh {
                    Level::Ex
                } else {
                    self.body.level()
                },
                wait: true,
                fresh: need.fresh,
            });
        }
        self.body.begin_again();
    }
}

/// Remembers the data pages in use, in rising order, with the one that was not granted if it is one: whether there is a place
/// for all of them.
fn remember_pinned(errands: &mut Errands, desk: &Desk, need: Need, level: Level) -> bool {
    let mut is_due = !need.fresh;
    let mut above = None;
    for _ in 0..MOST_PAGES {
        let page = match desk.cache().next_pinned(above) {
            Some(page) => page,
            None => break,
        };
        if is_due && need.page < page {
            is_due = false;
            if !errands.remember(need.page, level) {
                return false;
            }
        }
        if desk.cache().place(page).kind == 5 && !errands.remember(page, level) {
            return false;
        }
        above = Some(page);
    }
    !is_due || errands.remember(need.page, level)
}
