//! The parts of statements, and how one comes to the next.
#![tactic(auto, using(crate::proofs::Runs::run_steps))]

ghost use Rattle.std.specs.Prelude.{◌≡◌, ◌<◌, IfSome};
ghost use Rattle.fbc_attachment.specs.Attachment as spec;
ghost use Rattle.fbc_attachment.specs.Attachment.{IsSame};
ghost use Rattle.fbc_attachment.specs.Running.{Runs};

use crate::attachment::Attachment;
use crate::refusals::{refusal_of, relation_number};
use fbc_chains::{ReadPart, ReadStep, try_read};
use fbc_kinds::{Listed, Reply, Snapshot, Value};
use fbc_levels::{Level, Resource, Series};
use fbc_reserve::{WaitStep, Waiting, relation_ask};
use fbc_rows::{InsertPart, RowStep, try_insert};
use fbc_script::Statement;
use fbc_tra::{Begin, BodyStep, Commit};
use fbc_world::{Answer, Ask};
use std::alloc::AllocError;

/// The part in which a statement is.
#[derive(Debug, Drop)]
pub(crate) enum Body {
    /// Its words alone were read, or none is there.
    Words,
    /// The lock on its relation is got.
    Relation { waiting: Waiting, relation: u8 },
    Begin { begin: Begin },
    Insert { part: InsertPart, relation: u8 },
    Read { part: ReadPart, relation: u8 },
    Commit { commit: Commit },
    /// The locks on relations from this one on are given up.
    Release { relation: u8 },
}

impl Body {
    /// The relation whose data pages the part uses.
    pub(crate) fn relation(&self) -> Option<u8> {
        match self {
            Body::Insert { part: _, relation } | Body::Read { part: _, relation } => Some(
                *relation,
            ),
            _ => None,
        }
    }

    /// The level in which the part uses data pages.
    pub(crate) fn level(&self) -> Level {
        match self {
            Body::Read { .. } => Level::Pr,
            _ => Level::Ex,
        }
    }

    /// A free page was not granted: whether the part passes it over.
    pub(crate) fn refuse(&mut self, page: u32) -> bool {
        match self {
            Body::Insert { part, relation: _ } => part.refuse(page),
            _ => false,
        }
    }

    /// The part begins again.
    pub(crate) fn begin_again(&mut self) {
        match self {
            Body::Insert { part, relation: _ } => part.begin_again(),
            Body::Read { part, relation: _ } => *part = ReadPart::new(),
            _ => {}
        }
    }

    /// Takes the answer to a step that the part asked for.
    pub(crate) fn hear(&mut self, answer: &Answer) {
        match self {
            Body::Begin { begin } => begin.take(answer),
            Body::Relation {
                waiting,
                relation: _,
            } => {
                if waiting.is_answered_by(answer) {
                    waiting.take(answer);
                }
            }
            _ => {}
        }
    }
}

/// Whether the statement is one that an attachment can do so far.
pub fn is_built(statement: &Statement) -> bool
    ensures { result ≡ spec.is_built statement.now }
{
    matches!(
        statement,
        Statement::Attach
            | Statement::Begin { .. }
            | Statement::Insert { .. }
            | Statement::Read { .. }
            | Statement::Commit
    )
}

/// The value that an insert gives, if there is one and it is no longer than any value may be.
fn value_in(statement: &Option<Statement>) -> Option<Value> {
    match statement {
        Some(Statement::Insert { relation: _, text }) if text.len() <= 200 => {
            Some(Value::new(text.as_bytes()))
        }
        _ => None,
    }
}

impl Attachment {
    /// Takes the answer to a step that the part asked for.
    pub(crate) fn hear_body(&mut self, answer: &Answer) -> Result<(), AllocError>
        ensures same { IsSame self.old self.new }
        ensures runs { Runs self.old.desk self.new.desk }
    {
        self.body.hear(answer);
        if matches!(answer, Answer::NotYet { .. }) {
            self.ask_poll(None, false);
            return Ok(());
        }
        self.advance()
    }

    /// Goes on with the part in which the statement is.
    pub(crate) fn work(&mut self) -> Result<(), AllocError>
        ensures same { IsSame self.old self.new }
        ensures runs { Runs self.old.desk self.new.desk }
    {
        match &self.body {
            Body::Words => self.begin_body(),
            Body::Relation { waiting, relation } => {
                let step = waiting.next();
                let relation = *relation;
                self.wait_for_relation(step, relation)
            }
            Body::Begin { .. } => self.begin(),
            Body::Insert { .. } => self.insert(),
            Body::Read { .. } => self.read(),
            Body::Commit { .. } => self.commit(),
            Body::Release { relation } => {
                let relation = *relation;
                self.release(relation)
            }
        }
    }

    /// The begin of a transaction.
    fn begin(&mut self) -> Result<(), AllocError>
        ensures same { IsSame self.old self.new }
        ensures runs { Runs self.old.desk self.new.desk }
    {
        let step = self.begin_on()?;
        self.begin_comes_to(step)
    }

    /// The part of a begin goes on.
    fn begin_on(&mut self) -> Result<BodyStep, AllocError>
        ensures same { IsSame self.old self.new }
        ensures runs { Runs self.old.desk self.new.desk }
    {
        match &mut self.body {
            Body::Begin { begin } => begin.next(self.alloc, &mut self.desk),
            _ => Err(AllocError),
        }
    }

    /// The commit of the open transaction.
    fn commit(&mut self) -> Result<(), AllocError>
        ensures same { IsSame self.old self.new }
        ensures runs { Runs self.old.desk self.new.desk }
    {
        let step = self.commit_on()?;
        self.commit_comes_to(step)
    }

    /// The part of a commit goes on.
    fn commit_on(&mut self) -> Result<BodyStep, AllocError>
        ensures same { IsSame self.old self.new }
        ensures runs { Runs self.old.desk self.new.desk }
    {
        match &mut self.body {
            Body::Commit { commit } => commit.next(&mut self.desk),
            _ => Err(AllocError),
        }
    }

    /// The statement's first part, where its own words do not refuse it.
    fn begin_body(&mut self) -> Result<(), AllocError>
        ensures same { IsSame self.old self.new }
        ensures runs { Runs self.old.desk self.new.desk }
    {
        let statement = match self.statement {
            Some(statement) => statement,
            None => return Err(AllocError),
        };
        let is_open = self.desk.own().is_some();
        if let Some(refusal) = refusal_of(&statement, self.desk.cache().shape(), is_open) {
            self.finish(refusal.reply());
            return Ok(());
        }
        match statement {
            Statement::Begin { wait } => {
                self.body = Body::Begin {
                    begin: Begin::new(wait),
                };
                Ok(())
            }
            Statement::Insert { .. } | Statement::Read { .. } => self.begin_in_relation(&statement),
            Statement::Commit => self.begin_commit(),
            _ => Err(AllocError),
        }
    }

    /// The lock on the relation of the statement comes first, where it is not held yet.
    fn begin_in_relation(&mut self, statement: &Statement) -> Result<(), AllocError>
        ensures same { IsSame self.old self.new }
        ensures runs { Runs self.old.desk self.new.desk }
    {
        let (relation, wanted) = match self.relation_of(statement) {
            Some(wanted) => wanted,
            None => return Err(AllocError),
        };
        match relation_ask(self.level_of(relation), wanted, relation, self.is_waiting) {
            Some(
                Ask::Lock {
                    resource,
                    level,
                    wait,
                    word,
                },
            ) => {
                self.body = Body::Relation {
                    waiting: Waiting::new(resource, level, wait, word),
                    relation,
                };
                Ok(())
            }
            _ => self.begin_rows(relation),
        }
    }

    /// The relation of a statement on rows, and the level in which it is to be held.
    fn relation_of(&self, statement: &Statement) -> Option<(u8, Level)> {
        let (name, wanted) = match statement {
            Statement::Insert { relation, text: _ } => (relation, Level::Sw),
            Statement::Read { relation, row: _ } => (relation, Level::Sr),
            _ => return None,
        };
        match relation_number(self.desk.cache().shape(), name) {
            Some(number) => Some((number, wanted)),
            None => None,
        }
    }

    /// The level in which the relation is held.
    fn level_of(&self, relation: u8) -> Level {
        match self.locks.get(relation as usize) {
            Some(level) => *level,
            None => Level::Free,
        }
    }

    /// The step that the lock on the relation comes to.
    fn wait_for_relation(&mut self, step: WaitStep, relation: u8) -> Result<(), AllocError>
        ensures same { IsSame self.old self.new }
        ensures runs { Runs self.old.desk self.new.desk }
    {
        match step {
            WaitStep::Must(ask) => self.must(&ask),
            WaitStep::Over(reply) => {
                self.finish(reply);
                Ok(())
            }
            WaitStep::Got => {
                self.hold_relation(relation);
                self.begin_rows(relation)
            }
        }
    }

    /// The relation is held in the level in which its statement wants it besides.
    fn hold_relation(&mut self, relation: u8)
        ensures same { IsSame self.old self.new }
        ensures runs { Runs self.old.desk self.new.desk }
    {
        let wanted = match self.statement {
            Some(Statement::Insert { .. }) => Level::Sw,
            _ => Level::Sr,
        };
        let held = fbc_levels::join(self.level_of(relation), wanted);
        if let Some(level) = self.locks.get_mut(relation as usize) {
            *level = held;
        }
    }

    /// The part on rows, when the relation is held.
    fn begin_rows(&mut self, relation: u8) -> Result<(), AllocError>
        ensures same { IsSame self.old self.new }
        ensures runs { Runs self.old.desk self.new.desk }
    {
        self.body = match self.statement {
            Some(Statement::Insert { .. }) => Body::Insert {
                part: InsertPart::new(self.place_of(relation)),
                relation,
            },
            Some(Statement::Read { .. }) => Body::Read {
                part: ReadPart::new(),
                relation,
            },
            _ => return Err(AllocError),
        };
        Ok(())
    }

    /// Where the search for a place in the relation begins.
    fn place_of(&self, relation: u8) -> u32 {
        match self.places.get(relation as usize) {
            Some(place) => *place,
            None => 0,
        }
    }

    /// What a begin comes to.
    fn begin_comes_to(&mut self, step: BodyStep) -> Result<(), AllocError>
        ensures same { IsSame self.old self.new }
        ensures runs { Runs self.old.desk self.new.desk }
    {
        if self.is_done(step)? {
            self.keep_snapshot()?;
            self.finish(Reply::Number {
                number: self.snapshot.own,
            });
        }
        Ok(())
    }

    /// The open transaction's snapshot, and whether it waits.
    fn keep_snapshot(&mut self) -> Result<(), AllocError>
        ensures same { IsSame self.old self.new }
        ensures runs { Runs self.old.desk self.new.desk }
    {
        let mut states = Vec::new(self.alloc);
        let mut number = 0;
        if let Some(own) = self.desk.own() {
            number = own.snapshot.own;
            states.extend_from_slice(own.snapshot.states.items())?;
        }
        self.snapshot = Snapshot {
            own: number,
            states: Listed::new(states),
        };
        self.is_waiting = matches!(self.statement, Some(Statement::Begin { wait: true }));
        Ok(())
    }

    /// Whether a part is done. A page that it needs is to be got; a step that it asks for is due; and where it is over, the
    /// statement is.
    fn is_done(&mut self, step: BodyStep) -> Result<bool, AllocError>
        ensures same { IsSame self.old self.new }
        ensures runs { Runs self.old.desk self.new.desk }
    {
        match step {
            BodyStep::Done => return Ok(true),
            BodyStep::Miss(need) => self.errands.first = Some(need),
            BodyStep::Must(ask) => self.must(&ask)?,
            BodyStep::Over(reply) => self.finish(reply),
            BodyStep::Damaged { page, rule } => self.finish(Reply::Damaged { page, rule }),
            BodyStep::Unbuilt => {
                self.is_unbuilt = true;
                return Err(AllocError);
            }
            BodyStep::Refused => return Err(AllocError),
        }
        Ok(false)
    }

    /// A commit begins.
    fn begin_commit(&mut self) -> Result<(), AllocError>
        ensures same { IsSame self.old self.new }
        ensures runs { Runs self.old.desk self.new.desk }
    {
        self.body = Body::Commit {
            commit: Commit::new(self.snapshot.own),
        };
        Ok(())
    }

    /// What a commit comes to: when it is done, the locks on relations are given up.
    fn commit_comes_to(&mut self, step: BodyStep) -> Result<(), AllocError>
        ensures same { IsSame self.old self.new }
        ensures runs { Runs self.old.desk self.new.desk }
    {
        if self.is_done(step)? {
            self.body = Body::Release { relation: 0 };
        }
        Ok(())
    }

    /// Gives up the lock on the first relation from this one on that is held; where there is none, the statement is done.
    fn release(&mut self, from: u8) -> Result<(), AllocError>
        ensures same { IsSame self.old self.new }
        ensures runs { Runs self.old.desk self.new.desk }
    {
        match self.first_held(from) {
            Some(relation) => {
                self.locks[relation as usize] = Level::Free;
                self.body = Body::Release { relation };
                self.must(&Ask::Lower {
                    resource: Resource {
                        series: Series::Relation,
                        key: relation as u32,
                    },
                    level: Level::Free,
                })
            }
            None => {
                self.finish(Reply::Ok);
                Ok(())
            }
        }
    }

    /// The first relation from this one on that is held.
    fn first_held(&self, from: u8) -> Option<u8>
        ensures { IfSome result (λ relation. relation < 8) }
    {
        for relation in from..8 {
            if self.locks[relation as usize] != Level::Free {
                return Some(relation);
            }
        }
        None
    }

    /// The insert of a row.
    fn insert(&mut self) -> Result<(), AllocError>
        ensures same { IsSame self.old self.new }
        ensures runs { Runs self.old.desk self.new.desk }
    {
        let step = self.insert_on()?;
        self.insert_comes_to(step)
    }

    /// The part of an insert goes on.
    fn insert_on(&mut self) -> Result<RowStep, AllocError>
        ensures same { IsSame self.old self.new }
        ensures runs { Runs self.old.desk self.new.desk }
    {
        let value = match value_in(&self.statement) {
            Some(value) => value,
            None => return Err(AllocError),
        };
        match &mut self.body {
            Body::Insert { part, relation } if *relation < 8 => try_insert(
                part,
                &mut self.desk,
                *relation,
                &mut self.places[*relation as usize],
                self.snapshot.own,
                value,
            ),
            _ => Err(AllocError),
        }
    }

    /// What an insert comes to.
    fn insert_comes_to(&mut self, step: RowStep) -> Result<(), AllocError>
        ensures same { IsSame self.old self.new }
        ensures runs { Runs self.old.desk self.new.desk }
    {
        match step {
            RowStep::Done { row } => self.finish(Reply::Row { row }),
            RowStep::Miss(need) => self.errands.first = Some(need),
            RowStep::Must(ask) => self.must(&ask)?,
            RowStep::Again => {}
            RowStep::Limit { pages } => self.finish(Reply::SpaceLimit { pages }),
            RowStep::Damaged { page, rule } => self.finish(Reply::Damaged { page, rule }),
            RowStep::Unbuilt => {
                self.is_unbuilt = true;
                return Err(AllocError);
            }
            RowStep::Refused => return Err(AllocError),
        }
        Ok(())
    }

    /// The read of a row.
    fn read(&mut self) -> Result<(), AllocError>
        ensures same { IsSame self.old self.new }
        ensures runs { Runs self.old.desk self.new.desk }
    {
        // The borrow checker is told of this type, of which a step may be made.
        let _told: Option<&Value> = None;
        let step = self.read_on()?;
        self.read_comes_to(step);
        Ok(())
    }

    /// The part of a read goes on.
    fn read_on(&mut self) -> Result<ReadStep, AllocError>
        ensures same { IsSame self.old self.new }
        ensures runs { Runs self.old.desk self.new.desk }
    {
        let row = match self.statement {
            Some(Statement::Read { relation: _, row }) => row,
            _ => return Err(AllocError),
        };
        match &mut self.body {
            Body::Read { part, relation } => {
                try_read(part, &mut self.desk, *relation, row, &self.snapshot)
            }
            _ => Err(AllocError),
        }
    }

    /// What a read comes to.
    fn read_comes_to(&mut self, step: ReadStep)
        ensures same { IsSame self.old self.new }
        ensures runs { Runs self.old.desk self.new.desk }
    {
        match step {
            ReadStep::Done(Some(value)) => self.finish(Reply::Value { value }),
            ReadStep::Done(None) => self.finish(Reply::None),
            ReadStep::Miss(need) => self.errands.first = Some(need),
            ReadStep::Damaged { page, rule } => self.finish(Reply::Damaged { page, rule }),
        }
    }
}
