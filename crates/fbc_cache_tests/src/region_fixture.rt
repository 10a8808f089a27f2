//! A region over a device in memory, and its owners, each with its cache.

ghost use Rattle.std.specs.Prelude.{◌≡◌, vec_len};

use crate::driver::{PAGE, cache_of, edit_of, fresh, need, seen_of};
use crate::steps::{Change, Seen};
use fbc_cache::{Cache, Edited, Need, Want};
use fbc_downgrade::{Serving, serve};
use fbc_levels::{Callback, Level};
use fbc_outside::MemoryDevice;
use fbc_region::{Chronicle, Region};
use fbc_samples::{FRESH, file_of, shape};
use fbc_world::{Answer, Ask, LocalEvent};
use std::alloc::Global;
use std::process::Abort;
use std::test::Fail;

/// How far the device reaches, in bytes: as many pages as the file may have.
const REACH: u64 = 102_400;

/// A region over the fresh file, with the buffer through which its pages go.
#[derive(Drop)]
pub(crate) struct Fixture {
    pub(crate) alloc: Global,
    pub(crate) region: Region<MemoryDevice>,
    pub(crate) image: Vec<u8>,
    ghost sized: { region.size ≡ 1024 },
    ghost fits: { vec_len image ≡ 1024 },
}

impl Fixture {
    pub(crate) fn new(rt: &impl Abort, alloc: Global) -> Result<Fixture, Fail> {
        let device = MemoryDevice::new(
            alloc,
            file_of(alloc, 4096, FRESH)?,
            REACH,
            Vec::new(alloc),
        )?;
        let Some(shape) = shape() else {
            panic!(*rt; "the sample has a shape");
        };
        let region = Region::new(alloc, device, 1024, 16, Chronicle::new(alloc, &shape)?)?;
        let image = vec![in alloc; 0; PAGE]?;
        Ok(Fixture {
            alloc,
            region,
            image,
        })
    }

    /// The answer to a step that the owner may take, behind what it did in its cache.
    fn step(
        &mut self,
        rt: &impl Abort,
        who: u32,
        events: &[LocalEvent],
        ask: Ask,
    ) -> Result<Answer, Fail> {
        self.region.reserve(1)?;
        let may = self.region.may_perform(who, &ask);
        assert!(*rt; may);
        assert!(*rt; events.len() <= 64);
        Ok(
            self.region
                .perform(who, ask, events, self.image.as_mut_slice()),
        )
    }

    /// The owner dies, which is alive.
    fn die(&mut self, rt: &impl Abort, who: u32) {
        assert!(*rt; self.region.alive(who));
        self.region.die(who);
    }
}

/// A step of an owner.
#[derive(Clone, Copy)]
pub(crate) enum Move {
    /// It wants the page in EX.
    Want(u32),
    /// It wants to format the page.
    Make(u32),
    /// It changes a page that it holds, after these pages, and uses it for that alone.
    Edit(u32, Change, &'static [u32]),
    /// Whether it is called back.
    IsCalled,
    /// It asks for the next callback.
    Poll,
    /// It serves the callback of page 3 for owner 2.
    Serve,
    Die,
}

/// The callback that is served.
const CALLED: Callback = Callback {
    page: 3,
    keep: Level::Free,
    asker: 2,
};

/// An owner: its cache, and what it did in it since its last step.
#[derive(Drop)]
pub(crate) struct Owner {
    who: u32,
    own: Cache,
    events: Vec<LocalEvent>,
}

impl Owner {
    /// It comes, by the name of its number.
    pub(crate) fn enter(rt: &impl Abort, fixture: &mut Fixture, who: u8) -> Result<Owner, Fail> {
        let ask = Ask::Enter {
            buffers: 8,
            name: who,
        };
        let who = u32::from(who);
        assert_eq!(*rt; fixture.step(rt, who, &[], ask)?, Answer::Noted);
        Ok(Owner {
            who,
            own: cache_of(rt, fixture.alloc, 8)?,
            events: Vec::new(fixture.alloc),
        })
    }

    /// Takes a step.
    pub(crate) fn take(
        &mut self,
        rt: &impl Abort,
        fixture: &mut Fixture,
        step: &Move,
    ) -> Result<Seen, Fail> {
        match step {
            Move::Want(page) => self.want(rt, fixture, need(*page, Level::Ex)),
            Move::Make(page) => self.want(rt, fixture, fresh(*page)),
            Move::Edit(page, change, highs) => self.edit(rt, *page, change, highs),
            Move::IsCalled => Ok(Seen::Is(fixture.region.called(self.who))),
            Move::Poll => Ok(answered(&self.step(rt, fixture, Ask::Poll { above: None })?)),
            Move::Serve => self.serve(rt, fixture),
            Move::Die => {
                fixture.die(rt, self.who);
                Ok(Seen::Done)
            }
        }
    }

    /// The answer to a step, behind what it did in its cache.
    fn step(&mut self, rt: &impl Abort, fixture: &mut Fixture, ask: Ask) -> Result<Answer, Fail> {
        let answer = fixture.step(rt, self.who, self.events.as_slice(), ask)?;
        self.events.clear();
        Ok(answer)
    }

    /// The answer to a step of its cache, which the cache takes.
    fn follow(&mut self, rt: &impl Abort, fixture: &mut Fixture, ask: Ask) -> Result<Seen, Fail> {
        if let Ask::Write { page, cause: _ } = &ask {
            self.spell(rt, fixture, *page);
        }
        let taken = copied(&ask);
        let answer = self.step(rt, fixture, ask)?;
        assert!(*rt; self.own.page_size() == 1024);
        self.own.take(&taken, &answer, fixture.image.as_slice())?;
        Ok(answered(&answer))
    }

    /// Spells a page that may be used.
    fn spell(&self, rt: &impl Abort, fixture: &mut Fixture, page: u32) {
        assert!(*rt; self.own.page_size() == 1024);
        assert!(*rt; self.own.has_copy(page));
        self.own.spell(page, fixture.image.as_mut_slice());
    }

    /// What the need comes to.
    fn want(&mut self, rt: &impl Abort, fixture: &mut Fixture, need: Need) -> Result<Seen, Fail> {
        assert!(*rt; self.own.may_want(&need));
        match self.own.want(need)? {
            Want::Here => Ok(Seen::Here),
            Want::Must(ask) => self.follow(rt, fixture, ask),
        }
    }

    /// Changes a page that it holds, in use for it alone.
    fn edit(
        &mut self,
        rt: &impl Abort,
        page: u32,
        change: &Change,
        highs: &[u32],
    ) -> Result<Seen, Fail> {
        let edit = edit_of(page, change);
        self.own.pin(page);
        self.events.push(LocalEvent::Pin { page })?;
        for high in highs {
            self.events.push(LocalEvent::Before {
                high: *high,
                low: page,
            })?;
        }
        assert!(*rt; self.own.may_edit(page, &edit)?);
        assert_eq!(*rt; self.own.edit(page, edit, highs)?, Edited::Done);
        self.events.push(LocalEvent::Edit { page, edit })?;
        self.own.unpin(page);
        self.events.push(LocalEvent::Unpin { page })?;
        Ok(Seen::Edited)
    }

    /// What the callback comes to, once the step that is due is taken.
    fn serve(&mut self, rt: &impl Abort, fixture: &mut Fixture) -> Result<Seen, Fail> {
        match serve(&mut self.own, CALLED) {
            Serving::Later => Ok(Seen::Later),
            Serving::Done => Ok(Seen::Served),
            Serving::Must(ask) => {
                let seen = seen_of(&ask);
                self.follow(rt, fixture, ask)?;
                Ok(seen)
            }
        }
    }
}

/// What is seen of an answer.
fn answered(answer: &Answer) -> Seen {
    match answer {
        Answer::Granted => Seen::Granted,
        Answer::Queued => Seen::Queued,
        Answer::NotYet { holder } => Seen::NotYet(*holder),
        Answer::Reaped { owner } => Seen::Reaped(*owner),
        Answer::PageIs { length } => Seen::PageIs(*length),
        Answer::Callback(callback) => {
            Seen::Callback(callback.page, callback.keep, callback.asker)
        }
        Answer::NoCallback => Seen::NoCallback,
        _ => Seen::Other,
    }
}

/// The same step of a cache once more.
fn copied(ask: &Ask) -> Ask {
    match ask {
        Ask::Lock {
            resource,
            level,
            wait,
            word,
        } => Ask::Lock {
            resource: *resource,
            level: *level,
            wait: *wait,
            word: *word,
        },
        Ask::Lower { resource, level } => Ask::Lower {
            resource: *resource,
            level: *level,
        },
        Ask::Read { page } => Ask::Read { page: *page },
        Ask::Write { page, cause } => Ask::Write {
            page: *page,
            cause: *cause,
        },
        _ => Ask::Look,
    }
}
