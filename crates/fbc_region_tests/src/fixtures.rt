//! A region over a device in memory, and the steps that the tests take.
ghost use Rattle.std.specs.Prelude.{◌≡◌, length, vec_len, IfOk};
ghost use Rattle.fbc_kinds.specs.Edits.{IsShape};
ghost use Rattle.fbc_region_tests.specs.Gone.{HaveGone};
ghost use Rattle.fbc_world.specs.declared.asks.Ask.TheVariants as ask;

use fbc_kinds::{Name, Shape};
use fbc_levels::{Resource, Series};
use fbc_outside::{Fail as Failing, MemoryDevice};
use fbc_region::{Chronicle, Region};
use fbc_world::{Answer, Ask};
use std::alloc::{AllocError, Global};
use std::process::Abort;
use std::test::Fail;

/// How far the device reaches, in bytes.
const REACH: u64 = 262_144;

/// The bytes of a page.
pub(crate) const PAGE: usize = 1024;

/// The number of the file's last page.
pub(crate) const LAST: usize = 3;

/// Bytes that stand in a file from a place on; all others are zeros.
type Spot = (usize, &'static [u8]);

/// The fresh file of one relation `t` with values of at most 10 bytes.
const FRESH: [Spot; 13] = [
    (0, &[0x01, 0x01]),
    (16, b"FBCPAGES"),
    (24, &[0x00, 0x04, 0x00, 0x00]),
    (28, &[0x01]),
    (32, &[0x01]),
    (36, &[0x01, 0x00, 0x01, 0x00, 0x01, 0x00]),
    (48, &[0x01, 0x74]),
    (64, &[0x0a, 0x00, 0x01, 0x00, 0x03]),
    (336, &[0x02]),
    (1024, &[0x02, 0x01, 0x00, 0x00, 0x01]),
    (1040, &[0x0f]),
    (2048, &[0x03, 0x01, 0x00, 0x00, 0x02]),
    (3072, &[0x04, 0x01, 0x00, 0x00, 0x03]),
];

/// The fresh file, of four pages.
pub(crate) fn file(alloc: Global) -> Result<Vec<u8>, AllocError>
    ensures { IfOk result (λ bytes. length bytes.items ≡ 4096) }
{
    let mut bytes = vec![in alloc; 0; 4096]?;
    for (at, spot) in &FRESH {
        put(&mut bytes, *at, spot);
    }
    Ok(bytes)
}

/// Puts a spot in its place, where it has room.
fn put(bytes: &mut Vec<u8>, at: usize, spot: &[u8])
    ensures { length bytes.new.items ≡ length bytes.old.items }
{
    for (i, byte) in spot.iter().enumerate() {
        if i < bytes.len() && at < bytes.len() - i {
            bytes[at + i] = *byte;
        }
    }
}

/// The shape of that file.
pub(crate) fn shape() -> Shape
    ensures { IsShape result }
{
    let none = Name::new(b"");
    Shape {
        size: 1024,
        count: 1,
        names: [Name::new(b"t"), none, none, none, none, none, none, none],
        lengths: [10, 0, 0, 0, 0, 0, 0, 0],
        limit: 256,
    }
}

/// A region over the fresh file, with the buffer through which its pages go.
#[derive(Drop)]
pub(crate) struct Fixture {
    pub(crate) alloc: Global,
    pub(crate) region: Region<MemoryDevice>,
    pub(crate) image: Vec<u8>,
    ghost sized: { region.size ≡ 1024 },
    ghost fits: { vec_len image ≡ 1024 },
}

impl Fixture {
    /// With room for that many lock requests, over a device of which these calls fail.
    pub(crate) fn new(alloc: Global, locks: u32, fails: &[Failing]) -> Result<Fixture, Fail>
        ensures { IfOk result (λ fixture. HaveGone fixture.region.journal 0) }
    {
        let fails = Vec::from_slice(alloc, fails)?;
        let device = MemoryDevice::new(alloc, file(alloc)?, REACH, fails)?;
        let journal = Chronicle::new(alloc, &shape())?;
        let region = Region::new(alloc, device, 1024, locks, journal)?;
        let image = vec![in alloc; 0; PAGE]?;
        Ok(Fixture {
            alloc,
            region,
            image,
        })
    }

    /// The answer to a step that the owner may take.
    pub(crate) fn step(&mut self, rt: &impl Abort, who: u32, ask: Ask) -> Result<Answer, Fail> {
        self.region.reserve(1)?;
        let may = self.region.may_perform(who, &ask);
        assert!(*rt; may);
        Ok(
            self.region
                .perform(who, ask, &[], self.image.as_mut_slice()),
        )
    }

    /// The owner dies, which is alive.
    pub(crate) fn die(&mut self, rt: &impl Abort, who: u32) {
        assert!(*rt; self.region.alive(who));
        self.region.die(who);
    }

    /// Fills the buffer with the byte.
    pub(crate) fn fill(&mut self, byte: u8) {
        self.image.as_mut_slice().fill(byte);
    }
}

/// The owner comes, by the name of that number.
pub(crate) fn enter(name: u8) -> Ask
    ensures { result ≡ ask.Enter 4 name }
{
    Ask::Enter { buffers: 4, name }
}

pub(crate) fn page(key: u32) -> Resource {
    Resource {
        series: Series::Page,
        key,
    }
}

pub(crate) fn transaction(key: u32) -> Resource {
    Resource {
        series: Series::Transaction,
        key,
    }
}
