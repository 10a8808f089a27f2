//! A play on its way.

use crate::file_shape::FileShape;
use crate::floor::Floor;
use crate::seats::Seat;
use std::alloc::Global;

/// How a play is played.
#[derive(Clone, Copy, Debug, PartialEq, Eq)]
pub struct Settings {
    /// Buffers of an attachment.
    pub buffers: u32,
    /// Lock requests of the region.
    pub locks: u32,
    /// Steps that one line may use.
    pub budget: u32,
    /// Whether events are told.
    pub trace: bool,
}

impl Settings {
    /// 75 buffers, 4,096 lock requests, 65,536 steps, and no events told.
    pub fn new() -> Settings {
        Settings {
            buffers: 75,
            locks: 4096,
            budget: 65536,
            trace: false,
        }
    }
}

/// A play on its way.
#[derive(Drop)]
pub(crate) struct Trial<D> {
    pub(crate) alloc: Global,
    pub(crate) shape: FileShape,
    pub(crate) settings: Settings,
    pub(crate) floor: Floor<D>,
    pub(crate) seats: [Seat; 8],
    /// The name of each owner, the first owner first.
    pub(crate) names: Vec<u8>,
    /// The line that is played, and how many steps it has used.
    pub(crate) line: u32,
    pub(crate) taken: u32,
    /// How many events were told or passed over.
    pub(crate) printed: u64,
}

impl<D> Trial<D> {
    /// A play over a floor, in which nobody has come.
    pub(crate) fn new(
        alloc: Global,
        shape: FileShape,
        settings: Settings,
        floor: Floor<D>,
    ) -> Trial<D> {
        let printed = floor.length();
        Trial {
            alloc,
            shape,
            settings,
            floor,
            seats: [
                Seat::new(1),
                Seat::new(2),
                Seat::new(3),
                Seat::new(4),
                Seat::new(5),
                Seat::new(6),
                Seat::new(7),
                Seat::new(8),
            ],
            names: Vec::new(alloc),
            line: 0,
            taken: 0,
            printed,
        }
    }

    /// The name of an owner, 0 where there is none.
    pub(crate) fn name_of(&self, owner: u32) -> u8 {
        match owner.checked_sub(1) {
            Some(at) => match self.names.get(at as usize) {
                Some(name) => *name,
                None => 0,
            },
            None => 0,
        }
    }
}
