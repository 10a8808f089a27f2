//! The region in which a play goes on, with the buffer through which its pages go.

ghost use Rattle.std.specs.Prelude.{◌≡◌, vec_len};
ghost use Rattle.fbc_kinds.specs.Edits.{IsShape};

use crate::ending::End;
use fbc_attachment::{Attachment, Move};
use fbc_kinds::Shape;
use fbc_outside::Device;
use fbc_region::{Chronicle, Region};
use fbc_world::{Answer, Ask, Event};
use std::alloc::Global;

/// The region, and the buffer, of the size of a page.
#[derive(Drop)]
pub(crate) struct Floor<D> {
    pub(crate) region: Region<D>,
    image: Vec<u8>,
    ghost fits: { vec_len image ≡ region.size },
}

/// There is no memory for a floor; the device is handed back.
pub(crate) struct NoFloor<D> {
    pub(crate) device: D,
}

impl<D> Floor<D> {
    /// A floor over the device of a file of that shape, with so many lock requests.
    pub(crate) fn new(
        alloc: Global,
        device: D,
        shape: &Shape,
        locks: u32,
    ) -> Result<Floor<D>, NoFloor<D>>
        requires { IsShape shape.now }
    {
        let journal = match Chronicle::new(alloc, shape) {
            Ok(journal) => journal,
            Err(_) => return Err(NoFloor { device }),
        };
        let image = match vec![in alloc; 0u8; shape.size as usize] {
            Ok(image) => image,
            Err(_) => return Err(NoFloor { device }),
        };
        match Region::new(alloc, device, shape.size, locks, journal) {
            Ok(region) => Ok(Floor { region, image }),
            Err(none) => Err(NoFloor {
                device: none.device,
            }),
        }
    }

    /// What the attachment does next.
    pub(crate) fn next(&mut self, attachment: &mut Attachment) -> Move {
        attachment.next(self.image.as_mut_slice())
    }

    /// An owner that is alive dies.
    pub(crate) fn die(&mut self, who: u32) {
        if self.region.alive(who) {
            self.region.die(who);
        }
    }

    /// How many events there are.
    pub(crate) fn length(&self) -> u64 {
        self.region.journal().length()
    }

    /// The event of that number.
    pub(crate) fn event(&self, k: u64) -> Result<Option<Event>, End> {
        let journal = self.region.journal();
        if k < journal.length() {
            Ok(Some(journal.event(k)?))
        } else {
            Ok(None)
        }
    }

    /// The device, without the region.
    pub(crate) fn into_device(self) -> D {
        self.region.into_parts().0
    }
}

impl<D: Device> Floor<D> {
    /// Takes the attachment's step, if it may be taken: none where it may not.
    pub(crate) fn perform(
        &mut self,
        attachment: &Attachment,
        ask: Ask,
    ) -> Result<Option<Answer>, End> {
        self.region.reserve(1)?;
        let who = attachment.who();
        if !self.region.may_perform(who, &ask) {
            return Ok(None);
        }
        let answer = self
            .region
            .perform(who, ask, attachment.local(), self.image.as_mut_slice());
        Ok(Some(answer))
    }

    /// The attachment takes the answer to its step.
    pub(crate) fn tell(&self, attachment: &mut Attachment, answer: &Answer) -> Result<(), End> {
        attachment.take(answer, self.image.as_slice())?;
        Ok(())
    }
}
