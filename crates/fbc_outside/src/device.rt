//! The device that keeps the store's bytes.
ghost use Rattle.std.specs.Prelude.{◌≡◌, ℕ, ◌+◌, ◌≤◌, List, Bool, Option, length, IfSome, IfOk, OnOk, OnErr};
ghost use Rattle.fbc_outside.specs.Bytes.{IsLength, ReadsFrom, IsWritten};
ghost use Rattle.fbc_outside.specs.Faults.{bump, HasCause};
ghost use Rattle.fbc_outside.specs.Landings.{LandedOrNot};

use crate::fault::Failed;

/// A run of bytes that can be read and written in any place up to a reach.
pub trait Device {
    // The bytes, from the first to the last; `None` where they are not told.
    ghost bytes: { Self → Option (List ℕ) };

    // How many calls were answered Failed.
    ghost faults: { Self → ℕ };

    // How many calls there were of `read_at`, and of `write_at`.
    ghost reads: { Self → ℕ };

    ghost writes: { Self → ℕ };

    // One entry for each write that was answered Failed: whether it took effect. Where the bytes
    // are not told these say nothing.
    ghost landings: { Self → List Bool };

    // How many bytes the device can have at most.
    ghost reach: { Self → ℕ };

    /// The number of bytes that the device can have at most.
    fn reach(&self) -> u64
        ensures { result ≡ reach self.now };

    /// The number of bytes that the device has. Ok or Failed, the bytes stay as they are.
    fn length(&mut self) -> Result<u64, Failed>
        ensures answer { IfOk result (IsLength (bytes self.old) (reach self.old)) }
        ensures within { IfOk result (λ n. n ≤ reach self.old) }
        ensures bytes { bytes self.new ≡ bytes self.old }
        ensures reads { reads self.new ≡ reads self.old }
        ensures writes { writes self.new ≡ writes self.old }
        ensures landings { landings self.new ≡ landings self.old }
        ensures reach { reach self.new ≡ reach self.old }
        ensures cause { HasCause (faults self.old) (faults self.new) result };

    /// Puts the bytes that stand from `at` on first into `into`, as many as fit, and says how many
    /// they are: 0 past the end. Ok or Failed, the bytes of the device stay as they are.
    fn read_at(&mut self, at: u64, into: &mut [u8]) -> Result<usize, Failed>
        ensures answer { IfOk result (λ n. ReadsFrom (bytes self.old) at n into.new) }
        ensures within { IfOk result (λ n. n ≤ length into.new) }
        ensures bytes { bytes self.new ≡ bytes self.old }
        ensures reads { reads self.new ≡ bump (reads self.old) }
        ensures writes { writes self.new ≡ writes self.old }
        ensures landings { landings self.new ≡ landings self.old }
        ensures reach { reach self.new ≡ reach self.old }
        ensures cause { HasCause (faults self.old) (faults self.new) result };

    /// Puts the bytes of `from` at `at`. A gap before them is filled with zeros, and all else
    /// stays. Failed leaves the bytes that were there before, or those that Ok would leave.
    fn write_at(&mut self, at: u64, from: &[u8]) -> Result<(), Failed>
        requires { at + length from.now ≤ reach self.old }
        ensures ok { OnOk result (IsWritten (bytes self.old) (bytes self.new) at from.now) }
        ensures ok_landings { OnOk result (landings self.new ≡ landings self.old) }
        ensures err { OnErr result
            (LandedOrNot (bytes self.old) (bytes self.new)
            (landings self.old) (landings self.new) at from.now) }
        ensures reads { reads self.new ≡ reads self.old }
        ensures writes { writes self.new ≡ bump (writes self.old) }
        ensures reach { reach self.new ≡ reach self.old }
        ensures cause { HasCause (faults self.old) (faults self.new) result };

    // The bytes never go beyond the reach.
    ghost within: { (d : Self) → IfSome (bytes d) (λ told. length told ≤ reach d) };
}
