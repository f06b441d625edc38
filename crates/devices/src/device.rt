//! A device as its user sees it: what a read returns, and what a crash may leave.
ghost use Rattle.std.specs.Prelude.{◌≡◌, ◌≤◌, ◌+◌, List, ℕ, length, take, drop, IfOk, OnOk};
ghost use Rattle.devices.specs.declared.device.Fault.TheVariants.{Memory};
ghost use Rattle.devices.specs.Device.{Only, Follows, Torn, Elapses, HasCause, Untouched, put};

use std::alloc::{AllocError, AllocFailed, Global};

/// Why a call failed.
#[derive(Clone, Copy, Debug, PartialEq, Eq)]
pub enum Fault {
    /// Memory ran out.
    Memory,
    /// The device failed.
    Failed,
    /// A copy is not what was read of it at the start.
    Changed,
}

impl From<AllocError> for Fault {
    ghost from_gives = { λ _ e. e ≡ Memory };

    fn from(_: AllocError) -> Self {
        Fault::Memory
    }
}

impl<T: Drop> From<AllocFailed<T>> for Fault {
    ghost from_gives = { λ _ e. e ≡ Memory };

    fn from(_: AllocFailed<T>) -> Self {
        Fault::Memory
    }
}

/// A run of bytes of one length: a file, a block device, or two files of which one is behind the other.
pub trait Device {
    /// That each answer so far was as the other members say: the premise of each clause. In memory it always holds;
    /// of a real file it can be supposed and not proved.
    ghost is_honest: { Self → Type 0 };

    /// The bytes that a read returns.
    ghost seen: { Self → List ℕ };

    /// What a crash at this moment may leave.
    ghost may_leave: { Self → List ℕ → Type 0 };

    /// The moment, as a number that doesn't fall.
    ghost moment: { Self → ℕ };

    /// What a crash at some moment from that one on might have left, during a call or between two.
    ghost left_since: { Self → ℕ → List ℕ → Type 0 };

    /// How often the device has failed.
    ghost faults: { Self → ℕ };

    /// How many bytes it has.
    fn length(&mut self) -> Result<usize, Fault>
        ensures honest { is_honest self.new → is_honest self.old }
        ensures length { is_honest self.new → IfOk result (λ count. count ≡ length (seen self.old)) }
        ensures untouched { is_honest self.new →
            Untouched seen may_leave moment left_since self.old self.new }
        ensures cause { is_honest self.new → HasCause (faults self.old) (faults self.new) result };

    /// The bytes from `at` on, at most `len` of them: fewer only at the end.
    fn read_at(&mut self, alloc: Global, at: usize, len: usize) -> Result<Vec<u8>, Fault>
        ensures honest { is_honest self.new → is_honest self.old }
        ensures bytes { is_honest self.new →
            IfOk result (λ bytes. bytes.items ≡ take len (drop at (seen self.old))) }
        ensures untouched { is_honest self.new →
            Untouched seen may_leave moment left_since self.old self.new }
        ensures cause { is_honest self.new → HasCause (faults self.old) (faults self.new) result };

    /// Writes over what is there. Until a sync a crash may leave any bytes in the range; it changes none outside.
    fn write_at(&mut self, at: usize, bytes: &[u8]) -> Result<(), Fault>
        requires { is_honest self.old → at + length bytes.now ≤ length (seen self.old) }
        ensures honest { is_honest self.new → is_honest self.old }
        ensures written { is_honest self.new →
            OnOk result (seen self.new ≡ put at bytes.now (seen self.old)) }
        ensures torn { is_honest self.new → Torn at (length bytes.now) (seen self.old) (seen self.new) }
        ensures crash { is_honest self.new →
            Follows (Torn at (length bytes.now)) (may_leave self.old) (may_leave self.new) }
        ensures time { is_honest self.new →
            Elapses (moment self.old) (moment self.new) (left_since self.old) (left_since self.new)
            (may_leave self.new) }
        ensures cause { is_honest self.new → HasCause (faults self.old) (faults self.new) result };

    /// After it, a crash leaves what a read returns.
    fn sync(&mut self) -> Result<(), Fault>
        ensures honest { is_honest self.new → is_honest self.old }
        ensures durable { is_honest self.new → OnOk result (Only (seen self.old) (may_leave self.new)) }
        ensures untouched { is_honest self.new →
            Untouched seen may_leave moment left_since self.old self.new }
        ensures cause { is_honest self.new → HasCause (faults self.old) (faults self.new) result };

    /// This moment is one of those since an earlier one.
    ghost counts_now: { (device : Self) (t : ℕ) (c : List ℕ) →
        is_honest device → t ≤ moment device → may_leave device c → left_since device t c };

    /// Since this moment there is no other.
    ghost only_now: { (device : Self) (c : List ℕ) →
        is_honest device → left_since device (moment device) c → may_leave device c };
}
