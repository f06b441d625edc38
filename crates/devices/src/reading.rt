//! A copy that is read.
ghost use Rattle.std.specs.Prelude.{◌≡◌, length, IfOk, IfSome, option_map};
ghost use Rattle.devices.specs.Copies.{copy_in};
ghost use Rattle.devices.specs.Device.{Untouched, HasCause};

use crate::device::{Device, Fault};
use std::alloc::Global;

/// Reads the copy of this size that begins here; `None` if it doesn't lie wholly inside the device.
pub fn read_copy<D: Device>(
    alloc: Global,
    device: &mut D,
    start: usize,
    size: usize,
) -> Result<Option<Vec<u8>>, Fault>
    ensures honest { D.is_honest device.new → D.is_honest device.old }
    // It is what the device shows at its place; `None` exactly if that ends behind the device's end.
    ensures read { D.is_honest device.new → IfOk result (λ copy.
        option_map (λ c. c.items) copy ≡ copy_in start size (D.seen device.old)) }
    ensures size { IfOk result (λ copy. IfSome copy (λ c. length c.items ≡ size)) }
    ensures untouched { D.is_honest device.new →
        Untouched D.seen D.may_leave D.moment D.left_since device.old device.new }
    // `Failed` is told only if the device failed, `Changed` never.
    ensures cause { D.is_honest device.new → HasCause (D.faults device.old) (D.faults device.new) result }
{
    let bytes = device.read_at(alloc, start, size)?;
    if bytes.len() == size {
        Ok(Some(bytes))
    } else {
        Ok(None)
    }
}
