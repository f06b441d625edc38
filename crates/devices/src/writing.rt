//! Copies that are written back, one after the other.
ghost use Rattle.std.specs.Prelude.{◌≡◌, ◌≤◌, ◌+◌, [], ◌∷◌, length, false, OnOk, IsErrOf};
ghost use Rattle.std.specs.Str.{bytes_eq};
ghost use Rattle.devices.specs.Device.{Only, LeavesOnly, Untouched, FailsOnly, HasCause, Torn, put};
ghost use Rattle.devices.specs.Changes.{is_same, Shows, AreAsRead, AreWritten, after, after_all, OneAtATime, WrittenBack, KeepLength, IsInside, AreInside, AreApart};

use crate::device::{Device, Fault};
use std::alloc::Global;

/// A copy: where it begins in its device, its bytes as they were read, and those that it is to have.
#[derive(Clone, Copy)]
pub struct Change<'a> {
    /// Where it begins.
    pub at: usize,
    /// Its bytes as they were read at the start.
    pub as_read: &'a [u8],
    /// Its bytes as they are to be.
    pub to_write: &'a [u8],
}

/// Writes back those copies whose bytes changed, in this order, each durable before the next is begun. Before that
/// each copy is read again, and nothing is written if one is not what was read at the start.
pub fn write_back<D: Device>(
    alloc: Global,
    device: &mut D,
    changes: &[Change<'_>],
) -> Result<(), Fault>
    requires lengths { KeepLength changes.now }
    // What is read is what is durable.
    requires durable { D.is_honest device.old → Only (D.seen device.old) (D.may_leave device.old) }

    ensures honest { D.is_honest device.new → D.is_honest device.old }
    // At `Ok` each copy is written that changed, and a crash leaves that: all other bytes are as they were.
    ensures written { D.is_honest device.new →
        OnOk result (D.seen device.new ≡ after_all changes.now (D.seen device.old)) }
    ensures durable { D.is_honest device.new →
        OnOk result (Only (D.seen device.new) (D.may_leave device.new)) }
    ensures found { D.is_honest device.new → OnOk result (AreAsRead changes.now (D.seen device.old)) }
    ensures shown { D.is_honest device.new →
        OnOk result (AreApart changes.now → AreWritten changes.now (D.seen device.new)) }

    // A crash at any moment of the call leaves all as it was, or, if each copy was as it was read, at most one copy
    // in part, those before it written, and no other byte touched.
    ensures any_moment { D.is_honest device.new → LeavesOnly D.moment D.left_since device.old device.new
        (WrittenBack changes.now (D.seen device.old)) }
    // So does a fault, with no crash.
    ensures fault { D.is_honest device.new → WrittenBack changes.now (D.seen device.old) (D.seen device.new) }

    // `Changed` is told only if a copy is not as it was read, and then nothing was written.
    ensures changed { D.is_honest device.new →
        IsErrOf result Fault.Changed → AreAsRead changes.now (D.seen device.old) → ⊥ }
    ensures untouched { D.is_honest device.new →
        IsErrOf result Fault.Changed →
        Untouched D.seen D.may_leave D.moment D.left_since device.old device.new }

    // `Failed` is told only if the device failed.
    ensures cause { D.is_honest device.new → FailsOnly (D.faults device.old) (D.faults device.new) result }
{
    find_as_read(alloc, device, changes)?;
    write_all(device, changes)
}

/// Reads each copy again, and finds it as it was read at the start.
pub fn find_as_read<D: Device>(
    alloc: Global,
    device: &mut D,
    changes: &[Change<'_>],
) -> Result<(), Fault>
    ensures honest { D.is_honest device.new → D.is_honest device.old }
    ensures found { D.is_honest device.new → OnOk result (AreAsRead changes.now (D.seen device.old)) }
    ensures changed { D.is_honest device.new →
        IsErrOf result Fault.Changed → AreAsRead changes.now (D.seen device.old) → ⊥ }
    ensures untouched { D.is_honest device.new →
        Untouched D.seen D.may_leave D.moment D.left_since device.old device.new }
    ensures cause { D.is_honest device.new → FailsOnly (D.faults device.old) (D.faults device.new) result }
{
    for change in changes {
        find_one(alloc, device, change)?;
    }
    Ok(())
}

/// Reads a copy again, and finds it as it was read at the start.
fn find_one<D: Device>(alloc: Global, device: &mut D, change: &Change<'_>) -> Result<(), Fault>
    ensures honest { D.is_honest device.new → D.is_honest device.old }
    ensures found { D.is_honest device.new →
        OnOk result (Shows (D.seen device.old) change.now.at change.now.as_read.now) }
    ensures changed { D.is_honest device.new →
        IsErrOf result Fault.Changed → Shows (D.seen device.old) change.now.at change.now.as_read.now → ⊥ }
    ensures untouched { D.is_honest device.new →
        Untouched D.seen D.may_leave D.moment D.left_since device.old device.new }
    ensures cause { D.is_honest device.new → FailsOnly (D.faults device.old) (D.faults device.new) result }
{
    let again = device.read_at(alloc, change.at, change.as_read.len())?;
    if same_bytes(&again, change.as_read) {
        Ok(())
    } else {
        Err(Fault::Changed)
    }
}

/// Writes the copies that changed, each durable before the next is begun.
fn write_all<D: Device>(device: &mut D, changes: &[Change<'_>]) -> Result<(), Fault>
    requires inside { D.is_honest device.old → AreInside changes.now (length (D.seen device.old)) }
    requires durable { D.is_honest device.old → Only (D.seen device.old) (D.may_leave device.old) }
    ensures honest { D.is_honest device.new → D.is_honest device.old }
    ensures written { D.is_honest device.new →
        OnOk result (D.seen device.new ≡ after_all changes.now (D.seen device.old)) }
    ensures durable { D.is_honest device.new →
        OnOk result (Only (D.seen device.new) (D.may_leave device.new)) }
    ensures any_moment { D.is_honest device.new → LeavesOnly D.moment D.left_since device.old device.new
        (OneAtATime changes.now (D.seen device.old)) }
    ensures fault { D.is_honest device.new → OneAtATime changes.now (D.seen device.old) (D.seen device.new) }
    ensures cause { D.is_honest device.new → HasCause (D.faults device.old) (D.faults device.new) result }
{
    for change in changes {
        write_one(device, change)?;
    }
    Ok(())
}

/// Writes a copy over its place, if its bytes changed, and waits until it is durable.
fn write_one<D: Device>(device: &mut D, change: &Change<'_>) -> Result<(), Fault>
    requires inside { D.is_honest device.old →
        is_same change.now ≡ false → IsInside change.now (length (D.seen device.old)) }
    requires durable { D.is_honest device.old → Only (D.seen device.old) (D.may_leave device.old) }
    ensures honest { D.is_honest device.new → D.is_honest device.old }
    ensures written { D.is_honest device.new →
        OnOk result (D.seen device.new ≡ after change.now (D.seen device.old)) }
    ensures durable { D.is_honest device.new →
        OnOk result (Only (D.seen device.new) (D.may_leave device.new)) }
    ensures any_moment { D.is_honest device.new → LeavesOnly D.moment D.left_since device.old device.new
        (OneAtATime (change.now ∷ []) (D.seen device.old)) }
    ensures fault { D.is_honest device.new →
        OneAtATime (change.now ∷ []) (D.seen device.old) (D.seen device.new) }
    ensures cause { D.is_honest device.new → HasCause (D.faults device.old) (D.faults device.new) result }
{
    if same_bytes(change.as_read, change.to_write) {
        return Ok(());
    }
    overwrite(device, change.at, change.to_write)
}

/// Writes bytes over what is at a place, and waits until they are durable.
fn overwrite<D: Device>(device: &mut D, at: usize, bytes: &[u8]) -> Result<(), Fault>
    requires inside { D.is_honest device.old → at + length bytes.now ≤ length (D.seen device.old) }
    requires durable { D.is_honest device.old → Only (D.seen device.old) (D.may_leave device.old) }
    ensures honest { D.is_honest device.new → D.is_honest device.old }
    ensures written { D.is_honest device.new →
        OnOk result (D.seen device.new ≡ put at bytes.now (D.seen device.old)) }
    ensures durable { D.is_honest device.new →
        OnOk result (Only (D.seen device.new) (D.may_leave device.new)) }
    ensures any_moment { D.is_honest device.new → LeavesOnly D.moment D.left_since device.old device.new
        (Torn at (length bytes.now) (D.seen device.old)) }
    ensures fault { D.is_honest device.new →
        Torn at (length bytes.now) (D.seen device.old) (D.seen device.new) }
    ensures cause { D.is_honest device.new → HasCause (D.faults device.old) (D.faults device.new) result }
{
    device.write_at(at, bytes)?;
    device.sync()
}

/// Whether two texts have the same bytes.
fn same_bytes(one: &[u8], other: &[u8]) -> bool
    ensures { result ≡ bytes_eq one.now other.now }
{
    one == other
}
