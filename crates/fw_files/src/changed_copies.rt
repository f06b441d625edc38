//! The copies of a session, written back to their devices.
ghost use Rattle.std.specs.Prelude.{◌≡◌, ◌≤◌, ◌+◌, ℕ, List, None, IfOk, IfSome, OnOk, length, option_map, true};
ghost use Rattle.device_files.specs.Record.{calls_in};
ghost use Rattle.devices.specs.Changes.{IsApart};
ghost use Rattle.devices.specs.Device.{Only};
ghost use Rattle.env_session.specs.Session.{bytes_of};
ghost use Rattle.fw_files.specs.Copies.{device_of, goes_over, warned_of, warning_of};
ghost use Rattle.fw_files.specs.WrittenBack.{AreWritten, IsLeft, LeavesAtAnyMoment, ShowsCopies, differs, first_differs, second_differs, step_of};

use crate::copies::ReadCopy;
use crate::opened_devices::{CopyFault, open_devices};
use crate::source::Source;
use crate::stop::Stop;
use device_files::{OpenDevice, Start};
use devices::{Change, Device, Fault};
use env_session::Stored;
use envcfg_core::Config;
use envimg_core::Choice;
use fw_engines::{is_good, is_other_data};
use std::alloc::Global;
use std::rt::Files;

/// Which copies are to have other bytes than those that were read.
#[derive(Clone, Copy)]
pub(crate) struct Changed {
    /// The first copy.
    pub(crate) first: bool,
    /// The second copy.
    pub(crate) second: bool,
}

/// Writes back those copies whose bytes changed: the first before the second, but the first one last if `last` is that.
/// Their devices are opened for it, and stay open in `devices`; none are if no copy changed. Before that each copy is read
/// again, and nothing is written if another program has changed one. Nothing is written after a fault. [`warning_of_write`]
/// is due before.
pub fn write_back<'a, X: Files + AllocGlobal, S: Start>(
    rt: &X,
    source: &'a Source,
    last: Choice,
    stored: &Stored,
    devices: &mut Option<OpenDevice<X::File, S>>,
) -> Result<(), Stop<'a>>
    ensures written { IfOk result (λ _. AreWritten S.contents source.now stored.now.first.items (bytes_of stored.now.second)
        (option_map (λ d. calls_in d.calls) devices.new)) }
    ensures any_moment { LeavesAtAnyMoment S.contents last source.now stored.now.first.items (bytes_of stored.now.second)
        (option_map (λ d. calls_in d.calls) devices.new) }
{
    *devices = None;
    let changed = changed_in(source, stored);
    if !changed.first && !changed.second {
        return Ok(());
    }
    match write_changed(rt, source, last, stored, changed, devices) {
        Ok(()) => Ok(()),
        Err(CopyFault { is_second, fault }) => {
            Err(Stop::File(device_of(&source.config, is_second), fault))
        }
    }
}

/// The warning before copies are written back, if one of them goes over other data beside a good copy.
pub fn warning_of_write(source: &Source, stored: &Stored) -> &'static [u8]
    ensures { result.now ≡ warned_of source.now stored.now }
{
    warning_of(source, changed_in(source, stored))
}

/// Opens the devices of the copies, and writes those back that changed.
fn write_changed<X: Files + AllocGlobal, S: Start>(
    rt: &X,
    source: &Source,
    last: Choice,
    stored: &Stored,
    changed: Changed,
    devices: &mut Option<OpenDevice<X::File, S>>,
) -> Result<(), CopyFault>
    requires { devices.old ≡ None }
    ensures written { IfOk result (λ _. AreWritten S.contents source.now stored.now.first.items (bytes_of stored.now.second)
        (option_map (λ d. calls_in d.calls) devices.new)) }
    ensures any_moment { LeavesAtAnyMoment S.contents last source.now stored.now.first.items (bytes_of stored.now.second)
        (option_map (λ d. calls_in d.calls) devices.new) }
{
    let (mut device, before) = open_devices(rt, source, changed)?;
    let written = write_into(rt.alloc(), &mut device, before, source, last, stored);
    let last_call = device.last_call();
    *devices = Some(device);
    match written {
        Ok(()) => Ok(()),
        Err(fault) => Err(CopyFault::at(fault, last_call)),
    }
}

/// Writes the copies back that changed. The second one begins so many bytes later than in its own device.
fn write_into<D: Device>(
    alloc: Global,
    device: &mut D,
    before: usize,
    source: &Source,
    last: Choice,
    stored: &Stored,
) -> Result<(), Fault>
    requires durable { D.is_honest device.old → Only (D.seen device.old) (D.may_leave device.old) }
    ensures shown { D.is_honest device.new →
        OnOk result (ShowsCopies (D.seen device.new) source.now before stored.now.first.items (bytes_of stored.now.second)) }
    ensures durable { D.is_honest device.new → OnOk result (Only (D.seen device.new) (D.may_leave device.new)) }
    ensures any_moment { D.is_honest device.new → (left : List ℕ) → D.left_since device.new (D.moment device.old) left →
        IsLeft last source.now before stored.now.first.items (bytes_of stored.now.second) (D.seen device.old) left }
{
    let Some(first) = change_of(0, &source.first, &stored.first) else {
        return Err(Fault::Changed);
    };
    match (&source.second, &stored.second) {
        (_, None) => devices::write_back(alloc, device, &[first]),
        (None, Some(_)) => Err(Fault::Changed),
        (Some(read), Some(bytes)) => match change_of(before, read, bytes) {
            Some(second) if are_apart(&first, &second) => match last {
                Choice::First => devices::write_back(alloc, device, &[second, first]),
                _ => devices::write_back(alloc, device, &[first, second]),
            },
            _ => Err(Fault::Changed),
        },
    }
}

/// A copy that is to have these bytes and begins so many bytes later than in its own device; `None` if its length isn't kept.
fn change_of<'a>(before: usize, read: &'a ReadCopy, bytes: &'a [u8]) -> Option<Change<'a>>
    ensures step { IfSome result (λ change. step_of change ≡ (before + read.now.start, read.now.bytes.items, bytes.now)) }
    ensures length { IfSome result (λ change. length change.to_write.now ≡ length change.as_read.now) }
{
    let at = before.checked_add(read.start as usize)?;
    if bytes.len() != read.bytes.len() {
        return None;
    }
    Some(Change {
        at,
        as_read: &read.bytes,
        to_write: bytes,
    })
}

/// Whether two copies share no byte.
fn are_apart(one: &Change<'_>, other: &Change<'_>) -> bool
    ensures { result ≡ true → IsApart one.now other.now }
{
    ends_before(one, other) || ends_before(other, one)
}

/// Whether a copy ends before another begins.
fn ends_before(one: &Change<'_>, other: &Change<'_>) -> bool
    ensures { result ≡ true → one.now.at + length one.now.to_write.now ≤ other.now.at }
{
    match one.at.checked_add(one.to_write.len()) {
        None => false,
        Some(end) => end <= other.at,
    }
}

/// Which copies are to have other bytes than those that were read.
fn changed_in(source: &Source, stored: &Stored) -> Changed
    ensures first { result.first ≡ first_differs source.now stored.now }
    ensures second { result.second ≡ second_differs source.now.second stored.now.second }
{
    let second = match (&source.second, &stored.second) {
        (_, None) => false,
        (None, Some(_)) => true,
        (Some(read), Some(bytes)) => differs(&read.bytes, bytes),
    };
    Changed {
        first: differs(&source.first.bytes, &stored.first),
        second,
    }
}

/// Whether a copy is to have other bytes than those that were read.
fn differs(read: &[u8], bytes: &[u8]) -> bool
    ensures { result ≡ differs read.now bytes.now }
{
    read != bytes
}

/// The path of a copy's device.
pub fn device_of(config: &Config, is_second: bool) -> &str
    ensures { result.now ≡ device_of config.now is_second }
{
    match &config.second {
        Some(place) if is_second => place.device.as_str(),
        _ => config.first.device.as_str(),
    }
}

/// The warning before these copies are written, if one of them goes over other data beside a good copy.
fn warning_of(source: &Source, changed: Changed) -> &'static [u8]
    ensures { result.now ≡ warning_of source.now changed.first changed.second }
{
    let Some(copy) = &source.second else {
        return b"";
    };
    if changed.first && goes_over(source, &source.first, copy) {
        return b"Warning: the first copy is written over data that is no environment\n";
    }
    if changed.second && goes_over(source, copy, &source.first) {
        return b"Warning: the second copy is written over data that is no environment\n";
    }
    b""
}

/// Whether a copy's place holds other data, and the copy beside it is good.
fn goes_over(source: &Source, copy: &ReadCopy, beside: &ReadCopy) -> bool
    ensures { result ≡ goes_over source.now.geometry copy.now.bytes.items beside.now.bytes.items }
{
    is_other_data(&source.geometry, &copy.bytes) && is_good(&source.geometry, &beside.bytes)
}
