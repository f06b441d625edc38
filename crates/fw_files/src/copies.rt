//! Copies in their devices, found and read.
ghost use Rattle.std.specs.Prelude.{◌≡◌, [], IfOk, IfSome, IsErrOf, length, option_map};
ghost use Rattle.device_files.specs.Record.{calls_in};
ghost use Rattle.devices.specs.Device.{HasCause, Untouched};
ghost use Rattle.fw_files.specs.Copies.{Reads, copy_at, read_view, share_a_byte};
ghost use Rattle.fw_files.specs.Misread.{IsContinued};
ghost use Rattle.fw_files.specs.declared.file_fault.FileFault.TheVariants.{TooShort};

use crate::device_access::{is_pipe, why_not_used};
use crate::file_fault::FileFault;
use crate::reasons::Reason;
use device_files::{OpenDevice, Start};
use devices::{Device, Fault};
use envcfg_core::Place;
use envimg_core::SIZE_MAX;
use fw_engines::StreamFault;
use fw_engines::streams::read_up_to;
use std::alloc::{AllocError, Global};
use std::fs::OpenOptions;
use std::io::{Seek, SeekFrom};
use std::rt::Files;

/// A copy as it was read, and where it begins in its device, in bytes.
#[derive(Drop)]
pub struct ReadCopy {
    /// The bytes.
    pub bytes: Vec<u8>,
    /// Where it begins.
    pub start: u64,
}

/// Reads a copy of this size, and nothing else of its device, which stays open in `device`.
pub(crate) fn read_copy<X: Files + AllocGlobal, S: Start>(
    rt: &X,
    place: &Place,
    size: u32,
    device: &mut Option<OpenDevice<X::File, S>>,
) -> Result<ReadCopy, FileFault>
    ensures size { IfOk result (λ copy. length copy.bytes.items ≡ size) }
    ensures read { Reads S.contents place.now size (option_map (λ d. calls_in d.calls) device.new) result }
{
    *device = None;
    let path = place.device.as_str();
    let mut opened = open_to_read(rt, path)?;
    let copy = find_copy(rt.alloc(), &mut opened, place, size);
    let failure = opened.last_call().failure;
    *device = Some(opened);
    match copy {
        Ok(Some(copy)) => Ok(copy),
        Ok(None) => Err(FileFault::TooShort),
        Err(Fault::Memory) => Err(FileFault::Memory),
        Err(_) => Err(FileFault::CannotRead(why_not_used(rt, path, failure))),
    }
}

/// Opens a device to read it.
fn open_to_read<X: Files, S: Start>(rt: &X, path: &str) -> Result<OpenDevice<X::File, S>, FileFault>
    ensures begins { IfOk result (λ device. calls_in device.calls ≡ []) }
    ensures refused { IsErrOf result TooShort → ⊥ }
{
    if is_pipe(rt, path) {
        return Err(FileFault::CannotRead(Reason::Unknown));
    }
    match OpenOptions::new().read(true).open(rt, path) {
        Ok(file) => Ok(OpenDevice::only_read(file)),
        Err(_) if is_ubi_volume(path) => Err(FileFault::UbiVolume),
        Err(error) => Err(FileFault::from(error)),
    }
}

/// Reads the copy of this size at its place in a device; `None` if it doesn't lie wholly inside.
fn find_copy<D: Device>(
    alloc: Global,
    device: &mut D,
    place: &Place,
    size: u32,
) -> Result<Option<ReadCopy>, Fault>
    ensures honest { D.is_honest device.new → D.is_honest device.old }
    ensures read { D.is_honest device.new → IfOk result (λ copy.
        option_map read_view copy ≡ copy_at place.now size (D.seen device.old)) }
    ensures size { IfOk result (λ copy. IfSome copy (λ c. length c.bytes.items ≡ size)) }
    ensures untouched { D.is_honest device.new →
        Untouched D.seen D.may_leave D.moment D.left_since device.old device.new }
    ensures cause { D.is_honest device.new → HasCause (D.faults device.old) (D.faults device.new) result }
{
    let length = device.length()?;
    let Some(start) = place.start(size, length as u64) else {
        return Ok(None);
    };
    match devices::read_copy(alloc, device, start as usize, size as usize)? {
        Some(bytes) => Ok(Some(ReadCopy { bytes, start })),
        None => Ok(None),
    }
}

/// Whether a path that can't be opened is the name of a UBI volume, `/dev/ubiN:NAME`.
fn is_ubi_volume(path: &str) -> bool {
    path.starts_with("/dev/ubi") && path.as_bytes().contains(&b':')
}

/// Reads at most `most` bytes of a device from `start` on.
fn read_from<X: Files + AllocGlobal>(
    rt: &X,
    place: &Place,
    start: u64,
    most: usize,
) -> Result<Vec<u8>, FileFault> {
    let path = place.device.as_str();
    let mut device = OpenOptions::new().read(true).open(rt, path)?;
    device.seek(SeekFrom::Start(start))?;
    match read_up_to(rt.alloc(), &mut device, most) {
        Ok(bytes) => Ok(bytes),
        Err(StreamFault::Memory) => Err(FileFault::Memory),
        Err(_) => Err(FileFault::CannotRead(Reason::Unknown)),
    }
}

/// A copy with what follows it in its device, as many bytes in all as the largest image has; only the copy if that
/// can't be read.
pub(crate) fn with_following<X: Files + AllocGlobal>(
    rt: &X,
    place: &Place,
    copy: ReadCopy,
) -> Result<ReadCopy, AllocError>
    ensures bytes { IfOk result (λ found. IsContinued copy.bytes.items found.bytes.items) }
    ensures start { IfOk result (λ found. found.start ≡ copy.start) }
{
    let ReadCopy { mut bytes, start } = copy;
    let end = start.saturating_add(bytes.len() as u64);
    let most = (SIZE_MAX as usize).saturating_sub(bytes.len());
    match read_from(rt, place, end, most) {
        Ok(following) => {
            bytes.extend_from_slice(&following)?;
            Ok(ReadCopy { bytes, start })
        }
        Err(FileFault::Memory) => Err(AllocError),
        Err(_) => Ok(ReadCopy { bytes, start }),
    }
}

/// Whether two copies of this size share a byte of one device.
pub(crate) fn share_a_byte(first: u64, second: u64, size: u32) -> bool
    ensures { result ≡ share_a_byte first second size }
{
    let size = u64::from(size);
    if first <= second {
        second - first < size
    } else {
        first - second < size
    }
}
