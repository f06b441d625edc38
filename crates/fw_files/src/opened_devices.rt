//! The devices of the copies, opened to be written.
ghost use Rattle.std.specs.Prelude.{◌≡◌, ◌≤◌, ◌+◌, [], IfOk, OnOk};
ghost use Rattle.device_files.specs.Record.{calls_in};
ghost use Rattle.fw_files.specs.WrittenBack.{IsBefore, fault_of, reason_to_write};
ghost use Rattle.fw_files.specs.declared.file_fault.FileFault.TheVariants.{CannotWrite};

use crate::changed_copies::Changed;
use crate::copies::ReadCopy;
use crate::device_access::{is_pipe, is_raw, why_not_used};
use crate::file_fault::FileFault;
use crate::reasons::Reason;
use crate::source::Source;
use device_files::{DeviceFile, LastCall, OpenDevice, Start};
use devices::Fault;
use envcfg_core::Place;
use std::fs::{OpenFile, OpenOptions};
use std::io::{ErrorKind, Read, Seek, SeekFrom, Write};
use std::rt::Files;

/// Why a copy can't be read or written, and which.
#[derive(Clone, Copy)]
pub struct CopyFault {
    /// It is the second copy.
    pub is_second: bool,
    /// Why not.
    pub fault: FileFault,
}

impl CopyFault {
    /// It can't be written for this reason.
    fn unwritable(is_second: bool, reason: Reason) -> CopyFault
        ensures copy { result.is_second ≡ is_second }
        ensures fault { result.fault ≡ CannotWrite reason }
    {
        CopyFault {
            is_second,
            fault: FileFault::CannotWrite(reason),
        }
    }

    /// The devices answered this, and their last call came to that.
    pub(crate) fn at(fault: Fault, last: LastCall) -> CopyFault
        ensures copy { result.is_second ≡ last.is_second }
        ensures fault { result.fault ≡ fault_of fault last.failure }
    {
        match (fault, last.failure) {
            (Fault::Memory, _) => CopyFault {
                is_second: last.is_second,
                fault: FileFault::Memory,
            },
            (Fault::Failed, Some(kind)) => {
                CopyFault::unwritable(last.is_second, why_not_written(kind))
            }
            // another program wrote the copy
            (_, _) => CopyFault::unwritable(last.is_second, Reason::Changed),
        }
    }
}

/// Why a copy can't be written, by the error of a call.
fn why_not_written(kind: ErrorKind) -> Reason
    ensures { result ≡ reason_to_write kind }
{
    match kind {
        // the device was longer when the copy was read
        ErrorKind::UnexpectedEof => Reason::Changed,
        _ => Reason::by(kind),
    }
}

/// Opens the devices of the copies, and those of changed copies to be written. In them the second copy begins so many bytes
/// later than in its own device.
pub(crate) fn open_devices<X: Files, S: Start>(
    rt: &X,
    source: &Source,
    changed: Changed,
) -> Result<(OpenDevice<X::File, S>, usize), CopyFault>
    ensures begins { IfOk result (λ opened. calls_in opened.0.calls ≡ []) }
    ensures before { IfOk result (λ opened. IsBefore source.now opened.1) }
{
    let size = source.config.size;
    let place = &source.config.first;
    let copy = &source.first;
    match (&source.config.second, &source.second) {
        (_, None) => {
            let file = open_copy(rt, place, size, copy, changed.first, false)?;
            Ok((settled(file, None)?, 0))
        }
        (None, Some(_)) => Err(CopyFault::unwritable(true, Reason::Changed)),
        (Some(other), Some(second)) => {
            if other.device.as_str() == place.device.as_str() {
                let writes = changed.first | changed.second;
                let file = open_copy(rt, place, size, copy, writes, false)?;
                check_start(other, size, second, file.length, true)?;
                return Ok((settled(file, None)?, 0));
            }
            let file = open_copy(rt, place, size, copy, changed.first, false)?;
            let behind = open_copy(rt, other, size, second, changed.second, true)?;
            let before = file.length;
            Ok((settled(file, Some(behind))?, before))
        }
    }
}

/// Opens the device of a copy, which begins in it where it was read; to be written neither a pipe nor a character device.
fn open_copy<X: Files>(
    rt: &X,
    place: &Place,
    size: u32,
    copy: &ReadCopy,
    writes: bool,
    is_second: bool,
) -> Result<DeviceFile<X::File>, CopyFault>
    ensures { IfOk result (λ file. copy.now.start + size ≤ file.length) }
{
    let path = place.device.as_str();
    if is_pipe(rt, path) {
        return Err(CopyFault::unwritable(is_second, Reason::Unknown));
    }
    let is_raw = writes && is_raw(rt, path);
    let mut file = match OpenOptions::new()
        .read(true)
        .write(writes && !is_raw)
        .open(rt, path)
    {
        Ok(file) => file,
        Err(error) => return Err(CopyFault::unwritable(is_second, Reason::by(error.kind()))),
    };
    let length = match file.seek(SeekFrom::End(0)) {
        Ok(length) => length as usize,
        Err(error) => {
            let reason = why_not_used(rt, path, Some(error.kind()));
            return Err(CopyFault::unwritable(is_second, reason));
        }
    };
    check_start(place, size, copy, length, is_second)?;
    if is_raw {
        return Err(CopyFault::unwritable(is_second, Reason::Unknown));
    }
    Ok(DeviceFile {
        file,
        length,
        is_flushed: !writes,
    })
}

/// Checks that a copy begins where it was read in a device of this length.
fn check_start(
    place: &Place,
    size: u32,
    copy: &ReadCopy,
    length: usize,
    is_second: bool,
) -> Result<(), CopyFault>
    ensures { OnOk result (copy.now.start + size ≤ length) }
{
    if place.start(size, length as u64) == Some(copy.start) {
        Ok(())
    } else {
        Err(CopyFault::unwritable(is_second, Reason::Changed))
    }
}

/// These files as one device, once what they show is on storage.
fn settled<F: Read + Write + Seek + OpenFile + Drop, S: Start>(
    first: DeviceFile<F>,
    second: Option<DeviceFile<F>>,
) -> Result<OpenDevice<F, S>, CopyFault>
    ensures { IfOk result (λ device. calls_in device.calls ≡ []) }
{
    match OpenDevice::settled(first, second) {
        Ok(device) => Ok(device),
        Err(last) => Err(CopyFault::at(Fault::Failed, last)),
    }
}
