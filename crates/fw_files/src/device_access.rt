//! Devices: the locks on them, and what kind of file one is.
ghost use Rattle.std.specs.Prelude.{string_bytes};
ghost use Rattle.fw_engines.specs.Streams.{AppendsFront};
ghost use Rattle.fw_files.specs.Locks.{waiting_line};

use crate::reasons::Reason;
use crate::system::{Hold, System};
use crate::waiting::wait_for_lock;
use envcfg_core::Place;
use std::fs::{self, FileType, OpenOptions};
use std::io::{ErrorKind, Write};
use std::os::unix::fs::{FileTypeExt, MetadataExt};
use std::rt::Files;

/// The major number of raw flash.
const MTD_MAJOR: u64 = 90;

/// Locks the device of a copy against other programs that lock it, until the result is dropped; `None` if it can't be
/// opened or locked, and it is then used without a lock. A lock that is waited for is reported on `errors`.
pub(crate) fn lock_device<X: System, E: Write>(
    rt: &X,
    place: &Place,
    hold: Hold,
    errors: &mut E,
) -> Option<X::File>
    ensures { AppendsFront (E.contents errors.old) (E.contents errors.new) (waiting_line (string_bytes place.now.device)) }
{
    lock_path(rt, place.device.as_str(), hold, errors)
}

/// The same for the file at a path.
pub(crate) fn lock_path<X: System, E: Write>(
    rt: &X,
    path: &str,
    hold: Hold,
    errors: &mut E,
) -> Option<X::File>
    ensures { AppendsFront (E.contents errors.old) (E.contents errors.new) (waiting_line path.now) }
{
    if is_pipe(rt, path) {
        return None;
    }
    match OpenOptions::new().read(true).open(rt, path) {
        Ok(device) => locked(rt, device, path, hold, errors),
        Err(_) => None,
    }
}

/// The open file, if it can be locked.
fn locked<X: System, E: Write>(
    rt: &X,
    device: X::File,
    path: &str,
    hold: Hold,
    errors: &mut E,
) -> Option<X::File>
    ensures { AppendsFront (E.contents errors.old) (E.contents errors.new) (waiting_line path.now) }
{
    if wait_for_lock(rt, &device, path, hold, errors) {
        Some(device)
    } else {
        None
    }
}

/// Whether the path names a pipe, in which one can't seek; to open one may block until its other end is opened.
pub(crate) fn is_pipe<X: Files>(rt: &X, path: &str) -> bool {
    matches!(kind_of(rt, path), Some(kind) if kind.is_fifo())
}

/// Whether the path names a character device, such as raw flash. Flash has to be erased before it is written, which
/// nothing here does: the bytes written would be combined with the old ones.
pub(crate) fn is_raw<X: Files>(rt: &X, path: &str) -> bool {
    matches!(kind_of(rt, path), Some(kind) if kind.is_char_device())
}

/// Whether the path names raw flash: a character device of the major number that Linux has for MTD.
pub(crate) fn is_flash<X: Files>(rt: &X, path: &str) -> bool {
    match fs::metadata(rt, path) {
        Ok(metadata) => {
            metadata.file_type().is_char_device() && (metadata.rdev() >> 8) % 4_096 == MTD_MAJOR
        }
        Err(_) => false,
    }
}

/// Why a call of an open file failed, by the kind of its error if that is known: on some file systems a directory has no end.
pub(crate) fn why_not_used<X: Files>(rt: &X, path: &str, error: Option<ErrorKind>) -> Reason {
    match (kind_of(rt, path), error) {
        (Some(kind), _) if kind.is_dir() => Reason::Directory,
        (_, Some(error)) => Reason::by(error),
        (_, None) => Reason::Unknown,
    }
}

/// What kind of file a path names, if that is known.
fn kind_of<X: Files>(rt: &X, path: &str) -> Option<FileType> {
    match fs::metadata(rt, path) {
        Ok(metadata) => Some(metadata.file_type()),
        Err(_) => None,
    }
}
