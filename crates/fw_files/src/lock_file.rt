//! The lock files that U-Boot's tools and libubootenv lock too.
ghost use Rattle.std.specs.Prelude.{IfErr};
ghost use Rattle.fw_arguments.specs.Calls.{In, Usual, locks_view};
ghost use Rattle.fw_files.specs.Locks.{HasWaited, IsLockStop};

use crate::device_access::{is_pipe, lock_device};
use crate::reasons::Reason;
use crate::stop::Stop;
use crate::system::{Hold, System};
use crate::waiting::wait_for_lock;
use envcfg_core::Place;
use fw_arguments::LockFiles;
use std::fs::{self, Metadata, OpenFile, OpenOptions};
use std::io::{self, ErrorKind, Write};
use std::os::unix::fs::MetadataExt;

/// The lock file of U-Boot's tools since 2025.01.
const RUN: &str = "/run/fw_printenv.lock";

/// The lock file of libubootenv and of U-Boot's older tools.
const VAR_LOCK: &str = "/var/lock/fw_printenv.lock";

/// The locks on the device of the first copy and on lock files, as far as they are had, until this is dropped.
#[derive(Drop)]
pub struct Locks<F> {
    device: Option<F>,
    files: LockedFiles<F>,
}

/// Lock files, which are locked until this is dropped.
#[derive(Drop)]
pub struct LockedFiles<F> {
    first: Option<F>,
    second: Option<F>,
}

/// Whether a lock file has to be had if it is there.
#[derive(Clone, Copy)]
enum Need {
    /// It has to, and if it isn't there it has to be made.
    Made,
    /// It has to; if it isn't there it is made, unless its folder isn't there or doesn't allow it.
    Had,
    /// It doesn't have to, and is made in the same way.
    Spare,
    /// It doesn't have to, and isn't made.
    IfThere,
}

impl Need {
    /// That of a file that doesn't have to be had.
    fn spare(makes: bool) -> Need {
        if makes { Need::Spare } else { Need::IfThere }
    }
}

/// Locks the device of the first copy, if it can be locked, and then the lock files of a call.
///
/// Lock files that don't have to be had are locked shared, which keeps other programs off, and not the runs of `fwenv` over
/// other devices. A file that isn't there is made, but no folder, and none by what only reads and doesn't have to have it.
/// Each one whose lock is waited for is reported on `errors` (docs/tools.md, "Other programs").
///
/// U-Boot's tools put a new file in the place of one with a single image. If the one that was locked isn't the device
/// any more, or there is no lock on it, the lock files are locked alone, so that nothing else is at work.
pub fn lock_copies<'a, X: System + AllocGlobal, E: Write>(
    rt: &X,
    place: &Place,
    files: LockFiles<'a>,
    hold: Hold,
    errors: &mut E,
) -> Result<Locks<X::File>, Stop<'a>>
    ensures waited { HasWaited (E.contents errors.old) (E.contents errors.new) }
    ensures stopped { IfErr result (IsLockStop (locks_view files.entry)) }
{
    let locks = lock_once(rt, place, files, hold, files_hold(files, hold), errors)?;
    if is_in_place(rt, place, &locks.device) {
        Ok(locks)
    } else {
        drop(locks);
        lock_once(rt, place, files, hold, Hold::Alone, errors)
    }
}

/// How lock files are locked by what locks their device so.
fn files_hold(files: LockFiles<'_>, device: Hold) -> Hold {
    match files {
        LockFiles::IfPossible => Hold::Shared,
        _ => device,
    }
}

/// Whether the file that is locked still is the device.
fn is_in_place<X: System>(rt: &X, place: &Place, locked: &Option<X::File>) -> bool {
    let Some(file) = locked else {
        return false;
    };
    match (file.metadata(), fs::metadata(rt, place.device.as_str())) {
        (Ok(locked), Ok(now)) => are_same(&locked, &now),
        _ => true,
    }
}

/// Locks the device so, and the lock files so.
fn lock_once<'a, X: System + AllocGlobal, E: Write>(
    rt: &X,
    place: &Place,
    files: LockFiles<'a>,
    device_hold: Hold,
    files_hold: Hold,
    errors: &mut E,
) -> Result<Locks<X::File>, Stop<'a>>
    ensures waited { HasWaited (E.contents errors.old) (E.contents errors.new) }
    ensures stopped { IfErr result (IsLockStop (locks_view files.entry)) }
{
    let makes = device_hold == Hold::Alone;
    let device = lock_device(rt, place, device_hold, errors);
    let files = lock_files(rt, files, makes, files_hold, errors)?;
    Ok(Locks { device, files })
}

/// Locks the lock files of a call; `makes`: also one that isn't there and doesn't have to be.
fn lock_files<'a, X: System + AllocGlobal, E: Write>(
    rt: &X,
    files: LockFiles<'a>,
    makes: bool,
    hold: Hold,
    errors: &mut E,
) -> Result<LockedFiles<X::File>, Stop<'a>>
    ensures waited { HasWaited (E.contents errors.old) (E.contents errors.new) }
    ensures stopped { IfErr result (IsLockStop (locks_view files.entry)) }
{
    match files {
        LockFiles::Nothing => Ok(LockedFiles {
            first: None,
            second: None,
        }),
        LockFiles::In(folder) => lock_in(rt, folder, hold, errors),
        LockFiles::Usual => lock_usual(rt, Need::Had, hold, errors),
        LockFiles::IfPossible => lock_usual(rt, Need::spare(makes), hold, errors),
    }
}

/// The lock file in this folder.
fn lock_in<'a, X: System + AllocGlobal, E: Write>(
    rt: &X,
    folder: &'a str,
    hold: Hold,
    errors: &mut E,
) -> Result<LockedFiles<X::File>, Stop<'a>>
    ensures waited { HasWaited (E.contents errors.old) (E.contents errors.new) }
    ensures stopped { IfErr result (IsLockStop (In folder.now)) }
{
    let Ok(path) = format!(in rt.alloc(); "{folder}/fw_printenv.lock") else {
        return Err(Stop::Memory);
    };
    match lock_at(rt, path.as_str(), Need::Made, hold, errors) {
        Ok(first) => Ok(LockedFiles {
            first,
            second: None,
        }),
        Err(reason) => Err(Stop::NotLocked(folder, reason)),
    }
}

/// The two usual lock files, in the order in which each program has to lock them.
fn lock_usual<X: System, E: Write>(
    rt: &X,
    need: Need,
    hold: Hold,
    errors: &mut E,
) -> Result<LockedFiles<X::File>, Stop<'static>>
    ensures waited { HasWaited (E.contents errors.old) (E.contents errors.new) }
    ensures stopped { IfErr result (IsLockStop Usual) }
{
    let first = match lock_at(rt, RUN, need, hold, errors) {
        Ok(first) => first,
        Err(reason) => return Err(Stop::NotLocked("/run", reason)),
    };
    let var_lock = unless_same(&first, opened(rt, VAR_LOCK, need));
    match locked(rt, var_lock, VAR_LOCK, need, hold, errors) {
        Ok(second) => Ok(LockedFiles { first, second }),
        Err(reason) => Err(Stop::NotLocked("/var/lock", reason)),
    }
}

/// The second file, unless it is the first one by another path: a program would wait for its own lock on another open of it.
fn unless_same<F: OpenFile + Drop>(
    first: &Option<F>,
    second: Result<Option<F>, Reason>,
) -> Result<Option<F>, Reason> {
    match (first, second) {
        (Some(first), Ok(Some(second))) => match (first.metadata(), second.metadata()) {
            (Ok(one), Ok(other)) if are_same(&one, &other) => Ok(None),
            _ => Ok(Some(second)),
        },
        (_, second) => second,
    }
}

/// Whether two files are one.
fn are_same(first: &Metadata, second: &Metadata) -> bool {
    first.dev() == second.dev() && first.ino() == second.ino()
}

/// A lock file, open for reading if it is there, since that is all that a lock needs; else it may be made. `None` if it
/// can't be had and doesn't have to be.
fn opened<X: System>(rt: &X, path: &str, need: Need) -> Result<Option<X::File>, Reason> {
    if is_pipe(rt, path) {
        return unless_needed(need, Reason::Unknown);
    }
    match OpenOptions::new().read(true).open(rt, path) {
        Ok(file) => Ok(Some(file)),
        Err(error) => match error.kind() {
            ErrorKind::NotFound => made(rt, path, need),
            kind => unless_needed(need, Reason::by(kind)),
        },
    }
}

/// A lock file that isn't there, made.
fn made<X: System>(rt: &X, path: &str, need: Need) -> Result<Option<X::File>, Reason> {
    match need {
        Need::Made => match created(rt, path) {
            Ok(file) => Ok(Some(file)),
            Err(error) => Err(Reason::by(error.kind())),
        },
        Need::Had | Need::Spare => Ok(created(rt, path).ok()),
        Need::IfThere => Ok(None),
    }
}

/// A new file.
fn created<X: System>(rt: &X, path: &str) -> io::Result<X::File> {
    OpenOptions::new().write(true).create(true).open(rt, path)
}

/// No file, unless one has to be had.
fn unless_needed<F: Drop>(need: Need, reason: Reason) -> Result<Option<F>, Reason> {
    match need {
        Need::Made | Need::Had => Err(reason),
        Need::Spare | Need::IfThere => Ok(None),
    }
}

/// A lock file, locked; `None` if it can't be had and doesn't have to be.
fn lock_at<X: System, E: Write>(
    rt: &X,
    path: &str,
    need: Need,
    hold: Hold,
    errors: &mut E,
) -> Result<Option<X::File>, Reason>
    ensures { HasWaited (E.contents errors.old) (E.contents errors.new) }
{
    locked(rt, opened(rt, path, need), path, need, hold, errors)
}

/// The same for a lock file that was opened.
fn locked<X: System, E: Write>(
    rt: &X,
    opened: Result<Option<X::File>, Reason>,
    path: &str,
    need: Need,
    hold: Hold,
    errors: &mut E,
) -> Result<Option<X::File>, Reason>
    ensures { HasWaited (E.contents errors.old) (E.contents errors.new) }
{
    match opened {
        Err(reason) => Err(reason),
        Ok(None) => Ok(None),
        Ok(Some(file)) => {
            if wait_for_lock(rt, &file, path, hold, errors) {
                Ok(Some(file))
            } else {
                unless_needed(need, Reason::Unknown)
            }
        }
    }
}
