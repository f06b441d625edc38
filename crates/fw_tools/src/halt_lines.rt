//! What is printed of a subcommand that ended before its work.
ghost use Rattle.std.specs.Prelude.{◌≡◌, ◌++◌, ◌∷◌, []};
ghost use Rattle.fw_engines.specs.Streams.{AppendsFront};
ghost use Rattle.fw_tools.specs.FaultLines.{fault_line};
ghost use Rattle.fw_files.specs.Copies.{device_of};
ghost use Rattle.fw_tools.specs.HaltLines.{SaysHalt, SaysStop, bad_copy_line, fault_of_copy, lock_file_line, lock_line, no_good_copies_line, no_good_copy_line};

use crate::explains::Explains;
use crate::fault_lines::{ending, say_fault};
use crate::halt::Halt;
use envcfg_core::Config;
use envimg_core::CopyState;
use fw_engines::streams::{say, write_parts, write_three};
use fw_engines::{OUT_OF_MEMORY, say_syntax_fault};
use fw_files::{CopyFault, Reason, Stop, device_of};
use std::io::Write;

/// Before a name of `--boots` or `--resets` of which there is no stand-in.
const INVALID_VALUE: &[u8] = b"error: invalid value '";

/// Before the path of a lock file that can't be opened or locked, and the file's name in its folder.
const CANNOT_LOCK: &[u8] = b"fwenv: cannot lock ";

const LOCK_FILE: &[u8] = b"/fw_printenv.lock";

/// Before, between and after the faults of the copies if no copy is good.
const NO_GOOD_COPY: &[u8] = b"fwenv: no good copy: ";

const IN_FIRST: &[u8] = b" in the first copy, ";

const IN_SECOND: &[u8] = b" in the second";

const LOOK_AT: &[u8] =
    b"; look at the size and the number of lines in the configuration, and at the byte order (--big-endian)\n";

/// Prints on `errors` why a subcommand ended before its work, as far as `errors` takes it.
pub(crate) fn say_halt<E: Write>(errors: &mut E, explains: Explains, halt: &Halt<'_>)
    ensures { SaysHalt explains halt.now (E.contents errors.old) (E.contents errors.new) }
{
    match halt {
        Halt::Files(stop) => say_stop(errors, explains, stop),
        Halt::Script(name, text, fault) => say_syntax_fault(errors, name.as_bytes(), text, *fault),
        Halt::NoStandIn(name, back) => {
            let _ = write_three(errors, INVALID_VALUE, name.as_bytes(), back);
        }
    }
}

/// The same of one that can't go on with its files.
fn say_stop<E: Write>(errors: &mut E, explains: Explains, stop: &Stop<'_>)
    ensures { SaysStop explains stop.now (E.contents errors.old) (E.contents errors.new) }
{
    match stop {
        Stop::Memory => say(errors, OUT_OF_MEMORY),
        Stop::File(path, fault) => say_fault(errors, explains, path, *fault),
        Stop::Copy(config, fault) => say_copy(errors, explains, config, *fault),
        Stop::Overlap => say(errors, b"fwenv: copies overlap\n"),
        Stop::BadCopy(is_second, state) => say_bad_copy(errors, *is_second, *state),
        Stop::NoSecondCopy => say(errors, b"fwenv: there is no second copy\n"),
        Stop::NoGoodCopy(first, second) => say_no_good_copy(errors, *first, *second),
        Stop::Defaults(path, fault, warning) => {
            say(errors, warning);
            say_fault(errors, explains, path, *fault);
        }
        Stop::Misread(line) => say(errors, line),
        Stop::NotLocked(folder, reason) => say_not_locked(errors, folder, *reason),
    }
}

/// Prints why a copy can't be read.
fn say_copy<E: Write>(errors: &mut E, explains: Explains, config: &Config, fault: CopyFault)
    ensures { AppendsFront (E.contents errors.old) (E.contents errors.new)
        (fault_line explains (device_of config.now fault.is_second) fault.fault) }
{
    let path = device_of(config, fault.is_second);
    say_fault(errors, explains, path, fault.fault);
}

/// Prints that the copy that is asked for isn't good.
fn say_bad_copy<E: Write>(errors: &mut E, is_second: bool, state: CopyState)
    ensures { AppendsFront (E.contents errors.old) (E.contents errors.new) (bad_copy_line is_second state) }
{
    if is_second {
        say_bad(errors, b"fwenv: the second copy isn't good: ", state);
    } else {
        say_bad(errors, b"fwenv: the first copy isn't good: ", state);
    }
}

/// Prints what is wrong with a copy, after this text.
fn say_bad<E: Write>(errors: &mut E, front: &[u8], state: CopyState)
    ensures { AppendsFront (E.contents errors.old) (E.contents errors.new) (front.now ++ fault_of_copy state ++ 10 ∷ []) }
{
    let _ = write_three(errors, front, fault_of_copy(state), b"\n");
}

/// Prints what is wrong with each copy, and what to look at.
fn say_no_good_copy<E: Write>(errors: &mut E, first: CopyState, second: Option<CopyState>)
    ensures { AppendsFront (E.contents errors.old) (E.contents errors.new) (no_good_copy_line first second) }
{
    let first = fault_of_copy(first);
    match second {
        None => {
            let _ = write_parts(errors, &[NO_GOOD_COPY, first, LOOK_AT]);
        }
        Some(second) => say_both(errors, first, fault_of_copy(second), LOOK_AT),
    }
}

/// The same of two copies.
fn say_both<'t, E: Write>(errors: &mut E, first: &'t [u8], second: &'t [u8], end: &'t [u8])
    ensures { AppendsFront (E.contents errors.old) (E.contents errors.new) (no_good_copies_line first.now second.now end.now) }
{
    let _ = write_parts(
        errors,
        &[NO_GOOD_COPY, first, IN_FIRST, second, IN_SECOND, end],
    );
}

/// What is wrong with a copy of the right length.
fn fault_of_copy(state: CopyState) -> &'static [u8]
    ensures { result.now ≡ fault_of_copy state }
{
    match state {
        CopyState::Unterminated => b"list of entries isn't ended",
        _ => b"checksum is wrong",
    }
}

/// Prints that a lock file can't be had.
fn say_not_locked<E: Write>(errors: &mut E, folder: &str, reason: Reason)
    ensures { AppendsFront (E.contents errors.old) (E.contents errors.new) (lock_line folder.now reason) }
{
    say_lock(errors, folder.as_bytes(), ending(reason, Explains::Reason));
}

/// The same with the end of the line.
fn say_lock<'t, E: Write>(errors: &mut E, folder: &'t [u8], ending: &'t [u8])
    ensures { AppendsFront (E.contents errors.old) (E.contents errors.new) (lock_file_line folder.now ending.now) }
{
    let _ = write_parts(errors, &[CANNOT_LOCK, folder, LOCK_FILE, ending]);
}
