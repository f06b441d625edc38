//! What is printed of a file that can't be used.
ghost use Rattle.std.specs.Prelude.{◌≡◌, None, Some};
ghost use Rattle.fw_engines.specs.Streams.{AppendsFront};
ghost use Rattle.fw_files.specs.Files.{reason_in};
ghost use Rattle.fw_tools.specs.FaultLines.{ending, fault_line, line_end, named_line, path_line, place_line};
ghost use Rattle.fw_tools.specs.FaultNames.{named_view};

use crate::explains::Explains;
use crate::fault_names::{NamedFault, config_fault, refused_entry, stub_fault, text_fault};
use fw_engines::OUT_OF_MEMORY;
use fw_engines::streams::{say, write_parts, write_three};
use fw_files::{FileFault, Reason};
use itoa::Buffer;
use std::io::Write;

/// Before the path of a file that can't be read, or written.
const CANNOT_READ_FILE: &[u8] = b"fwenv: cannot read ";

const CANNOT_WRITE_FILE: &[u8] = b"fwenv: cannot write ";

/// Before the path of a file in the other texts.
const FWENV: &[u8] = b"fwenv: ";

/// After the path of a device that a copy isn't wholly inside.
const TOO_SHORT: &[u8] = b" is too short\n";

/// After the path of a configuration in YAML, and of a UBI volume.
const IS_YAML: &[u8] = b" is YAML: fwenv reads lines of DEVICE OFFSET SIZE\n";

const IS_UBI_VOLUME: &[u8] = b" is a UBI volume by its name: fwenv reads files and block devices\n";

/// After the line of a list of names that is none.
const NO_NAME: &[u8] = b"not a name of a variable";

/// What is wrong with a line of a default environment.
const NO_EQUALS: &[u8] = b"no = in this line; for a source in U-Boot's own form use --env-source";

/// Between a path and the number of a line.
const LINE: &[u8] = b":";

/// Between a path and the fault's name, and between that and the number of the line.
const COLON: &[u8] = b": ";

const IN_LINE: &[u8] = b" in line ";

/// At the end of a text.
const NEWLINE: &[u8] = b"\n";

/// Prints on `errors` why a file can not be used, as far as `errors` takes it.
pub(crate) fn say_fault<E: Write>(errors: &mut E, explains: Explains, path: &str, fault: FileFault)
    ensures { AppendsFront (E.contents errors.old) (E.contents errors.new)
        (fault_line explains path.now fault) }
{
    match fault {
        FileFault::CannotRead(reason) => {
            say_path(errors, CANNOT_READ_FILE, path, ending(reason, explains))
        }
        FileFault::CannotWrite(reason) => {
            say_path(errors, CANNOT_WRITE_FILE, path, ending(reason, explains))
        }
        FileFault::TooShort => say_path(errors, FWENV, path, TOO_SHORT),
        FileFault::Memory => say(errors, OUT_OF_MEMORY),
        FileFault::Foreign(kind) => say_path(errors, FWENV, path, kind.ending()),
        FileFault::Yaml => say_path(errors, FWENV, path, IS_YAML),
        FileFault::UbiVolume => say_path(errors, FWENV, path, IS_UBI_VOLUME),
        FileFault::Config(refused) => say_named(errors, path, config_fault(refused)),
        FileFault::Text(refused) => say_named(errors, path, text_fault(refused)),
        FileFault::Stubs(refused) => say_named(errors, path, stub_fault(refused)),
        FileFault::Board(refused) => say_place(errors, path, refused.line, refused.kind.text()),
        FileFault::Source(refused) => say_place(errors, path, refused.line, refused.flaw.text()),
        FileFault::NoName(line) => say_place(errors, path, line, NO_NAME),
        FileFault::Bare(line) => say_place(errors, path, line, NO_EQUALS),
        FileFault::Default(line, refusal) => {
            say_named(errors, path, refused_entry(line, refusal))
        }
    }
}

/// Prints a path between two texts.
fn say_path<E: Write>(errors: &mut E, front: &[u8], path: &str, back: &[u8])
    ensures { AppendsFront (E.contents errors.old) (E.contents errors.new) (path_line front.now path.now back.now) }
{
    let _ = write_three(errors, front, path.as_bytes(), back);
}

/// Prints which fault a file has, and in which line, if it is in one.
fn say_named<E: Write>(errors: &mut E, path: &str, fault: NamedFault)
    ensures { AppendsFront (E.contents errors.old) (E.contents errors.new)
        (named_line path.now (named_view fault)) }
{
    match fault.line {
        None => say_whole(errors, path, fault.name),
        Some(line) => say_in_line(errors, path, fault.name, line),
    }
}

/// Prints which fault a file has as a whole.
fn say_whole<E: Write>(errors: &mut E, path: &str, name: &[u8])
    ensures { AppendsFront (E.contents errors.old) (E.contents errors.new)
        (named_line path.now (name.now, None)) }
{
    let _ = write_parts(errors, &[FWENV, path.as_bytes(), COLON, name, NEWLINE]);
}

/// Prints which fault is in a line of a file.
fn say_in_line<E: Write>(errors: &mut E, path: &str, name: &[u8], line: usize)
    ensures { AppendsFront (E.contents errors.old) (E.contents errors.new)
        (named_line path.now (name.now, Some line)) }
{
    let mut digits = Buffer::new();
    let _ = write_parts(
        errors,
        &[
            FWENV,
            path.as_bytes(),
            COLON,
            name,
            IN_LINE,
            digits.format(line).as_bytes(),
            NEWLINE,
        ],
    );
}

/// Prints the line of a file, and what is wrong with it.
fn say_place<E: Write>(errors: &mut E, path: &str, line: usize, text: &[u8])
    ensures { AppendsFront (E.contents errors.old) (E.contents errors.new) (place_line path.now line text.now) }
{
    let mut digits = Buffer::new();
    let _ = write_parts(
        errors,
        &[
            FWENV,
            path.as_bytes(),
            LINE,
            digits.format(line).as_bytes(),
            COLON,
            text,
            NEWLINE,
        ],
    );
}

/// What follows the path of the file: the reason, if it is known and reported, and the end of the line.
pub(crate) fn ending(reason: Reason, explains: Explains) -> &'static [u8]
    ensures { result.now ≡ ending explains reason }
{
    match explains {
        Explains::Nothing => NEWLINE,
        Explains::Reason => line_end(reason),
    }
}

/// The reason, if it is known, and the end of the line.
fn line_end(reason: Reason) -> &'static [u8]
    ensures { result.now ≡ line_end (reason_in reason) }
{
    match reason {
        Reason::NoSuchFile => b": no such file\n",
        Reason::Denied => b": permission denied\n",
        Reason::Directory => b": it is a directory\n",
        Reason::ReadOnly => b": the file system is read-only\n",
        Reason::NoSpace => b": no space is left\n",
        Reason::TooLong => b": it is longer than 16777216 bytes\n",
        Reason::LongerThanDump => b": it is longer than 1073741824 bytes\n",
        Reason::Changed => b": another program changed it\n",
        Reason::Unknown => NEWLINE,
    }
}
