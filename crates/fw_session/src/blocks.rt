//! Blocks: a script is read, and its run's outcome is written.
ghost use Rattle.std.specs.Prelude.{◌≡◌, ◌+◌, ◌≤◌, ◌++◌, length};
ghost use Rattle.fw_session.specs.BlockFaults.{Tells, TellsFaults};
ghost use Rattle.fw_session.specs.Handling.{IsAskedByBlock};
ghost use Rattle.fw_session.specs.Streams.{Writes};
ghost use Rattle.fw_session.specs.Turns.{ending_line};
ghost use Rattle.fw_session.specs.Views.{asked_view};

use crate::answers::{write_both, write_text};
use crate::dot_lines::Asked;
use arrayvec::ArrayVec;
use env_requests::Request;
use fw_engines::say_syntax_fault;
use hush_run::Outcome;
use hush_syntax::{Bodies, FaultKind, Script};
use itoa::Buffer;
use std::alloc::Global;
use std::io::Write;

/// What a block asks for, if the bodies of a script may be so.
pub(crate) fn asked_by_block(alloc: Global, bodies: Bodies, block: Vec<u8>) -> Asked
    ensures { IsAskedByBlock bodies block.items (asked_view result) }
{
    match Script::parse_in(alloc, block, bodies) {
        Ok(script) => Asked::Request(Request::Run(script), None),
        Err(fault) => match fault.kind {
            FaultKind::Memory => Asked::Text(b"[Memory]\n"),
            _ => Asked::Text(b"[Syntax]\n"),
        },
    }
}

/// Tells on `faults`, if there is such a writer, where and why a block isn't a script whose bodies may be so. If there is
/// no memory to find out, nothing is told.
pub(crate) fn tell_fault<F: Write>(
    alloc: Global,
    bodies: Bodies,
    block: &[u8],
    faults: &mut Option<F>,
)
    ensures { TellsFaults bodies F.contents faults.old faults.new }
{
    match faults {
        None => {}
        Some(errors) => {
            if let Ok(copy) = Vec::from_slice(alloc, block) {
                say_fault_of(alloc, bodies, block, copy, errors);
            }
        }
    }
}

/// The same for a block and its copy.
fn say_fault_of<F: Write>(
    alloc: Global,
    bodies: Bodies,
    block: &[u8],
    copy: Vec<u8>,
    errors: &mut F,
)
    requires { copy.items ≡ block.now }
    ensures { Tells bodies (F.contents errors.old) (F.contents errors.new) }
{
    match Script::parse_in(alloc, copy, bodies) {
        Ok(_) => {}
        Err(fault) => match fault.kind {
            FaultKind::Memory => {}
            _ => say_syntax_fault(errors, b"block", block, fault),
        },
    }
}

/// Writes the text of a run and how it ended as one text; if there is no memory for that, one after the other.
pub(crate) fn write_outcome<W: Write>(outcome: Outcome, output: &mut W, written: &mut u64) -> bool
    ensures { Writes (W.contents output.old) (W.contents output.new) written.old written.new
        (outcome.text.items ++ ending_line outcome.ending outcome.status outcome.steps) result }
{
    let line = ending_line(&outcome);
    let mut text = outcome.text;
    if text.is_empty() {
        return write_text(output, &line, written);
    }
    match text.extend_from_slice(&line) {
        Ok(()) => write_text(output, &text, written),
        Err(_) => write_both(output, &text, &line, written),
    }
}

/// `[ENDING STATUS STEPS]` and a newline.
fn ending_line(outcome: &Outcome) -> ArrayVec<u8, 64>
    ensures { result.items ≡ ending_line outcome.now.ending outcome.now.status outcome.now.steps }
{
    let mut line = ArrayVec::new();
    put(&mut line, b"[");
    put(&mut line, outcome.ending.name());
    put(&mut line, b" ");
    put(&mut line, Buffer::new().format(outcome.status).as_bytes());
    put(&mut line, b" ");
    put(&mut line, Buffer::new().format(outcome.steps).as_bytes());
    put(&mut line, b"]\n");
    line
}

/// Appends a short text to a line.
fn put(line: &mut ArrayVec<u8, 64>, text: &[u8])
    requires { length line.old.items + length text.now ≤ 64 }
    ensures { line.new.items ≡ line.old.items ++ text.now }
{
    let appended = line.try_extend_from_slice(text);
    // It tells the prover that the text fits, so this isn't refused.
    prove!(appended.is_ok());
}
