//! The answers of a board file.
ghost use Rattle.std.specs.Prelude.{◌≡◌, IfOk, IfErr, Ok, Some};
ghost use Rattle.hush_commands.specs.declared.board_rules.Reply.TheVariants.{Status};
ghost use Rattle.hush_commands.specs.Statuses.{status_of};
ghost use Rattle.board_file.specs.Answers.{answer_of, answers_file, asks, script_answer, word_answer};
ghost use Rattle.board_file.specs.BoardFiles.{IsLineFaultOf};

use crate::board_fault::LineFault;
use hush_calc::is_text;
use hush_commands::{Bytes, Leaving, Reply};
use hush_syntax::{Bodies, FaultKind, Script};
use std::alloc::Global;
use text_parts::{Base, numeral};

/// What a text answers, that has no blanks at its ends.
pub(crate) fn read_answer(alloc: Global, text: &[u8]) -> Result<Reply, LineFault>
    ensures read { IfOk result (λ reply. answer_of text.now ≡ Ok reply) }
    ensures refused { IfErr result (IsLineFaultOf (answer_of text.now)) }
{
    match read_status(text) {
        Some(status) => Ok(Reply::Status {
            status,
            leaves: None,
        }),
        None => word_answer(alloc, text),
    }
}

/// A status: decimal digits that spell 0 to 255.
pub(crate) fn read_status(text: &[u8]) -> Option<u8>
    ensures { result ≡ status_of text.now }
{
    let status = numeral(Base::Decimal, text, 256)?;
    if status > 255 {
        return None;
    }
    Some(status as u8)
}

/// What a text answers that is no status.
fn word_answer(alloc: Global, text: &[u8]) -> Result<Reply, LineFault>
    ensures read { IfOk result (λ reply. word_answer text.now ≡ Ok reply) }
    ensures refused { IfErr result (IsLineFaultOf (word_answer text.now)) }
{
    if is_text(text, b"") {
        return Err(LineFault::NoAnswer);
    }
    if is_text(text, b"?") {
        return Ok(left(Leaving::Asks));
    }
    if is_text(text, b"resets") {
        return Ok(left(Leaving::Resets));
    }
    if is_text(text, b"boots") {
        return Ok(left(Leaving::Boots));
    }
    script_answer(alloc, text)
}

/// The answer with which the board is left.
fn left(leaving: Leaving) -> Reply
    ensures { result ≡ Status 0 (Some leaving) }
{
    Reply::Status {
        status: 0,
        leaves: Some(leaving),
    }
}

/// A script, if the board's shell reads it.
fn script_answer(alloc: Global, text: &[u8]) -> Result<Reply, LineFault>
    ensures read { IfOk result (λ reply. script_answer text.now ≡ Ok reply) }
    ensures refused { IfErr result (IsLineFaultOf (script_answer text.now)) }
{
    let source = Vec::from_slice(alloc, text)?;
    match Script::parse_in(alloc, source, Bodies::MayBeEmpty) {
        Ok(_script) => Ok(Reply::Text(Bytes::of(alloc, text)?)),
        Err(fault) => match fault.kind {
            FaultKind::Memory => Err(LineFault::Memory),
            _ => Err(LineFault::NoScript),
        },
    }
}

/// Whether an answer is one to `test -e`: a status, and nothing else, or an open one.
pub(crate) fn answers_file(reply: &Reply) -> bool
    ensures { result ≡ answers_file reply.now }
{
    match reply {
        Reply::Status { leaves: None, .. } => true,
        _ => asks(reply),
    }
}

/// Whether an answer is open.
pub(crate) fn asks(reply: &Reply) -> bool
    ensures { result ≡ asks reply.now }
{
    match reply {
        Reply::Status {
            leaves: Some(Leaving::Asks),
            ..
        } => true,
        _ => false,
    }
}
