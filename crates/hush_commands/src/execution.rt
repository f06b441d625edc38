//! What a simple command does (docs/runs.md, "Commands").
ghost use Rattle.std.specs.Prelude.{◌≡◌, ◌++◌, IfOk};
ghost use Rattle.hush_commands.specs.Following.{follow_of};
ghost use Rattle.std.specs.FinMap as names;
ghost use Rattle.std.specs.Prelude.{ℕ, get_or, option_map};
ghost use Rattle.hush_commands.specs.Hardware.{hardware, answer_to, role_reply};
ghost use Rattle.text_parts.specs.Words.{spaced};
ghost use Rattle.hush_commands.specs.Commands.{command_in};
ghost use Rattle.hush_commands.specs.Output.{Prints, Answers, status_if};
ghost use Rattle.hush_commands.specs.Carrying.{echo_of, line_end, stand_in_of, other_of, save_of, unknown, done_by, done_of};
ghost use Rattle.hush_commands.specs.Carrying.{Attempts, Carries, IsRefused, Tells, status_in};

use crate::board_rules::{BoardRules, Reply};
use crate::command::Command;
use crate::field_buffer::FieldBuffer;
use crate::follow::Follow;
use crate::listing::print_variables;
use crate::messages::Message;
use crate::output::{Output, PrintFault};
use crate::shell::{Shell, exit_status, kept_status, test_by};
use crate::stand_ins::Stubs;
use crate::writes::{Complaint, calculate, write_words};
use env_session::Session;
use envvars_core::Memory;
use hush_calc::Fields;
use std::alloc::Global;

/// Carries out the simple command of these fields: returns its status and what follows it, and leaves its text and its
/// change.
///
/// The names of `run` and `env delete` are steps of their own, which follow: here these leave the status. `exit`
/// returns the status with which the run, or on a board its text, ends. If the text doesn't fit or memory is refused, nothing has changed.
/// Memory is refused to `true`, `false`, `test`, `exit`, `env exists` and a wrong use only for a text that fits, or to a
/// `test` for a file of which the board has to be asked.
pub fn carry_out(
    alloc: Global,
    session: &mut Session,
    shell: Shell,
    stand_ins: &Stubs,
    board: &BoardRules,
    fields: &FieldBuffer,
    status: u8,
    output: &mut Output,
) -> Result<(u8, Follow), PrintFault>
    ensures carries { Carries (done_of shell (hardware board.now stand_ins.now) fields.now.done status session.old)
        session.old session.new output.old output.new (status_in result) }
    ensures memory { IsRefused shell (hardware board.now stand_ins.now) (command_in shell (hardware board.now stand_ins.now) fields.now.done)
        (done_of shell (hardware board.now stand_ins.now) fields.now.done status session.old)
        output.old (status_in result) }
    ensures follows { IfOk result (λ done. done.1 ≡ follow_of shell (hardware board.now stand_ins.now) fields.now.done) }
{
    let command = Command::of(shell, stand_ins, board, fields.fields());
    let follow = command.follow(alloc, shell, stand_ins, board)?;
    let start = output.text().len();
    match attempt(
        alloc, session, shell, stand_ins, board, command, status, output,
    ) {
        Ok(status) => {
            // Does nothing: it tells the prover that what was printed is within the limit.
            let _printed = output.text();
            Ok((status, follow))
        }
        Err(fault) => {
            output.cut(start);
            Err(fault)
        }
    }
}

/// Carries out a command, but if the text isn't printed, a part of it may be after what was printed before.
fn attempt(
    alloc: Global,
    session: &mut Session,
    shell: Shell,
    stand_ins: &Stubs,
    board: &BoardRules,
    command: Command<'_>,
    status: u8,
    output: &mut Output,
) -> Result<u8, PrintFault>
    ensures attempts { Attempts (done_by shell (hardware board.now stand_ins.now) command.entry status session.old)
        session.old session.new output.old output.new result }
    ensures memory { IsRefused shell (hardware board.now stand_ins.now) command.entry
        (done_by shell (hardware board.now stand_ins.now) command.entry status session.old) output.old result }
{
    match command {
        Command::Nothing => Ok(kept_status(shell, status)),
        Command::True => Ok(0),
        Command::False => Ok(1),
        Command::Echo { newline, words } => echo(alloc, newline, words, output),
        Command::Set { force, name, words } => {
            tell(
                write_words(alloc, session, name.bytes(), words, force),
                output,
            )
        }
        Command::Print { all, names } => print_variables(session.vars(), all, names, output),
        Command::Save => save(session, output),
        Command::Run { .. } => Ok(status),
        Command::Delete { .. } => Ok(status),
        Command::Exists { name } => Ok(status_if(session.vars().get(name.bytes()).is_some())),
        Command::Test { words } => Ok(status_if(test_by(shell, stand_ins, board, words))),
        Command::Calculate { called, words } => {
            tell(calculate(session, called.bytes(), words), output)
        }
        Command::Exit { status: own } => Ok(own.unwrap_or(exit_status(shell, status))),
        Command::WrongUse { called } => Message::WrongUse.fail(called.bytes(), output),
        Command::Other { called, fields } => {
            other(
                alloc,
                stand_ins,
                board,
                called.bytes(),
                fields,
                status,
                output,
            )
        }
    }
}

/// `echo`: prints the words, joined by one space, and perhaps a newline.
fn echo(
    alloc: Global,
    newline: bool,
    words: Fields<'_>,
    output: &mut Output,
) -> Result<u8, PrintFault>
    ensures { Answers (echo_of newline words.entry) output.old output.new result }
{
    print_words(alloc, b"", words, line_end(newline), output)?;
    Ok(0)
}

fn line_end(newline: bool) -> &'static [u8]
    ensures { result.now ≡ line_end newline }
{
    if newline { b"\n" } else { b"" }
}

/// Saves, and prints which copy was written.
fn save(session: &mut Session, output: &mut Output) -> Result<u8, PrintFault>
    ensures { Attempts (save_of session.old) session.old session.new output.old output.new result }
{
    match output.save(session) {
        Ok(()) => Ok(0),
        Err(fault) => Err(fault),
    }
}

/// A call that a board or a stand-in answers, or a command that isn't known.
fn other(
    alloc: Global,
    stand_ins: &Stubs,
    board: &BoardRules,
    called: &[u8],
    fields: Fields<'_>,
    status: u8,
    output: &mut Output,
) -> Result<u8, PrintFault>
    ensures { Answers (other_of (answer_to (hardware board.now stand_ins.now) called.now fields.entry) status called.now fields.entry)
        output.old output.new result }
{
    match board.find(called, &fields) {
        Some(Reply::Status { status: own, .. }) => stand_in(alloc, *own, fields, output),
        Some(Reply::Text(_)) => stand_in(alloc, status, fields, output),
        Some(Reply::Lacks) => unknown(called, &fields, output),
        None => other_stub(alloc, stand_ins, called, fields, output),
    }
}

/// The stand-in of a name, or a command that isn't known.
fn other_stub(
    alloc: Global,
    stand_ins: &Stubs,
    called: &[u8],
    fields: Fields<'_>,
    output: &mut Output,
) -> Result<u8, PrintFault>
    ensures { (status : ℕ) → Answers (other_of (option_map role_reply (names.get stand_ins.now called.now)) status called.now fields.entry)
        output.old output.new result }
{
    match stand_ins.status(called) {
        Some(status) => stand_in(alloc, status, fields, output),
        None => unknown(called, &fields, output),
    }
}

/// A command that isn't known.
fn unknown(called: &[u8], fields: &Fields<'_>, output: &mut Output) -> Result<u8, PrintFault>
    ensures { Answers (unknown called.now fields.now) output.old output.new result }
{
    Message::UnknownCommand.fail(written(called, fields), output)
}

/// The name of a command as it was written.
fn written<'a>(called: &'a [u8], fields: &Fields<'a>) -> &'a [u8]
    ensures { result.now ≡ get_or fields.now 0 called.now }
{
    match fields.again().next() {
        Some(word) => word,
        None => called,
    }
}

/// A stand-in: prints `+` and its fields, its name first, and has its own status.
fn stand_in(
    alloc: Global,
    status: u8,
    fields: Fields<'_>,
    output: &mut Output,
) -> Result<u8, PrintFault>
    ensures { Answers (stand_in_of status fields.entry) output.old output.new result }
{
    print_words(alloc, b"+ ", fields, b"\n", output)?;
    Ok(status)
}

/// Reports the complaint of a write, if it has one.
fn tell(
    written: Result<Option<Complaint<'_>>, Memory>,
    output: &mut Output,
) -> Result<u8, PrintFault>
    ensures { Tells written.entry output.old output.new result }
{
    match written {
        Ok(None) => Ok(0),
        Ok(Some(complaint)) => complaint.message.fail(complaint.name, output),
        Err(Memory) => Err(PrintFault::Memory),
    }
}

/// True has status 0.
pub(crate) fn status_if(holds: bool) -> u8
    ensures { result ≡ status_if holds }
{
    if holds { 0 } else { 1 }
}

/// Prints words, joined by one space, between two texts.
fn print_words(
    alloc: Global,
    front: &[u8],
    words: Fields<'_>,
    back: &[u8],
    output: &mut Output,
) -> Result<(), PrintFault>
    ensures { Prints (front.now ++ (spaced words.entry ++ back.now)) output.old output.new result }
{
    let text = words.joined(alloc)?;
    output.print_parts(front, &text, back)
}
