//! The input as it is read: pieces, bytes and lines of it, and what is answered when.
ghost use Rattle.std.specs.Prelude.{◌≡◌, ◌≤◌, ◌++◌, [], ◌∷◌, length, take, drop};
ghost use Rattle.fw_session.specs.BlockFaults.{TellsFaults};
ghost use Rattle.fw_session.specs.Input.{Dot, items_of};
ghost use Rattle.fw_session.specs.NamedSessions.{session_of};
ghost use Rattle.fw_session.specs.Ends.{AnsweredOrCut};
ghost use Rattle.fw_session.specs.Handling.{IsPending, IsLine, block_items};
ghost use Rattle.fw_session.specs.Talks.{HandlesPiece, HandlesByte, HandlesLine};
ghost use Rattle.env_requests.specs.Views.{rules_of};
ghost use Rattle.hush_run.specs.Meaning.{bodies_of};

use crate::blocks::{asked_by_block, tell_fault};
use crate::dot_lines::asked_by_line;
use crate::replies::answer;
use crate::session_end::Stop;
use crate::talk::Talk;
use env_requests::RunRules;
use hush_run::bodies_of;
use std::io::Write;
use std::mem;

/// Answers what waits at the end of the input.
pub(crate) fn answer_rest<W: Write, F: Write>(
    talk: &mut Talk,
    rules: &RunRules<'_>,
    output: &mut W,
    faults: &mut Option<F>,
) -> bool
    requires { IsPending talk.old.bytes.items talk.old.start }
    ensures told { TellsFaults (bodies_of rules.now.shell) F.contents faults.old faults.new }
    ensures answers { AnsweredOrCut (rules_of rules.now) (session_of talk.old) (items_of talk.old.bytes.items)
        (W.contents output.old) (W.contents output.new) talk.old.written talk.new.written (session_of talk.new) result }
{
    if talk.start < talk.bytes.len() && talk.bytes[talk.start] == b'.' {
        answer_dot(talk, rules, output, faults)
    } else {
        answer_block(talk, rules, output, faults)
    }
}

/// Answers the dot line that waits, whole or not, and before it the block.
fn answer_dot<W: Write, F: Write>(
    talk: &mut Talk,
    rules: &RunRules<'_>,
    output: &mut W,
    faults: &mut Option<F>,
) -> bool
    requires { talk.old.start ≤ length talk.old.bytes.items }
    ensures empty { talk.new.bytes.items ≡ [] }
    ensures start { talk.new.start ≡ 0 }
    ensures told { TellsFaults (bodies_of rules.now.shell) F.contents faults.old faults.new }
    ensures answers { AnsweredOrCut (rules_of rules.now) (session_of talk.old)
        (block_items (take talk.old.start talk.old.bytes.items) ++ Dot (drop talk.old.start talk.old.bytes.items) ∷ [])
        (W.contents output.old) (W.contents output.new) talk.old.written talk.new.written (session_of talk.new) result }
{
    let asked = asked_by_line(&talk.bytes[talk.start..]);
    talk.bytes.truncate(talk.start);
    talk.start = 0;
    answer_block(talk, rules, output, faults)
        && answer(
            talk.alloc,
            &mut talk.session,
            &mut talk.names,
            asked,
            rules,
            output,
            &mut talk.written,
        )
}

/// Answers the block that waits, if it has bytes.
fn answer_block<W: Write, F: Write>(
    talk: &mut Talk,
    rules: &RunRules<'_>,
    output: &mut W,
    faults: &mut Option<F>,
) -> bool
    ensures empty { talk.new.bytes.items ≡ [] }
    ensures start { talk.new.start ≡ talk.old.start }
    ensures told { TellsFaults (bodies_of rules.now.shell) F.contents faults.old faults.new }
    ensures answers { AnsweredOrCut (rules_of rules.now) (session_of talk.old) (block_items talk.old.bytes.items)
        (W.contents output.old) (W.contents output.new) talk.old.written talk.new.written (session_of talk.new) result }
{
    if talk.bytes.is_empty() {
        return true;
    }
    let bodies = bodies_of(rules.shell);
    tell_fault(talk.alloc, bodies, &talk.bytes, faults);
    let block = mem::replace(&mut talk.bytes, Vec::new(talk.alloc));
    answer(
        talk.alloc,
        &mut talk.session,
        &mut talk.names,
        asked_by_block(talk.alloc, bodies, block),
        rules,
        output,
        &mut talk.written,
    )
}

/// Handles a piece of the input.
pub(crate) fn handle_piece<W: Write, F: Write>(
    talk: &mut Talk,
    rules: &RunRules<'_>,
    output: &mut W,
    faults: &mut Option<F>,
    piece: &[u8],
) -> Result<(), Stop>
    requires { IsPending talk.old.bytes.items talk.old.start }
    ensures told { TellsFaults (bodies_of rules.now.shell) F.contents faults.old faults.new }
    ensures handles { HandlesPiece (rules_of rules.now) piece.now talk.old talk.new
        (W.contents output.old) (W.contents output.new) result }
{
    for byte in piece {
        match handle_byte(talk, rules, output, faults, *byte) {
            Ok(()) => {}
            Err(stop) => return Err(stop),
        }
    }
    Ok(())
}

/// Handles one byte of the input.
fn handle_byte<W: Write, F: Write>(
    talk: &mut Talk,
    rules: &RunRules<'_>,
    output: &mut W,
    faults: &mut Option<F>,
    byte: u8,
) -> Result<(), Stop>
    requires { IsPending talk.old.bytes.items talk.old.start }
    ensures told { TellsFaults (bodies_of rules.now.shell) F.contents faults.old faults.new }
    ensures handles { HandlesByte (rules_of rules.now) byte talk.old talk.new
        (W.contents output.old) (W.contents output.new) result }
{
    match talk.bytes.push(byte) {
        Err(_) => Err(Stop::Memory),
        Ok(()) => {
            if byte != b'\n' {
                Ok(())
            } else if handle_line(talk, rules, output, faults) {
                Ok(())
            } else {
                Err(Stop::Write)
            }
        }
    }
}

/// Handles a whole line.
fn handle_line<W: Write, F: Write>(
    talk: &mut Talk,
    rules: &RunRules<'_>,
    output: &mut W,
    faults: &mut Option<F>,
) -> bool
    requires { IsLine talk.old.bytes.items talk.old.start }
    ensures told { TellsFaults (bodies_of rules.now.shell) F.contents faults.old faults.new }
    ensures handles { HandlesLine (rules_of rules.now) talk.old talk.new
        (W.contents output.old) (W.contents output.new) result }
{
    if talk.bytes[talk.start] == b'.' {
        answer_dot(talk, rules, output, faults)
    } else {
        talk.start = talk.bytes.len();
        true
    }
}
