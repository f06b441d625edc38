//! `session`: a dry run over standard input and output.
ghost use Rattle.std.specs.Prelude.{◌≡◌, ℕ, List, IfSome, MatchOption, MatchResult, Option, option_map};
ghost use Rattle.device_files.specs.Record.{calls_in};
ghost use Rattle.env_session.specs.Session.{bytes_of};
ghost use Rattle.envimg_core.specs.declared.choice.Choice.TheVariants.{Second};
ghost use Rattle.hush_commands.specs.Hardware.{hardware};
ghost use Rattle.hush_run.specs.Runs.{rules_in};
ghost use Rattle.fw_session.specs.Ends.{Ends};
ghost use Rattle.fw_session.specs.NamedSessions.{named_session, unnamed};
ghost use Rattle.fw_arguments.specs.DryRuns.{dry_run_view};
ghost use Rattle.fw_tools.specs.Said.{AreSame, SaysSome};
ghost use Rattle.fw_files.specs.WrittenBack.{AreWritten, LeavesAtAnyMoment};
ghost use Rattle.fw_tools.specs.SessionRun.{ClosesDryRun, Reports, TriesOver, WaitsAndWarns, is_kept, text_for};

use crate::closing::write_back;
use crate::explains::Explains;
use crate::halt::Halt;
use crate::halt_lines::say_halt;
use crate::hardware::{GivenHardware, read_hardware};
use crate::tool_messages::message_of;
use device_files::{OpenDevice, Start};
use env_requests::RunRules;
use env_session::{Session, Stored};
use envimg_core::Choice;
use fw_arguments::{DryRun, LockFiles};
use fw_engines::StreamFault;
use fw_engines::streams::say;
use fw_files::{Hold, Source, System, lock_copies};
use fw_session::{SessionEnd, SessionEnding, session_in};
use std::io::{Read, Write};

/// Standard error if the input of a session is longer than it may be.
const TOO_LONG: &[u8] = b"fwenv: input too long\n";

/// Answers the blocks and dot lines of `input` over a session, and leaves it.
pub(crate) fn talk<'w, X: System + AllocGlobal, D: Start, R: Read, W: Write, E: Write>(
    rt: &X,
    source: &Source,
    opened: Session,
    run: &DryRun<'_, 'w>,
    locks: LockFiles<'_>,
    devices: &mut Option<OpenDevice<X::File, D>>,
    input: &mut R,
    output: &mut W,
    errors: &mut E,
) -> Result<u8, Halt<'w>>
    ensures { MatchResult result (TriesOver (X.holds rt.now) (dry_run_view run.now) source.now opened
        (record { start = D.contents; before = option_map (λ d. calls_in d.calls) devices.old; after = option_map (λ d. calls_in d.calls) devices.new })
        (record { input = R.remaining input.old; output = W.contents output.old; errors = E.contents errors.old })
        (record { input = R.remaining input.new; output = W.contents output.new; errors = E.contents errors.new }))
        (λ _. (R.remaining input.new ≡ R.remaining input.old)
        × AreSame (record { output = W.contents output.old; errors = E.contents errors.old })
        (record { output = W.contents output.new; errors = E.contents errors.new }) × (devices.new ≡ devices.old)) }
{
    let given = read_hardware(rt, run, false)?;
    let end = answer(rt, opened, run, &given, input, output);
    Ok(leave(rt, source, run.write, locks, end, devices, errors))
}

/// Answers the blocks and dot lines of `input` over a session, with this hardware. Somebody who types them is told where
/// and why a block isn't a script.
fn answer<X: System + AllocGlobal, R: Read, W: Write>(
    rt: &X,
    opened: Session,
    run: &DryRun<'_, '_>,
    given: &GivenHardware,
    input: &mut R,
    output: &mut W,
) -> SessionEnd
    ensures { (names : List (Option (List ℕ))) × Ends result.ending
        (rules_in run.now.shell (hardware given.now.board given.now.stand_ins) run.now.limits) (unnamed opened)
        (R.remaining input.old) (R.remaining input.new) (W.contents output.old) (W.contents output.new) result.read
        result.written (named_session result.session names) }
{
    let rules = RunRules {
        shell: run.shell,
        stand_ins: &given.stand_ins,
        board: &given.board,
        limits: &run.limits,
    };
    session_in(rt.alloc(), opened, &rules, input, output, &mut rt.screen())
}

/// Writes the copies back if that was asked for and the whole input was handled, reports what stopped the session
/// before, if anything did, and answers the exit status.
fn leave<X: System + AllocGlobal, D: Start, E: Write>(
    rt: &X,
    source: &Source,
    write: bool,
    locks: LockFiles<'_>,
    end: SessionEnd,
    devices: &mut Option<OpenDevice<X::File, D>>,
    errors: &mut E,
) -> u8
    ensures { ClosesDryRun (is_kept write end.ending) end.ending source.now end.session
        (record { start = D.contents; before = option_map (λ d. calls_in d.calls) devices.old; after = option_map (λ d. calls_in d.calls) devices.new })
        (E.contents errors.old) (E.contents errors.new) result }
{
    let ending = end.ending;
    if !is_kept(write, ending) {
        return report_ending(ending, errors);
    }
    match write_locked(rt, source, locks, &end.session.close(), devices, errors) {
        None => 1,
        Some(()) => report_ending(ending, errors),
    }
}

/// Writes the copies back under their locks. A fault is reported on `errors`.
fn write_locked<X: System + AllocGlobal, D: Start, E: Write>(
    rt: &X,
    source: &Source,
    locks: LockFiles<'_>,
    stored: &Stored,
    devices: &mut Option<OpenDevice<X::File, D>>,
    errors: &mut E,
) -> Option<()>
    ensures said { MatchOption result (SaysSome (E.contents errors.old) (E.contents errors.new))
        (λ _. WaitsAndWarns (E.contents errors.old) (E.contents errors.new)) }
    ensures written { IfSome result (λ _. AreWritten D.contents source.now stored.now.first.items (bytes_of stored.now.second)
        (option_map (λ d. calls_in d.calls) devices.new)) }
    ensures any_moment { LeavesAtAnyMoment D.contents Second source.now stored.now.first.items (bytes_of stored.now.second)
        (option_map (λ d. calls_in d.calls) devices.new) }
{
    *devices = None;
    match lock_copies(rt, &source.config.first, locks, Hold::Alone, errors) {
        Err(stop) => {
            let halt = Halt::Files(stop);
            say_halt(errors, Explains::Nothing, &halt);
            None
        }
        Ok(_locks) => write_back(
            rt,
            source,
            Choice::Second,
            stored,
            Explains::Nothing,
            devices,
            errors,
        ),
    }
}

/// Whether the copies are written back.
fn is_kept(write: bool, ending: SessionEnding) -> bool
    ensures { result ≡ is_kept write ending }
{
    match ending {
        SessionEnding::Done => write,
        _ => false,
    }
}

/// Prints on `errors` what stopped a session before the end of its input, if anything did, and answers the exit status.
fn report_ending<E: Write>(ending: SessionEnding, errors: &mut E) -> u8
    ensures { Reports (text_for ending) (E.contents errors.old) (E.contents errors.new) result }
{
    match text_for(ending) {
        None => 0,
        Some(text) => {
            say(errors, text);
            1
        }
    }
}

/// What is printed at an ending.
fn text_for(ending: SessionEnding) -> Option<&'static [u8]>
    ensures { option_map (λ text. text.now) result ≡ text_for ending }
{
    match ending {
        SessionEnding::Done => None,
        SessionEnding::ReadFault => Some(message_of(StreamFault::Read)),
        SessionEnding::TooLong => Some(TOO_LONG),
        SessionEnding::WriteFault => Some(message_of(StreamFault::Write)),
        SessionEnding::Memory => Some(message_of(StreamFault::Memory)),
    }
}
