//! `run`: a script is run over a session for its own status.
ghost use Rattle.std.specs.Prelude.{◌≡◌, MatchResult, is_some, option_map};
ghost use Rattle.device_files.specs.Record.{calls_in};
ghost use Rattle.hush_syntax.specs.Scripts.{tree_of};
ghost use Rattle.hush_commands.specs.Hardware.{hardware};
ghost use Rattle.fw_arguments.specs.DryRuns.{script_run_view};
ghost use Rattle.fw_tools.specs.Closing.{Closes};
ghost use Rattle.fw_tools.specs.Said.{AreSame};
ghost use Rattle.fw_tools.specs.ScriptRuns.{HaltsRun, IsScriptFor, RunsOver, RunsTree, is_kept};

use crate::closing::write_back;
use crate::explains::Explains;
use crate::halt::Halt;
use crate::hardware::{GivenHardware, read_hardware};
use crate::script_source::{name_of_script, read_script, script_in};
use crate::tool_messages::report;
use device_files::{OpenDevice, Start};
use env_requests::RunRules;
use env_session::Session;
use envimg_core::Choice;
use fw_arguments::ScriptRun;
use fw_files::{Source, System};
use fw_session::{RunEnd, run};
use hush_run::{Ending, bodies_of};
use hush_syntax::Script;
use std::io::Write;

/// Runs the script that is asked for over a session, and leaves the session.
pub(crate) fn run_given<'w, X: System + AllocGlobal, D: Start, W: Write, E: Write>(
    rt: &X,
    source: &Source,
    opened: Session,
    asked: &ScriptRun<'_, 'w>,
    devices: &mut Option<OpenDevice<X::File, D>>,
    output: &mut W,
    errors: &mut E,
) -> Result<u8, Halt<'w>>
    ensures { MatchResult result (RunsOver (X.holds rt.now) (script_run_view asked.now) source.now opened
        (record { start = D.contents; before = option_map (λ d. calls_in d.calls) devices.old; after = option_map (λ d. calls_in d.calls) devices.new })
        (record { output = W.contents output.old; errors = E.contents errors.old })
        (record { output = W.contents output.new; errors = E.contents errors.new }))
        (λ halt. HaltsRun (X.holds rt.now) (script_run_view asked.now) halt
        × AreSame (record { output = W.contents output.old; errors = E.contents errors.old })
        (record { output = W.contents output.new; errors = E.contents errors.new }) × (devices.new ≡ devices.old)) }
{
    let hardware = read_hardware(rt, &asked.dry, false)?;
    let script = script_of(rt, asked)?;
    Ok(run_script(
        rt, source, opened, asked, &hardware, &script, devices, output, errors,
    ))
}

/// The script that is asked for.
fn script_of<'w, X: System + AllocGlobal>(
    rt: &X,
    asked: &ScriptRun<'_, 'w>,
) -> Result<Script, Halt<'w>>
    ensures { MatchResult result (λ script. IsScriptFor (X.holds rt.now) (script_run_view asked.now) (tree_of script))
        (HaltsRun (X.holds rt.now) (script_run_view asked.now)) }
{
    let text = read_script(rt, &asked.script)?;
    let bodies = bodies_of(asked.dry.shell);
    script_in(rt.alloc(), bodies, name_of_script(&asked.script), text)
}

/// Runs a script over a session, and leaves the session.
fn run_script<X: System + AllocGlobal, D: Start, W: Write, E: Write>(
    rt: &X,
    source: &Source,
    opened: Session,
    asked: &ScriptRun<'_, '_>,
    given: &GivenHardware,
    script: &Script,
    devices: &mut Option<OpenDevice<X::File, D>>,
    output: &mut W,
    errors: &mut E,
) -> u8
    ensures { RunsTree (script_run_view asked.now) (hardware given.now.board given.now.stand_ins) (tree_of script.now) source.now opened
        (record { start = D.contents; before = option_map (λ d. calls_in d.calls) devices.old; after = option_map (λ d. calls_in d.calls) devices.new })
        (record { output = W.contents output.old; errors = E.contents errors.old })
        (record { output = W.contents output.new; errors = E.contents errors.new }) result }
{
    let mut session = opened;
    let current = session.current();
    let rules = RunRules {
        shell: asked.dry.shell,
        stand_ins: &given.stand_ins,
        board: &given.board,
        limits: &asked.dry.limits,
    };
    let ended = run(
        rt.alloc(),
        &mut session,
        script,
        &rules,
        asked.must_boot,
        traced_name(asked),
        output,
        errors,
    );
    leave(
        rt,
        source,
        asked.dry.write,
        current,
        session,
        ended,
        devices,
        errors,
    )
}

/// The name of the script, if the commands that are run are wanted.
fn traced_name<'a>(asked: &'a ScriptRun<'_, '_>) -> Option<&'a [u8]>
    ensures { is_some result ≡ (script_run_view asked.now).trace }
{
    if asked.trace {
        Some(name_of_script(&asked.script).as_bytes())
    } else {
        None
    }
}

/// Writes the copies that the script saved back if that was asked for, whatever its status, and answers the exit status.
fn leave<X: System + AllocGlobal, D: Start, E: Write>(
    rt: &X,
    source: &Source,
    write: bool,
    current: Choice,
    session: Session,
    ended: RunEnd,
    devices: &mut Option<OpenDevice<X::File, D>>,
    errors: &mut E,
) -> u8
    ensures { Closes (is_kept write ended) current source.now session ended.end
        (record { start = D.contents; before = option_map (λ d. calls_in d.calls) devices.old; after = option_map (λ d. calls_in d.calls) devices.new })
        (E.contents errors.old) (E.contents errors.new) result }
{
    if !is_kept(write, ended) {
        return report(ended.end, errors);
    }
    match write_back(
        rt,
        source,
        current,
        &session.close(),
        Explains::Reason,
        devices,
        errors,
    ) {
        None => 1,
        Some(()) => report(ended.end, errors),
    }
}

/// Whether the copies are written back: not if memory ran out, or what was printed couldn't be written.
fn is_kept(write: bool, ended: RunEnd) -> bool
    ensures { result ≡ is_kept write ended }
{
    match ended.ending {
        Ending::Memory => false,
        _ => write && ended.end.fault.is_none(),
    }
}
