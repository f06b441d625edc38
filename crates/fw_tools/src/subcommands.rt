//! The subcommands over the files that the arguments name.
ghost use Rattle.std.specs.Prelude.{◌≡◌, IfErr, IfOk, MatchResult, None, Some, if◌then◌else◌, is_some, option_map, true};
ghost use Rattle.device_files.specs.Record.{calls_in};
ghost use Rattle.envimg_core.specs.declared.choice.Choice.TheVariants.{Second};
ghost use Rattle.fw_arguments.specs.Calls.{call_view, job_view, keeps_lock, locks_view, task_view};
ghost use Rattle.fw_files.specs.Locks.{HasWaited};
ghost use Rattle.fw_files.specs.Opening.{AreCopiesIn, AreWantedIn};
ghost use Rattle.fw_files.specs.Source.{kept_view};
ghost use Rattle.fw_tools.specs.CheckRuns.{environment_text};
ghost use Rattle.fw_tools.specs.Closing.{Closes};
ghost use Rattle.fw_tools.specs.NoSession.{IsCopiesStop, IsDeviceStop, IsReadStop};
ghost use Rattle.fw_tools.specs.Said.{AreSame};
ghost use Rattle.fw_tools.specs.Subcommands.{DoesJob, HaltsCall, HaltsJob, UsesSession, UsesTool, hold_for, is_left, keeps_locks};

use crate::boot_work::boot_given;
use crate::check_work::{check_session, environment_text};
use crate::closing::write_back;
use crate::explains::Explains;
use crate::halt::Halt;
use crate::script_work::run_given;
use crate::session_run::talk;
use crate::task_work::act;
use crate::tool_messages::report;
use device_files::{OpenDevice, Start};
use env_session::Session;
use envimg_core::Choice;
use fw_arguments::{Call, Job, Task};
use fw_engines::ToolEnd;
use fw_engines::streams::say;
use fw_files::{
    Hold, Locks, Opened, Source, Stop, System, erased, lock_copies, open, read_config, read_source,
    wanted_copies, warning_of,
};
use std::io::{Read, Write};

/// Opens the session, lets the subcommand work on it, and answers the exit status.
pub(crate) fn use_files<'w, X: System + AllocGlobal, D: Start, R: Read, W: Write, E: Write>(
    rt: &X,
    call: &Call<'_, 'w>,
    devices: &mut Option<OpenDevice<X::File, D>>,
    input: &mut R,
    output: &mut W,
    errors: &mut E,
) -> Result<u8, Halt<'w>>
    ensures { MatchResult result (UsesSession (X.holds rt.now) (call_view call.now)
        (record { start = D.contents; before = option_map (λ d. calls_in d.calls) devices.old; after = option_map (λ d. calls_in d.calls) devices.new })
        (record { input = R.remaining input.old; output = W.contents output.old; errors = E.contents errors.old })
        (record { input = R.remaining input.new; output = W.contents output.new; errors = E.contents errors.new }))
        (λ halt. HaltsCall (X.holds rt.now) (call_view call.now) halt
        (record { start = D.contents; before = option_map (λ d. calls_in d.calls) devices.old; after = option_map (λ d. calls_in d.calls) devices.new })
        (record { input = R.remaining input.old; output = W.contents output.old; errors = E.contents errors.old })
        (record { input = R.remaining input.new; output = W.contents output.new; errors = E.contents errors.new })) }
{
    let (source, _locks) = copies_for(rt, call, errors)?;
    let opened = open(rt, &source, &call.defaults, call.spares())?;
    say(
        errors,
        warning_of(call.defaults.whole, opened.session.current()),
    );
    work(rt, &source, opened, call, devices, input, output, errors)
}

/// The copies for a subcommand, of which it may want one, and the locks under which it works on them, if it has any.
fn copies_for<'w, X: System + AllocGlobal, E: Write>(
    rt: &X,
    call: &Call<'_, 'w>,
    errors: &mut E,
) -> Result<(Source, Option<Locks<X::File>>), Stop<'w>>
    ensures waited { HasWaited (E.contents errors.old) (E.contents errors.new) }
    ensures locks { IfOk result (λ found. is_some found.1 ≡ keeps_locks call.now.image (job_view call.now.job)) }
    ensures found { IfOk result (λ found. AreWantedIn (X.holds rt.now) call.now.config.now call.now.image call.now.order call.now.copy found.0) }
    ensures stopped { IfErr result (IsCopiesStop (X.holds rt.now) (call_view call.now)) }
{
    let (read, locks) = copies_in(rt, call, errors)?;
    let source = wanted_copies(rt.alloc(), read, call.copy)?;
    Ok((source, locks))
}

/// The copies as they were read.
fn copies_in<'w, X: System + AllocGlobal, E: Write>(
    rt: &X,
    call: &Call<'_, 'w>,
    errors: &mut E,
) -> Result<(Source, Option<Locks<X::File>>), Stop<'w>>
    ensures waited { HasWaited (E.contents errors.old) (E.contents errors.new) }
    ensures locks { IfOk result (λ found. is_some found.1 ≡ keeps_locks call.now.image (job_view call.now.job)) }
    ensures found { IfOk result (λ found. AreCopiesIn (X.holds rt.now) call.now.config.now call.now.image call.now.order found.0) }
    ensures stopped { IfErr result
        (IsReadStop (X.holds rt.now) call.now.config.now call.now.image (locks_view call.now.locks)) }
{
    match call.image {
        None => copies_in_devices(rt, call, errors),
        Some(size) => {
            let source = erased(rt.alloc(), call.order, size)?;
            Ok((source, None))
        }
    }
}

/// The same for the copies that the configuration names.
fn copies_in_devices<'w, X: System + AllocGlobal, E: Write>(
    rt: &X,
    call: &Call<'_, 'w>,
    errors: &mut E,
) -> Result<(Source, Option<Locks<X::File>>), Stop<'w>>
    ensures waited { HasWaited (E.contents errors.old) (E.contents errors.new) }
    ensures locks { IfOk result (λ found. is_some found.1 ≡ keeps_lock (job_view call.now.job)) }
    ensures found { IfOk result (λ found. AreCopiesIn (X.holds rt.now) call.now.config.now None call.now.order found.0) }
    ensures stopped { IfErr result
        (IsDeviceStop (X.holds rt.now) call.now.config.now (locks_view call.now.locks)) }
{
    let config = read_config(rt, call.config)?;
    let hold = hold_for(&call.job);
    let locks = lock_copies(rt, &config.first, call.locks, hold, errors)?;
    let source = read_source(rt, call.order, config)?;
    Ok((source, locks_for_work(locks, &call.job)))
}

/// How the device of the first copy and lock files are locked while the copies are read: exclusively by a job that writes
/// them back.
fn hold_for(job: &Job<'_, '_>) -> Hold
    ensures { result ≡ hold_for (job_view job.now) }
{
    if job.writes() {
        Hold::Alone
    } else {
        Hold::Shared
    }
}

/// The locks under which a job works, if it writes what it read: the other jobs release them here. A dry run takes them
/// again to write.
fn locks_for_work<L: Drop>(locks: L, job: &Job<'_, '_>) -> Option<L>
    ensures { result ≡ (if keeps_lock (job_view job.now) then Some locks else None) }
{
    if job.keeps_lock() { Some(locks) } else { None }
}

/// Works on a session, and leaves it.
fn work<'w, X: System + AllocGlobal, D: Start, R: Read, W: Write, E: Write>(
    rt: &X,
    source: &Source,
    opened: Opened,
    call: &Call<'_, 'w>,
    devices: &mut Option<OpenDevice<X::File, D>>,
    input: &mut R,
    output: &mut W,
    errors: &mut E,
) -> Result<u8, Halt<'w>>
    ensures { MatchResult result
        (DoesJob (X.holds rt.now) call.now.only_changes (environment_text (call_view call.now) (kept_view opened.text))
        (call_view call.now).job source.now opened.session
        (record { start = D.contents; before = option_map (λ d. calls_in d.calls) devices.old; after = option_map (λ d. calls_in d.calls) devices.new })
        (record { input = R.remaining input.old; output = W.contents output.old; errors = E.contents errors.old })
        (record { input = R.remaining input.new; output = W.contents output.new; errors = E.contents errors.new }))
        (λ halt. HaltsJob (X.holds rt.now) (call_view call.now).job halt
        (record { start = D.contents; before = option_map (λ d. calls_in d.calls) devices.old; after = option_map (λ d. calls_in d.calls) devices.new })
        (record { input = R.remaining input.old; output = W.contents output.old; errors = E.contents errors.old })
        (record { input = R.remaining input.new; output = W.contents output.new; errors = E.contents errors.new })) }
{
    let Opened { session, text } = opened;
    match &call.job {
        Job::Tool(task) => {
            drop(text);
            let explains = Explains::by(call);
            use_tool(
                rt,
                source,
                session,
                call.only_changes,
                *task,
                explains,
                devices,
                output,
                errors,
            )
        }
        Job::DryRun(run) => {
            drop(text);
            talk(
                rt, source, session, run, call.locks, devices, input, output, errors,
            )
        }
        Job::Script(run) => {
            drop(text);
            run_given(rt, source, session, run, devices, output, errors)
        }
        Job::Boot(power_ons) => {
            drop(text);
            boot_given(rt, &session, power_ons, output, errors)
        }
        Job::Check(check) => {
            let text = environment_text(call.image, call.defaults.path, &text);
            check_session(rt, &session, text, check, output, errors)
        }
    }
}

/// Lets a tool work on the session, and writes it back.
fn use_tool<'w, X: System + AllocGlobal, D: Start, W: Write, E: Write>(
    rt: &X,
    source: &Source,
    opened: Session,
    only_changes: bool,
    task: Task<'_, 'w>,
    explains: Explains,
    devices: &mut Option<OpenDevice<X::File, D>>,
    output: &mut W,
    errors: &mut E,
) -> Result<u8, Halt<'w>>
    ensures { MatchResult result (UsesTool (X.holds rt.now) only_changes (task_view task.entry) source.now opened
        (record { start = D.contents; before = option_map (λ d. calls_in d.calls) devices.old; after = option_map (λ d. calls_in d.calls) devices.new })
        (record { output = W.contents output.old; errors = E.contents errors.old })
        (record { output = W.contents output.new; errors = E.contents errors.new }))
        (λ _. AreSame (record { output = W.contents output.old; errors = E.contents errors.old })
        (record { output = W.contents output.new; errors = E.contents errors.new }) × (devices.new ≡ devices.old)) }
{
    let mut session = opened;
    let current = session.current();
    let end = act(rt, task, &mut session, output, errors)?;
    let touched = session.touched();
    if is_left(task.changes(), only_changes, current, touched) {
        return Ok(report(end, errors));
    }
    Ok(finish(rt, source, session, end, explains, devices, errors))
}

/// Whether the copies are left as they are, and not compared with what was read: by what changes nothing (`changes`), and,
/// if only changes are saved, where no name was changed (`touched` counts them) and one of the copies was good at the start
/// (`current`).
fn is_left(changes: bool, only_changes: bool, current: Choice, touched: usize) -> bool
    ensures { result ≡ is_left changes only_changes current touched }
{
    if !changes {
        return true;
    }
    match current {
        Choice::Neither => false,
        _ => only_changes && touched == 0,
    }
}

/// Writes the copies back that the subcommand changed, and reports what stopped it, if anything did.
fn finish<X: System + AllocGlobal, D: Start, E: Write>(
    rt: &X,
    source: &Source,
    session: Session,
    end: ToolEnd,
    explains: Explains,
    devices: &mut Option<OpenDevice<X::File, D>>,
    errors: &mut E,
) -> u8
    ensures { Closes true Second source.now session end
        (record { start = D.contents; before = option_map (λ d. calls_in d.calls) devices.old; after = option_map (λ d. calls_in d.calls) devices.new })
        (E.contents errors.old) (E.contents errors.new) result }
{
    let stored = session.close();
    match write_back(
        rt,
        source,
        Choice::Second,
        &stored,
        explains,
        devices,
        errors,
    ) {
        None => 1,
        Some(()) => report(end, errors),
    }
}
