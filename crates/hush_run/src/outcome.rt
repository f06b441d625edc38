//! Runs a script without recursion: a loop over its steps, with one stack of frames and one list of scripts, both of
//! them in room that is taken at the start.
ghost use Rattle.std.specs.Prelude.{◌≡◌, ◌≤◌};
ghost use Rattle.hush_syntax.specs.Scripts.{tree_of};
ghost use Rattle.run_limits.specs.Limits.{most_depth};
ghost use Rattle.hush_run.specs.Advances.{Ran};
ghost use Rattle.hush_commands.specs.Hardware.{hardware};
ghost use Rattle.hush_run.specs.Runs.{rules, rules_in, Departs, EndsIn, Runs, reason_of};
ghost use Rattle.hush_run.specs.Steps.{state_of, rules_of};

use crate::due::{Due, advance};
use crate::ending::Ending;
use crate::frames::{Calls, Frames};
use crate::progress::{Given, Progress};
use crate::started_name::{StartedName, running_name};
use crate::trace::Trace;
use env_session::Session;
use hush_commands::{BoardRules, Departure, Shell, Stubs};
use hush_syntax::Script;
use run_limits::Limits;
use std::alloc::Global;

/// The outcome of a run.
#[derive(Debug, Drop)]
pub struct Outcome {
    /// How it ended.
    pub ending: Ending,
    /// The status that it left.
    pub status: u8,
    /// How many steps were counted, at most the limit.
    pub steps: u32,
    /// What it printed, at most as many bytes as the limit.
    pub text: Vec<u8>,
}

/// A run's course.
#[derive(Drop)]
pub struct Course {
    /// Its outcome.
    pub outcome: Outcome,
    /// The variable in whose text it ended: `None` if that was in the script itself.
    pub place: Option<StartedName>,
    /// The call with which it left the board: `None` if it didn't.
    pub departure: Option<Departure>,
}

/// Runs a script over a session under limits: what docs/runs.md, "Meaning", gives for it, whatever the session holds.
///
/// A run begins with status 0 and no local variables; it makes no mark and removes none. If a growth is refused it
/// ends as `Memory`, and what is left is what a run with the limit of the counted steps leaves. It doesn't recurse: the
/// room for frames and scripts is taken at the start.
pub fn run(
    alloc: Global,
    session: &mut Session,
    script: &Script,
    stand_ins: &Stubs,
    limits: &Limits,
) -> Outcome
    ensures { Runs (rules stand_ins.now limits.now) (tree_of script.now) session.old session.new result }
{
    let (outcome, _place) = run_with_place(alloc, session, script, stand_ins, limits);
    outcome
}

/// The same, and the variable in whose text the run ended: `None` if that was in the script itself.
pub fn run_with_place(
    alloc: Global,
    session: &mut Session,
    script: &Script,
    stand_ins: &Stubs,
    limits: &Limits,
) -> (Outcome, Option<StartedName>)
    ensures runs { Runs (rules stand_ins.now limits.now) (tree_of script.now) session.old session.new
        result.0 }
    ensures place { EndsIn (rules stand_ins.now limits.now) (tree_of script.now) session.old result.0
        result.1 }
{
    let board = BoardRules::none(alloc);
    let Course {
        outcome,
        place,
        departure: _,
    } = run_in(
        Shell::Strict,
        alloc,
        session,
        script,
        stand_ins,
        &board,
        limits,
    );
    (outcome, place)
}

/// The course of a run by the rules of a shell, and with what a board answers.
pub fn run_in(
    shell: Shell,
    alloc: Global,
    session: &mut Session,
    script: &Script,
    stand_ins: &Stubs,
    board: &BoardRules,
    limits: &Limits,
) -> Course
    ensures runs { Runs (rules_in shell (hardware board.now stand_ins.now) limits.now) (tree_of script.now)
        session.old session.new result.outcome }
    ensures place { EndsIn (rules_in shell (hardware board.now stand_ins.now) limits.now) (tree_of script.now)
        session.old result.outcome result.place }
    ensures departure { Departs (rules_in shell (hardware board.now stand_ins.now) limits.now) (tree_of script.now)
        session.old result.outcome result.departure }
{
    let given = Given {
        alloc,
        shell,
        stand_ins,
        board,
        limits: *limits,
    };
    let (course, _trace) = run_by(&given, session, script, Trace::none(alloc));
    course
}

/// The same, and the commands that the run does as a text of at most as many bytes as it may print itself, in which the
/// script has this name. That changes nothing of the run.
pub fn run_traced(
    shell: Shell,
    alloc: Global,
    session: &mut Session,
    script: &Script,
    stand_ins: &Stubs,
    board: &BoardRules,
    limits: &Limits,
    name: &[u8],
) -> (Course, Trace)
    ensures runs { Runs (rules_in shell (hardware board.now stand_ins.now) limits.now) (tree_of script.now)
        session.old session.new result.0.outcome }
    ensures place { EndsIn (rules_in shell (hardware board.now stand_ins.now) limits.now) (tree_of script.now)
        session.old result.0.outcome result.0.place }
    ensures departure { Departs (rules_in shell (hardware board.now stand_ins.now) limits.now) (tree_of script.now)
        session.old result.0.outcome result.0.departure }
{
    let given = Given {
        alloc,
        shell,
        stand_ins,
        board,
        limits: *limits,
    };
    let trace = Trace::of(alloc, name, limits.output());
    run_by(&given, session, script, trace)
}

/// The course of a run with what it is given, and its trace.
fn run_by(
    given: &Given<'_>,
    session: &mut Session,
    script: &Script,
    trace: Trace,
) -> (Course, Trace)
    ensures runs { Runs (rules_of given.now) (tree_of script.now) session.old session.new result.0.outcome }
    ensures place { EndsIn (rules_of given.now) (tree_of script.now) session.old result.0.outcome result.0.place }
    ensures departure { Departs (rules_of given.now) (tree_of script.now) session.old result.0.outcome
        result.0.departure }
{
    // Does nothing: it tells the prover that the depth is at most MOST_DEPTH.
    let _depth = given.limits.depth();
    let mut progress = Progress::new(given, trace);
    let (ending, place) = run_script(given, session, &mut progress, script);
    let Progress {
        locals: _,
        status,
        output,
        steps,
        departure,
        fields: _,
        name: _,
        trace,
    } = progress;
    let outcome = Outcome {
        ending,
        status,
        steps,
        text: output.into_text(),
    };
    let course = Course {
        outcome,
        place,
        departure,
    };
    (course, trace)
}

/// Runs a script from where the session and the progress are: how it ended, and in which variable's text.
pub(crate) fn run_script(
    given: &Given<'_>,
    session: &mut Session,
    progress: &mut Progress,
    script: &Script,
) -> (Ending, Option<StartedName>)
    requires depth { given.now.limits.depth ≤ most_depth }
    requires steps { progress.old.steps ≤ given.now.limits.steps }
    ensures { Ran (rules_of given.now) (tree_of script.now) (state_of session.old progress.old)
        (state_of session.new progress.new) result.1 (reason_of result.0) }
{
    let Ok(mut frames) = Frames::new(given.alloc, given.limits.depth()) else {
        return (Ending::Memory, None);
    };
    let Ok(mut calls) = Calls::new(given.alloc, script) else {
        return (Ending::Memory, None);
    };
    let mut due = match script.root() {
        Some(root) => Due::Node(root),
        None => Due::Over,
    };
    loop {
        match advance(given, session, progress, &mut calls, &mut frames, due) {
            Ok(next) => due = next,
            Err(ending) => return (ending, running_name(&mut frames)),
        }
    }
}
