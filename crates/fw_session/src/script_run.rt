//! A script that is run over a session for its own status.
ghost use Rattle.std.specs.Prelude.{◌≡◌, ℕ, List, [], get_or, is_some, MatchBool};
ghost use Rattle.env_requests.specs.Views.{rules_of};
ghost use Rattle.hush_syntax.specs.Scripts.{tree_of};
ghost use Rattle.fw_session.specs.ScriptRun.{SaysTrace, TracesScript, course_texts, ended_by_itself, ended_by_limit, ended_so, has_booted, is_well, no_boot, reset_line};
ghost use Rattle.hush_run.specs.Runs.{Departs, EndsIn, Runs, ending_name};
ghost use Rattle.fw_engines.specs.Streams.{AppendsFront, AppendsPart};
ghost use Rattle.std.specs.Io.KnownBytes.{Appends};
ghost use Rattle.fw_engines.specs.Tool.{Prints};

use env_requests::RunRules;
use env_session::Session;
use fw_engines::streams::{write_parts, write_text, write_two};
use fw_engines::{OUT_OF_MEMORY, StreamFault, ToolEnd};
use hush_commands::FieldQueue;
use hush_run::{
    Course, Departure, Ending, Leaving, Outcome, StartedName, Trace, run_in, run_traced,
};
use hush_syntax::Script;
use itoa::Buffer;
use std::alloc::Global;
use std::io::Write;

/// What is printed behind the commands of a run that aren't all of them.
const TRACE_ENDS: &[u8] = b"fwenv: the trace ends here\n";

/// How the run of a script ended, and what was printed of it.
#[derive(Clone, Copy, Debug, PartialEq, Eq)]
pub struct RunEnd {
    /// How the script ended.
    pub ending: Ending,
    /// How what was printed of it ended.
    pub end: ToolEnd,
}

/// Runs a script over a session by these rules, and prints its text on `output`. The status is 0 if it reached its end or
/// an `exit` with status 0, and booted if it had to; else 1, and then `errors` gets a line on how it ended. Before that,
/// and before the run's text, `errors` gets the commands that were run, if the script has a name by which they are wanted.
/// docs/dry-runs.md has the texts.
pub fn run<W: Write, E: Write>(
    alloc: Global,
    session: &mut Session,
    script: &Script,
    rules: &RunRules<'_>,
    must_boot: bool,
    traced: Option<&[u8]>,
    output: &mut W,
    errors: &mut E,
) -> RunEnd
    ensures { TracesScript (rules_of rules.now) must_boot (is_some traced.entry) (tree_of script.now) session.old session.new
        (record { output = W.contents output.old; errors = E.contents errors.old })
        (record { output = W.contents output.new; errors = E.contents errors.new }) result }
{
    let course = course_of(alloc, session, script, rules, traced, errors);
    RunEnd {
        ending: course.outcome.ending,
        end: print_course(&course, must_boot, output, errors),
    }
}

/// The course of a run, of which the commands are printed if the script has a name by which they are wanted.
fn course_of<E: Write>(
    alloc: Global,
    session: &mut Session,
    script: &Script,
    rules: &RunRules<'_>,
    traced: Option<&[u8]>,
    errors: &mut E,
) -> Course
    ensures runs { Runs (rules_of rules.now) (tree_of script.now) session.old session.new result.outcome }
    ensures place { EndsIn (rules_of rules.now) (tree_of script.now) session.old result.outcome result.place }
    ensures departure { Departs (rules_of rules.now) (tree_of script.now) session.old result.outcome result.departure }
    ensures said { SaysTrace (is_some traced.entry) (E.contents errors.old) (E.contents errors.new) }
{
    match traced {
        None => run_in(
            rules.shell,
            alloc,
            session,
            script,
            rules.stand_ins,
            rules.board,
            rules.limits,
        ),
        Some(name) => {
            let (course, trace) = run_traced(
                rules.shell,
                alloc,
                session,
                script,
                rules.stand_ins,
                rules.board,
                rules.limits,
                name,
            );
            say_trace(&trace, errors);
            course
        }
    }
}

/// Prints the commands of a run as far as the writer takes them.
fn say_trace<E: Write>(trace: &Trace, errors: &mut E)
    ensures { (text : List ℕ) × AppendsFront (E.contents errors.old) (E.contents errors.new) text }
{
    let end: &[u8] = if trace.is_whole() { b"" } else { TRACE_ENDS };
    let _ = write_two(errors, trace.text(), end);
}

/// Prints the text of a run, and how it ended if it didn't end well, or had to boot and didn't.
fn print_course<W: Write, E: Write>(
    course: &Course,
    must_boot: bool,
    output: &mut W,
    errors: &mut E,
) -> ToolEnd
    ensures { Prints (record { output = W.contents output.old; errors = E.contents errors.old })
        (record { output = W.contents output.new; errors = E.contents errors.new })
        (course_texts must_boot course.now) result }
{
    if !write_text(output, &course.outcome.text) {
        return ToolEnd::stopped(StreamFault::Write);
    }
    let told = if !is_well(course.outcome.ending, course.outcome.status) {
        write_ending(
            course.outcome.ending,
            &course.place,
            course.outcome.status,
            course.outcome.steps,
            errors,
        )
    } else if must_boot && !has_booted(&course.departure) {
        write_no_boot(course, errors)
    } else {
        return ToolEnd::done(0);
    };
    if told {
        ToolEnd::done(1)
    } else {
        ToolEnd::stopped(StreamFault::Write)
    }
}

/// Whether a run reached its end or an `exit`, with status 0.
fn is_well(ending: Ending, status: u8) -> bool
    ensures { result ≡ is_well ending status }
{
    match ending {
        Ending::Finished | Ending::Exited => status == 0,
        _ => false,
    }
}

/// Whether a run left the board as it boots.
fn has_booted(departure: &Option<Departure>) -> bool
    ensures { result ≡ has_booted departure.now }
{
    match departure {
        None => false,
        Some(departure) => match departure.leaving {
            Leaving::Boots => true,
            Leaving::Resets | Leaving::Asks => false,
        },
    }
}

/// Prints how a run ended that didn't end well.
fn write_ending<E: Write>(
    ending: Ending,
    place: &Option<StartedName>,
    status: u8,
    steps: u32,
    errors: &mut E,
) -> bool
    ensures { MatchBool result
        (Appends (E.contents errors.old) (E.contents errors.new) (ended_so ending place.now status steps))
        (AppendsPart (E.contents errors.old) (E.contents errors.new) (ended_so ending place.now status steps)) }
{
    match ending {
        Ending::Finished | Ending::Exited => {
            write_own_ending(b"fwenv: ", ending.name(), status, steps, errors)
        }
        Ending::Memory => write_text(errors, OUT_OF_MEMORY),
        Ending::Steps | Ending::Depth | Ending::Word | Ending::Output => {
            write_limit(ending.name(), place, steps, errors)
        }
    }
}

/// Prints how a run ended well that had to boot and didn't.
fn write_no_boot<E: Write>(course: &Course, errors: &mut E) -> bool
    ensures { MatchBool result
        (Appends (E.contents errors.old) (E.contents errors.new) (no_boot course.now.outcome.ending course.now.place
        course.now.departure course.now.outcome.status course.now.outcome.steps))
        (AppendsPart (E.contents errors.old) (E.contents errors.new) (no_boot course.now.outcome.ending course.now.place
        course.now.departure course.now.outcome.status course.now.outcome.steps)) }
{
    match &course.departure {
        None => write_own_ending(
            b"fwenv: no boot: ",
            course.outcome.ending.name(),
            course.outcome.status,
            course.outcome.steps,
            errors,
        ),
        Some(departure) => write_reset(
            called_in(&departure.words),
            &course.place,
            course.outcome.steps,
            errors,
        ),
    }
}

/// The name in a call.
fn called_in(words: &FieldQueue) -> &[u8]
    ensures { result.now ≡ get_or words.now 0 [] }
{
    match words.fields().next() {
        Some(called) => called,
        None => &[],
    }
}

/// Prints by which command a board was reset, and in which variable's text.
fn write_reset<E: Write>(
    called: &[u8],
    place: &Option<StartedName>,
    steps: u32,
    errors: &mut E,
) -> bool
    ensures { MatchBool result
        (Appends (E.contents errors.old) (E.contents errors.new) (reset_line called.now place.now steps))
        (AppendsPart (E.contents errors.old) (E.contents errors.new) (reset_line called.now place.now steps)) }
{
    let mut digits = Buffer::new();
    let steps = digits.format(steps).as_bytes();
    match place {
        None => write_parts(
            errors,
            &[
                b"fwenv: no boot: reset by \"",
                called,
                b"\" after ",
                steps,
                b" steps\n",
            ],
        ),
        Some(variable) => write_parts(
            errors,
            &[
                b"fwenv: no boot: reset by \"",
                called,
                b"\" in \"",
                variable.as_bytes(),
                b"\" after ",
                steps,
                b" steps\n",
            ],
        ),
    }
}

/// Prints how a run ended by itself.
fn write_own_ending<E: Write>(
    front: &[u8],
    name: &[u8],
    status: u8,
    steps: u32,
    errors: &mut E,
) -> bool
    ensures { MatchBool result
        (Appends (E.contents errors.old) (E.contents errors.new) (ended_by_itself front.now name.now status steps))
        (AppendsPart (E.contents errors.old) (E.contents errors.new) (ended_by_itself front.now name.now status steps)) }
{
    let mut status_digits = Buffer::new();
    let mut step_digits = Buffer::new();
    write_parts(
        errors,
        &[
            front,
            b"run ended as ",
            name,
            b" with status ",
            status_digits.format(status).as_bytes(),
            b" after ",
            step_digits.format(steps).as_bytes(),
            b" steps\n",
        ],
    )
}

/// Prints at which limit a run was stopped, and in which variable's text.
fn write_limit<E: Write>(
    name: &[u8],
    place: &Option<StartedName>,
    steps: u32,
    errors: &mut E,
) -> bool
    ensures { MatchBool result
        (Appends (E.contents errors.old) (E.contents errors.new) (ended_by_limit name.now place.now steps))
        (AppendsPart (E.contents errors.old) (E.contents errors.new) (ended_by_limit name.now place.now steps)) }
{
    let mut digits = Buffer::new();
    let steps = digits.format(steps).as_bytes();
    match place {
        None => write_parts(
            errors,
            &[
                b"fwenv: run ended as ",
                name,
                b" after ",
                steps,
                b" steps\n",
            ],
        ),
        Some(variable) => write_parts(
            errors,
            &[
                b"fwenv: run ended as ",
                name,
                b" in \"",
                variable.as_bytes(),
                b"\" after ",
                steps,
                b" steps\n",
            ],
        ),
    }
}
