//! One request: it is done, and replied to.
ghost use Rattle.std.specs.Prelude.{◌≡◌, IfOk};
ghost use Rattle.env_requests.specs.Requests.{listing};
ghost use Rattle.env_requests.specs.Views.{asked, told, rules_of, Obeys};
ghost use Rattle.hush_run.specs.Runs.{rules, Runs};
ghost use Rattle.hush_syntax.specs.Scripts.{tree_of};

use crate::reply::Reply;
use crate::request::Request;
use crate::run_rules::RunRules;
use env_session::Session;
use envvars_core::{Memory, Vars};
use hush_commands::BoardRules;
use hush_run::{Course, Limits, Outcome, Shell, Stubs, run_in};
use hush_syntax::Script;
use std::alloc::Global;

/// Does what a request asks for, and replies; a run has the strict shell, whose rules docs/runs.md states. The reply and
/// what is left are what `answer_to` (specs/Requests.antt) gives for the request, or for the request as memory stopped it.
pub fn obey(
    alloc: Global,
    session: &mut Session,
    request: &Request,
    stubs: &Stubs,
    limits: &Limits,
) -> Reply
    ensures { Obeys (rules stubs.now limits.now) session.old (asked request.now) (told result) session.new }
{
    let board = BoardRules::none(alloc);
    let strict = RunRules {
        shell: Shell::Strict,
        stand_ins: stubs,
        board: &board,
        limits,
    };
    obey_in(alloc, session, request, &strict)
}

/// The same, where a run follows these rules.
pub fn obey_in(
    alloc: Global,
    session: &mut Session,
    request: &Request,
    rules: &RunRules<'_>,
) -> Reply
    ensures { Obeys (rules_of rules.now) session.old (asked request.now) (told result) session.new }
{
    match request {
        Request::Run(script) => Reply::Ran(ran(alloc, session, script, rules)),
        Request::Write { name, value, force } => {
            Reply::Wrote(session.write(name, value.as_deref(), *force))
        }
        Request::Import(entries) => Reply::Imported(session.import(entries)),
        Request::Save => Reply::Saved(session.save()),
        Request::Print => Reply::Printed(listing(alloc, session.vars())),
        Request::Mark => Reply::Marked(session.mark()),
        Request::Undo => Reply::Undone(session.undo_to(0)),
        Request::UndoTo(number) => Reply::Undone(session.undo_to(*number)),
    }
}

/// The run of a script.
fn ran(alloc: Global, session: &mut Session, script: &Script, rules: &RunRules<'_>) -> Outcome
    ensures { Runs (rules_of rules.now) (tree_of script.now) session.old session.new result }
{
    let Course {
        outcome,
        place: _,
        departure: _,
    } = run_in(
        rules.shell,
        alloc,
        session,
        script,
        rules.stand_ins,
        rules.board,
        rules.limits,
    );
    outcome
}

/// `name=value` and a newline for each variable, in order of names.
fn listing(alloc: Global, vars: &Vars) -> Result<Vec<u8>, Memory>
    ensures { IfOk result (λ text. text.items ≡ listing vars.now.env) }
{
    let mut text = Vec::new(alloc);
    for line in vars.lines() {
        text.extend_from_slice(line)?;
        text.push(b'\n')?;
    }
    Ok(text)
}
