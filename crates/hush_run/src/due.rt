//! What is due: a step, whatever it is, and what is due after it.
ghost use Rattle.std.specs.Prelude.{◌≡◌, ◌≤◌, ◌+◌, ◌-◌, length};
ghost use Rattle.run_limits.specs.Limits.{most_depth};
ghost use Rattle.hush_run.specs.Advances.{Advances, IsReady};
ghost use Rattle.hush_run.specs.Rises.{IsEnd};
ghost use Rattle.hush_run.specs.Steps.{state_of, rules_of};
ghost use Rattle.hush_run.specs.declared.due.Due.TheVariants as due;

use crate::descent::{descend, leave_text, rise_up};
use crate::ending::Ending;
use crate::frames::{Calls, Frame, Frames};
use crate::node_step::{After, node_step};
use crate::progress::{Given, Progress};
use crate::starts::{answer_step, start_step};
use crate::steps::{bind_step, delete_step};
use env_session::Session;
use hush_commands::{Bytes, FieldQueue};
use hush_syntax::{Node, NodeId};

/// What is due.
#[derive(Drop)]
pub(crate) enum Due {
    /// Nothing here: the frames go on.
    Over,
    /// A node.
    Node(NodeId),
    /// The binding of the first of these fields to the variable of a `for`.
    Binding {
        node: NodeId,
        fields: FieldQueue,
    },
    /// The start of the first of these names.
    Start {
        names: FieldQueue,
    },
    /// The deletion of the first of these names; whether it is forced, and whether that of an earlier name failed.
    Delete {
        force: bool,
        failed: bool,
        names: FieldQueue,
    },
    /// The start of the text that answers a call of these words.
    Answer {
        words: FieldQueue,
        text: Bytes,
    },
}

/// Does the next step: what is due then.
#[inline(always)]
pub(crate) fn advance(
    given: &Given<'_>,
    session: &mut Session,
    progress: &mut Progress,
    calls: &mut Calls<'_>,
    frames: &mut Frames,
    due: Due,
) -> Result<Due, Ending>
    requires depth { given.now.limits.depth ≤ most_depth }
    requires ready { IsReady (rules_of given.now) calls.old frames.old.frames frames.old.capacity due }
    requires steps { progress.old.steps ≤ given.now.limits.steps }
    ensures { Advances (rules_of given.now) calls.old frames.old.frames due (state_of session.old progress.old)
        calls.new frames.new.frames frames.new.capacity (state_of session.new progress.new) result }
{
    match due {
        Due::Over => {
            let due = rise_up(given.shell, calls, frames, &mut progress.status);
            step_due(given, session, progress, calls, frames, due)
        }
        due => step_due(given, session, progress, calls, frames, due),
    }
}

/// Does what is due, which is a step, or the end.
#[inline(always)]
fn step_due(
    given: &Given<'_>,
    session: &mut Session,
    progress: &mut Progress,
    calls: &mut Calls<'_>,
    frames: &mut Frames,
    due: Due,
) -> Result<Due, Ending>
    requires depth { given.now.limits.depth ≤ most_depth }
    requires ready { IsReady (rules_of given.now) calls.old frames.old.frames frames.old.capacity due }
    requires end { IsEnd due frames.old.frames }
    requires steps { progress.old.steps ≤ given.now.limits.steps }
    ensures { Advances (rules_of given.now) calls.old frames.old.frames due (state_of session.old progress.old)
        calls.new frames.new.frames frames.new.capacity (state_of session.new progress.new) result }
{
    match due {
        Due::Over => Err(Ending::Finished),
        Due::Node(node) => node_due(given, session, progress, calls, frames, node),
        Due::Binding { node, fields } => {
            binding_due(given, session, progress, calls, frames, node, fields)
        }
        Due::Start { names } => start_due(given, session, progress, calls, frames, names),
        Due::Delete {
            force,
            failed,
            names,
        } => delete_due(
            given, session, progress, calls, frames, force, failed, names,
        ),
        Due::Answer { words, text } => {
            answer_due(given, session, progress, calls, frames, words, text)
        }
    }
}

/// The first step in a node.
#[inline(always)]
fn node_due(
    given: &Given<'_>,
    session: &mut Session,
    progress: &mut Progress,
    calls: &mut Calls<'_>,
    frames: &mut Frames,
    node: NodeId,
) -> Result<Due, Ending>
    requires ready { IsReady (rules_of given.now) calls.old frames.old.frames frames.old.capacity (due.Node node) }
    requires steps { progress.old.steps ≤ given.now.limits.steps }
    ensures { Advances (rules_of given.now) calls.old frames.old.frames (due.Node node)
        (state_of session.old progress.old) calls.new frames.new.frames frames.new.capacity
        (state_of session.new progress.new) result }
{
    let script = calls.top();
    let step = descend(script, frames, node);
    progress.trace.find_text(frames);
    match node_step(given, session, progress, script, step) {
        Ok(After::Goes(due)) => Ok(due),
        Ok(After::Leaves(own)) => leave_text(calls, frames, &mut progress.status, own),
        Err(ending) => Err(ending),
    }
}

/// A binding of a `for`, and then its body.
fn binding_due(
    given: &Given<'_>,
    session: &Session,
    progress: &mut Progress,
    calls: &Calls<'_>,
    frames: &mut Frames,
    node: NodeId,
    fields: FieldQueue,
) -> Result<Due, Ending>
    requires ready { IsReady (rules_of given.now) calls.now frames.old.frames frames.old.capacity (due.Binding node fields) }
    requires steps { progress.old.steps ≤ given.now.limits.steps }
    ensures { Advances (rules_of given.now) calls.now frames.old.frames (due.Binding node fields)
        (state_of session.now progress.old) calls.now frames.new.frames frames.new.capacity
        (state_of session.now progress.new) result }
{
    let script = calls.top();
    let Node::For { name, body, .. } = script.node(node) else {
        unreachable!()
    };
    let mut left = fields;
    let Some(field) = left.fields().next() else {
        unreachable!()
    };
    progress.trace.find_text(frames);
    match bind_step(given, session, progress, script.text(), name, field) {
        Ok(bound) => {
            if !bound {
                return Ok(Due::Over);
            }
            left.advance();
            frames.push(Frame::Bindings { node, fields: left });
            Ok(Due::Node(body))
        }
        Err(ending) => Err(ending),
    }
}

/// A start by `run`, and then the script that it starts.
fn start_due(
    given: &Given<'_>,
    session: &Session,
    progress: &mut Progress,
    calls: &mut Calls<'_>,
    frames: &mut Frames,
    names: FieldQueue,
) -> Result<Due, Ending>
    requires depth { given.now.limits.depth ≤ most_depth }
    requires ready { IsReady (rules_of given.now) calls.old frames.old.frames frames.old.capacity (due.Start names) }
    requires steps { progress.old.steps ≤ given.now.limits.steps }
    ensures { Advances (rules_of given.now) calls.old frames.old.frames (due.Start names)
        (state_of session.now progress.old) calls.new frames.new.frames frames.new.capacity
        (state_of session.now progress.new) result }
{
    let Some(name) = names.fields().next() else {
        unreachable!()
    };
    match start_step(given, session, progress, name, levels_left(given, calls)) {
        Ok(Some(script)) => {
            let root = script.root();
            calls.push(script);
            frames.push(Frame::Started { names });
            match root {
                Some(root) => Ok(Due::Node(root)),
                None => Ok(Due::Over),
            }
        }
        Ok(None) => Ok(Due::Over),
        Err(ending) => Err(ending),
    }
}

/// The start of a text that answers a call, and then its script.
fn answer_due(
    given: &Given<'_>,
    session: &Session,
    progress: &mut Progress,
    calls: &mut Calls<'_>,
    frames: &mut Frames,
    words: FieldQueue,
    text: Bytes,
) -> Result<Due, Ending>
    requires depth { given.now.limits.depth ≤ most_depth }
    requires ready { IsReady (rules_of given.now) calls.old frames.old.frames frames.old.capacity (due.Answer words text) }
    requires steps { progress.old.steps ≤ given.now.limits.steps }
    ensures { Advances (rules_of given.now) calls.old frames.old.frames (due.Answer words text)
        (state_of session.now progress.old) calls.new frames.new.frames frames.new.capacity
        (state_of session.now progress.new) result }
{
    match answer_step(given, progress, &words, text, levels_left(given, calls)) {
        Ok(Some(script)) => {
            let root = script.root();
            calls.push(script);
            frames.push(Frame::Started {
                names: FieldQueue::none(given.alloc),
            });
            match root {
                Some(root) => Ok(Due::Node(root)),
                None => Ok(Due::Over),
            }
        }
        Ok(None) => Ok(Due::Over),
        Err(ending) => Err(ending),
    }
}

/// How many starts may still be opened inside those that run.
fn levels_left(given: &Given<'_>, calls: &Calls<'_>) -> u32
    requires some { 1 ≤ length calls.now }
    requires fit { length calls.now ≤ given.now.limits.depth + 1 }
    ensures { result ≡ given.now.limits.depth + 1 - length calls.now }
{
    given.limits.depth() + 1 - calls.len() as u32
}

/// The deletion of a name, and then of those after it.
fn delete_due(
    given: &Given<'_>,
    session: &mut Session,
    progress: &mut Progress,
    calls: &Calls<'_>,
    frames: &Frames,
    force: bool,
    failed: bool,
    names: FieldQueue,
) -> Result<Due, Ending>
    requires ready { IsReady (rules_of given.now) calls.now frames.now.frames frames.now.capacity (due.Delete force failed names) }
    requires steps { progress.old.steps ≤ given.now.limits.steps }
    ensures { Advances (rules_of given.now) calls.now frames.now.frames (due.Delete force failed names)
        (state_of session.old progress.old) calls.now frames.now.frames frames.now.capacity
        (state_of session.new progress.new) result }
{
    let mut left = names;
    let Some(name) = left.fields().next() else {
        unreachable!()
    };
    match delete_step(given, session, progress, name, force, failed) {
        Ok(failed) => {
            left.advance();
            if left.is_empty() {
                return Ok(Due::Over);
            }
            Ok(Due::Delete {
                force,
                failed,
                names: left,
            })
        }
        Err(ending) => Err(ending),
    }
}
