//! The step that a node is.
ghost use Rattle.std.specs.Prelude.{◌≡◌, ℕ, List, ◌≤◌, Some, IfOk};
ghost use Rattle.hush_words.specs.Words.{Atom};
ghost use Rattle.hush_syntax.specs.Grammar.{For, Chains};
ghost use Rattle.hush_syntax.specs.Nodes.{At, OfCommand};
ghost use Rattle.hush_syntax.specs.Scripts.{subtree_at};
ghost use Rattle.hush_run.specs.Meaning.{Rules, Begin, State, follows, bindings, chains};
ghost use Rattle.hush_run.specs.Resume.{subtree_does, room, IsStep};
ghost use Rattle.hush_run.specs.Steps.{state_of, rules_of, Did};
ghost use Rattle.hush_run.specs.Turns.{after_does, due_does, due_room, FitsAfter, IsDue};

use crate::due::Due;
use crate::ending::Ending;
use crate::progress::{Given, Progress};
use crate::steps::{assign_step, head_step, simple_step};
use env_session::Session;
use hush_commands::{FieldQueue, Follow};
use hush_syntax::{Node, NodeId, Script};

/// What comes after a step of a script.
#[derive(Drop)]
pub(crate) enum After {
    /// This is due.
    Goes(Due),
    /// An `exit` leaves its text with this status.
    Leaves(u8),
}

/// Does the step that a node is: what comes after it.
#[inline(always)]
pub(crate) fn node_step(
    given: &Given<'_>,
    session: &mut Session,
    progress: &mut Progress,
    script: &Script,
    node: NodeId,
) -> Result<After, Ending>
    requires { IsStep (subtree_at script.now node) }
    ensures step { Did (rules_of given.now) (λ rules begin. subtree_does rules begin (subtree_at script.now node))
        (λ after rules begin. after_does rules begin (subtree_at script.now) after) (state_of session.old progress.old)
        (state_of session.new progress.new) result }
    ensures fits { IfOk result (FitsAfter (subtree_at script.now) (room (subtree_at script.now node))) }
{
    match script.node(node) {
        Node::Simple { words } => {
            match simple_step(given, session, progress, script.text(), words) {
                Ok(follow) => Ok(after_simple(follow, progress.status)),
                Err(ending) => Err(ending),
            }
        }
        Node::Assign { name, value } => {
            match assign_step(given, session, progress, script.text(), name, value) {
                Ok(()) => Ok(After::Goes(Due::Over)),
                Err(ending) => Err(ending),
            }
        }
        Node::For { words, .. } => {
            match head_step(given, session, progress, script.text(), words) {
                Ok(fields) => Ok(After::Goes(due_binding(node, fields))),
                Err(ending) => Err(ending),
            }
        }
        Node::List(_)
        | Node::Chain(_)
        | Node::If { .. }
        | Node::While { .. }
        | Node::Until { .. } => unreachable!(),
    }
}

/// What comes after a simple command with this status.
#[inline(always)]
fn after_simple(follow: Follow, status: u8) -> After
    ensures fits { (at : At) → FitsAfter at 1 result }
    ensures same { (rules : Rules) (begin : Begin) (at : At) (s : State) → s.status ≡ status → follows rules begin follow s ≡ after_does rules begin at result s }
{
    match follow {
        Follow::Next | Follow::End(_) => After::Goes(Due::Over),
        Follow::Leaves => After::Leaves(status),
        Follow::Starts(names) => {
            if names.is_empty() {
                After::Goes(Due::Over)
            } else {
                After::Goes(Due::Start { names })
            }
        }
        Follow::Deletes { force, names } => {
            if names.is_empty() {
                After::Goes(Due::Over)
            } else {
                After::Goes(Due::Delete {
                    force,
                    failed: false,
                    names,
                })
            }
        }
        Follow::Answers { words, text } => After::Goes(Due::Answer { words, text }),
    }
}

/// What is due after the head of a `for` with these fields.
fn due_binding(node: NodeId, fields: FieldQueue) -> Due
    ensures due { (at : At) (name : List ℕ) (words : List (List Atom)) (d : Chains) → at node ≡ Some
        (OfCommand (For name words d)) → IsDue at result × (due_room at result ≤ room (at node)) }
    ensures same { (rules : Rules) (begin : Begin) (at : At) (name : List ℕ) (words : List (List Atom)) (d : Chains)
        (s : State) → at node ≡ Some (OfCommand (For name words d)) → bindings rules name (chains rules begin d) fields
        s ≡ due_does rules begin at result s }
{
    if fields.is_empty() {
        Due::Over
    } else {
        Due::Binding { node, fields }
    }
}
