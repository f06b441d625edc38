//! What a frame results in when what was above it is done.
ghost use Rattle.std.specs.Prelude.{◌≡◌, ◌<◌, ◌≤◌, IsSome, drop, get_or, length};
ghost use Rattle.hush_syntax.specs.Scripts.{subtree_at};
ghost use Rattle.hush_syntax.specs.Nodes.{At};
ghost use Rattle.hush_run.specs.Meaning.{Rules, Begin, State, Goes, leaves_chain, loop_status, run_status, if_ok, in_turn, with_status};
ghost use Rattle.hush_run.specs.Resume.{IsFrame, joined, passed_status, text_status};
ghost use Rattle.hush_run.specs.Turns.{Turns, BranchesTurn, IsDue, due_does, due_room};
ghost use Rattle.hush_run.specs.declared.frames.Frame.TheVariants as frame;

use crate::due::Due;
use crate::frames::Frame;
use hush_commands::{FieldQueue, Shell, kept_status};
use hush_syntax::{Branch, Node, NodeId, Operator, Script};

/// What a frame results in: what is due, the frame that is left after it, and the status.
#[derive(Drop)]
pub(crate) struct Turn {
    pub(crate) due: Due,
    pub(crate) behind: Option<Frame>,
    pub(crate) status: u8,
}

/// What a frame results in when the part above it ended with this status. The script is the one that it belongs to.
pub(crate) fn turn_of(shell: Shell, script: &Script, frame: Frame, status: u8) -> Turn
    requires { IsFrame (subtree_at script.now) frame }
    ensures { Turns shell (subtree_at script.now) frame (passed_status shell frame status) result }
{
    match frame {
        Frame::List { node, next } => list_turn(script, node, next, status),
        Frame::Chain { node, next } => chain_turn(shell, script, node, next, status),
        Frame::Branch { node, branch } => branch_turn(shell, script, node, branch, status),
        Frame::Condition { node, last } => condition_turn(shell, script, node, last, status),
        Frame::Body { node } => body_turn(script, node, status),
        Frame::Bindings { node, fields } => bindings_turn(script, node, fields, status),
        Frame::Started { names } => started_turn(shell, names, status),
    }
}

/// Nothing is left.
fn over(status: u8) -> Turn
    ensures { result ≡ record { due = Due.Over; behind = None; status = status } }
{
    Turn {
        due: Due::Over,
        behind: None,
        status,
    }
}

fn goes_to(node: NodeId, behind: Option<Frame>, status: u8) -> Turn
    ensures { result ≡ record { due = Due.Node node; behind = behind; status = status } }
{
    Turn {
        due: Due::Node(node),
        behind,
        status,
    }
}

fn list_turn(script: &Script, node: NodeId, next: usize, status: u8) -> Turn
    requires { IsSome (subtree_at script.now node) }
    ensures { (shell : Shell) → Turns shell (subtree_at script.now) (frame.List node next) status result }
{
    let Node::List(chains) = script.node(node) else {
        return over(status);
    };
    if next >= chains.len() {
        return over(status);
    }
    let behind = Frame::List {
        node,
        next: next + 1,
    };
    goes_to(member(chains, next), Some(behind), status)
}

/// Whether a command after this operator is run.
fn is_joined(operator: Option<Operator>, status: u8) -> bool
    ensures { result ≡ joined operator status }
{
    match operator {
        None => true,
        Some(Operator::And) => status == 0,
        Some(Operator::Or) => status != 0,
    }
}

/// Whether none of a chain is run after a command of it that isn't.
fn leaves_chain(shell: Shell) -> bool
    ensures { result ≡ leaves_chain shell }
{
    match shell {
        Shell::Strict => false,
        Shell::Board => true,
    }
}

fn chain_turn(shell: Shell, script: &Script, node: NodeId, next: usize, status: u8) -> Turn
    requires { IsSome (subtree_at script.now node) }
    ensures { Turns shell (subtree_at script.now) (frame.Chain node next) status result }
{
    let Node::Chain(links) = script.node(node) else {
        return over(status);
    };
    let mut at = next;
    while at < links.len() {
        let link = member(links, at);
        if is_joined(link.operator, status) {
            let behind = Frame::Chain { node, next: at + 1 };
            return goes_to(link.command, Some(behind), status);
        }
        if leaves_chain(shell) {
            return over(status);
        }
        at += 1;
    }
    over(status)
}

fn branch_turn(shell: Shell, script: &Script, node: NodeId, branch: usize, status: u8) -> Turn
    requires { IsSome (subtree_at script.now node) }
    ensures { Turns shell (subtree_at script.now) (frame.Branch node branch) status result }
{
    match script.node(node) {
        Node::If {
            branches,
            otherwise,
        } => branches_turn(shell, branches, otherwise, node, branch, status),
        _ => over(status),
    }
}

fn branches_turn(
    shell: Shell,
    branches: &[Branch],
    otherwise: Option<NodeId>,
    node: NodeId,
    branch: usize,
    status: u8,
) -> Turn
    ensures { BranchesTurn shell branches.now otherwise node branch status result }
{
    if branch >= branches.len() {
        return over(status);
    }
    if status == 0 {
        return goes_to(member(branches, branch).body, None, status);
    }
    let next = branch + 1;
    if next < branches.len() {
        let behind = Frame::Branch { node, branch: next };
        return goes_to(member(branches, next).condition, Some(behind), status);
    }
    match otherwise {
        Some(body) => goes_to(body, None, status),
        None => over(kept_status(shell, status)),
    }
}

/// The status of a loop, by those of its last body and of its last condition.
fn loop_status(shell: Shell, last: u8, status: u8) -> u8
    ensures { result ≡ loop_status shell last status }
{
    match shell {
        Shell::Strict => last,
        Shell::Board => status,
    }
}

fn condition_turn(shell: Shell, script: &Script, node: NodeId, last: u8, status: u8) -> Turn
    requires { IsSome (subtree_at script.now node) }
    ensures { Turns shell (subtree_at script.now) (frame.Condition node last) status result }
{
    match script.node(node) {
        Node::While { body, .. } => {
            if status == 0 {
                goes_to(body, Some(Frame::Body { node }), status)
            } else {
                over(loop_status(shell, last, status))
            }
        }
        Node::Until { body, .. } => {
            if status == 0 {
                over(loop_status(shell, last, status))
            } else {
                goes_to(body, Some(Frame::Body { node }), status)
            }
        }
        _ => over(status),
    }
}

fn body_turn(script: &Script, node: NodeId, status: u8) -> Turn
    requires { IsSome (subtree_at script.now node) }
    ensures { (shell : Shell) → Turns shell (subtree_at script.now) (frame.Body node) status result }
{
    let behind = Frame::Condition { node, last: status };
    match script.node(node) {
        Node::While { condition, .. } => goes_to(condition, Some(behind), status),
        Node::Until { condition, .. } => goes_to(condition, Some(behind), status),
        _ => over(status),
    }
}

fn bindings_turn(script: &Script, node: NodeId, fields: FieldQueue, status: u8) -> Turn
    requires { IsSome (subtree_at script.now node) }
    ensures { (shell : Shell) → Turns shell (subtree_at script.now) (frame.Bindings node fields) status result }
{
    if fields.is_empty() {
        return over(status);
    }
    match script.node(node) {
        Node::For { .. } => Turn {
            due: Due::Binding { node, fields },
            behind: None,
            status,
        },
        _ => over(status),
    }
}

fn started_turn(shell: Shell, names: FieldQueue, status: u8) -> Turn
    ensures { (at : At) → Turns shell at (frame.Started names) (text_status shell names status) result }
{
    let status = text_status(shell, &names, status);
    Turn {
        due: due_after(names, status),
        behind: None,
        status,
    }
}

/// The status of a text that is over: `run` makes one of its own on a board.
fn text_status(shell: Shell, names: &FieldQueue, status: u8) -> u8
    ensures { result ≡ text_status shell names.now status }
{
    if names.is_empty() {
        status
    } else {
        run_status(shell, status)
    }
}

/// The status that `run` makes of a text's.
fn run_status(shell: Shell, status: u8) -> u8
    ensures { result ≡ run_status shell status }
{
    match shell {
        Shell::Strict => status,
        Shell::Board => { if status == 0 { 0 } else { 1 } }
    }
}

/// What is due after the text of the first of these names, which ended with this status.
pub(crate) fn due_after(names: FieldQueue, status: u8) -> Due
    ensures due { (at : At) → IsDue at result × (due_room at result ≤ 1) }
    ensures same { (rules : Rules) (begin : Begin) (at : At) (s : State) →
        if_ok (in_turn begin (drop 1 names)) Goes (with_status status s) ≡ due_does rules begin at result (with_status status s) }
{
    let mut left = names;
    left.advance();
    if status != 0 || left.is_empty() {
        Due::Over
    } else {
        Due::Start { names: left }
    }
}

/// The member of this index.
pub(crate) fn member<T: Copy>(members: &[T], index: usize) -> T
    requires { index < length members.now }
    ensures { result ≡ get_or members.now index result }
{
    members[index]
}
