//! The way over a script: down from a node to the first step in it, and up from there by the frames that are left.
ghost use Rattle.std.specs.Prelude.{◌≡◌, ◌<◌, ◌≤◌, ◌+◌, ◌*◌, IsSome, length};
ghost use Rattle.hush_syntax.specs.Scripts.{subtree_at};
ghost use Rattle.hush_run.specs.Resume.{FirstPart, Descends, room, IsStack, owners};
ghost use Rattle.hush_run.specs.Rises.{LeavesText, Rises, passed_of, with_behind};
ghost use Rattle.hush_run.specs.Stacks.{script_frames};

use crate::due::Due;
use crate::ending::Ending;
use crate::frames::{Calls, Frame, Frames};
use crate::turns::{Turn, due_after, member, turn_of};
use hush_commands::{FieldQueue, Shell};
use hush_syntax::{Node, NodeId, Script};

/// Goes down from a node to the first step in it, and leaves a frame for each part that isn't done with that.
#[inline(always)]
pub(crate) fn descend(script: &Script, frames: &mut Frames, id: NodeId) -> NodeId
    requires known { IsSome (subtree_at script.now id) }
    requires room { length frames.old.frames + room (subtree_at script.now id) ≤ frames.old.capacity }
    ensures descends { Descends script.now frames.old.frames frames.new.frames id result }
    ensures capacity { frames.new.capacity ≡ frames.old.capacity }
    ensures height { length frames.new.frames + room (subtree_at script.now result) ≤ length frames.old.frames + room (subtree_at script.now id) }
{
    let mut node = id;
    while let Some((frame, part)) = first_part(script, node) {
        frames.push(frame);
        node = part;
    }
    node
}

/// The first part of a node, and the frame that is left for the others; `None` if the node is a step.
#[inline(always)]
fn first_part(script: &Script, id: NodeId) -> Option<(Frame, NodeId)>
    requires { IsSome (subtree_at script.now id) }
    ensures { FirstPart (subtree_at script.now) id result }
{
    match script.node(id) {
        Node::List(chains) => Some((Frame::List { node: id, next: 1 }, member(chains, 0))),
        Node::Chain(links) => Some((Frame::Chain { node: id, next: 1 }, member(links, 0).command)),
        Node::If { branches, .. } => Some((
            Frame::Branch {
                node: id,
                branch: 0,
            },
            member(branches, 0).condition,
        )),
        Node::While { condition, .. } => Some((Frame::Condition { node: id, last: 0 }, condition)),
        Node::Until { condition, .. } => Some((Frame::Condition { node: id, last: 0 }, condition)),
        Node::For { .. } | Node::Assign { .. } | Node::Simple { .. } => None,
    }
}

/// Takes frames until one has something due. If none has, nothing is due.
#[inline(always)]
pub(crate) fn rise_up(
    shell: Shell,
    calls: &mut Calls<'_>,
    frames: &mut Frames,
    status: &mut u8,
) -> Due
    requires stack { IsStack calls.old frames.old.frames }
    requires some { 1 ≤ length calls.old }
    requires fits { length frames.old.frames ≤ script_frames * length calls.old }
    requires limit { script_frames * length calls.old ≤ frames.old.capacity }
    ensures rises { Rises shell calls.old frames.old.frames status.old calls.new frames.new.frames status.new result }
    ensures capacity { frames.new.capacity ≡ frames.old.capacity }
{
    while let Some(frame) = frames.pop() {
        leave(calls, &frame);
        let Turn {
            due,
            behind,
            status: next,
        } = turn_of(shell, calls.top(), frame, *status);
        *status = next;
        keep(frames, behind);
        match due {
            Due::Over => {}
            due => return due,
        }
    }
    Due::Over
}

/// Takes frames up to the one after the text that an `exit` with this status leaves: what is due after it, and the
/// status. The run has ended if no text was started.
pub(crate) fn leave_text(
    calls: &mut Calls<'_>,
    frames: &mut Frames,
    status: &mut u8,
    own: u8,
) -> Result<Due, Ending>
    requires stack { IsStack calls.old frames.old.frames }
    requires some { 1 ≤ length calls.old }
    ensures leaves { LeavesText calls.old frames.old.frames own status.old calls.new frames.new.frames status.new result }
    ensures capacity { frames.new.capacity ≡ frames.old.capacity }
{
    let mut inner = own;
    while let Some(frame) = frames.pop() {
        leave(calls, &frame);
        match passed_of(frame) {
            Passed::List => {
                *status = inner;
                inner = 0;
            }
            Passed::Other => {}
            Passed::Text(names) => return Ok(due_after(names, *status)),
        }
    }
    Err(Ending::Exited)
}

/// What an `exit` passes on its way out of its text.
#[derive(Drop)]
pub(crate) enum Passed {
    /// A list.
    List,
    /// Something that takes no notice.
    Other,
    /// The text that was started by the first of these names.
    Text(FieldQueue),
}

/// What an `exit` passes with a frame.
fn passed_of(frame: Frame) -> Passed
    ensures { result ≡ passed_of frame }
{
    match frame {
        Frame::List { .. } => Passed::List,
        Frame::Started { names } => Passed::Text(names),
        _ => Passed::Other,
    }
}

/// A frame after a started script ends that script.
fn leave(calls: &mut Calls<'_>, frame: &Frame)
    requires { 1 ≤ length (owners frame.now calls.old) }
    ensures { calls.new ≡ owners frame.now calls.old }
{
    if let Frame::Started { .. } = frame {
        calls.pop();
    }
}

/// Puts the frame that is left on top.
fn keep(frames: &mut Frames, behind: Option<Frame>)
    requires { length frames.old.frames < frames.old.capacity }
    ensures frames { frames.new.frames ≡ with_behind behind frames.old.frames }
    ensures capacity { frames.new.capacity ≡ frames.old.capacity }
{
    match behind {
        Some(frame) => frames.push(frame),
        None => {}
    }
}
