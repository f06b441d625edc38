//! The stack of a run (docs/runs.md, "The stack"), and the scripts that its frames belong to.
ghost use Rattle.std.specs.Prelude.{◌≡◌, ◌<◌, ◌≤◌, [], ◌∷◌, IfOk, IfSome, IfNone, length};
ghost use Rattle.run_limits.specs.Limits.{most_depth};
ghost use Rattle.hush_run.specs.Resume.{behind};

use envvars_core::Memory;
use hush_commands::FieldQueue;
use hush_syntax::{NodeId, Script};
use run_limits::MOST_DEPTH;
use std::alloc::{AllocError, Global};
use std::marker::Model;

/// What is left to do when a part of a script is done.
#[derive(Drop)]
pub enum Frame {
    /// The chains of a list from one on.
    List {
        /// The list.
        node: NodeId,
        /// The index of the chain.
        next: usize,
    },
    /// The commands of a chain from one on.
    Chain {
        /// The chain.
        node: NodeId,
        /// The index of the command.
        next: usize,
    },
    /// By the status of a branch's condition, its body or the branches after it.
    Branch {
        /// The `if`.
        node: NodeId,
        /// The index of the branch.
        branch: usize,
    },
    /// By the status of a loop's condition, its body or its end.
    Condition {
        /// The loop.
        node: NodeId,
        /// The status of the body before; 0 if there was none.
        last: u8,
    },
    /// The condition of a loop again.
    Body {
        /// The loop.
        node: NodeId,
    },
    /// The bindings of a `for`.
    Bindings {
        /// The `for`.
        node: NodeId,
        /// The fields that aren't bound yet.
        fields: FieldQueue,
    },
    /// The names that `run` is still to start after a script that it started.
    Started {
        /// The name of that script, and those names; none after a text that answers a call.
        names: FieldQueue,
    },
}

/// How many levels of nesting a script has at most: `NEST_LIMIT` of hush_syntax, again. That both are one number is
/// proved: contracts here speak of its `nest_limit`.
const NEST_LIMIT: usize = 64;

/// The most frames that one script needs: three for each level of nesting, and three for a list, its chain and its command.
const SCRIPT_FRAMES: usize = 3 * NEST_LIMIT + 3;

/// Frames, the last one on top, in room that is taken at the start.
#[derive(Drop)]
pub struct Frames {
    items: Vec<Frame>,
}

impl Model for Frames {
    ghost use Rattle.std.specs.Prelude.{vec_capacity};
    ghost use Rattle.hush_run.specs.Stacks.{Stack, stack_of};

    ghost Value = { Stack };

    ghost view = { λ a. stack_of a.items.items (vec_capacity a.items) };
}

impl Frames {
    ghost use Rattle.hush_run.specs.Stacks.{frame_limit};

    /// No frames, and room for those of a script and of `depth` starts inside one another: (depth + 1) x 195, where 195
    /// is three for each of 64 levels of nesting, and three for a list, its chain and its command.
    ///
    /// # Errors
    ///
    /// The room is refused.
    pub fn new(alloc: Global, depth: u32) -> Result<Frames, Memory>
        requires { depth ≤ most_depth }
        ensures { IfOk result (λ frames. frames ≡ record { frames = []; capacity = frame_limit depth }) }
    {
        let items = Vec::with_capacity(alloc, (depth as usize + 1) * SCRIPT_FRAMES)?;
        Ok(Frames { items })
    }

    /// Puts a frame on top, if the room isn't full. It takes no memory: the capacity stays.
    pub fn push(&mut self, frame: Frame)
        requires { length self.old.frames < self.old.capacity }
        ensures { self.new ≡ record self.old { frames = frame ∷ self.old.frames } }
    {
        self.items.push_reserved(frame);
    }

    /// The names that the `run` was given whose text runs: none of a text that answers a call, and no value in the script
    /// itself.
    pub(crate) fn started(&self) -> Option<&FieldQueue> {
        let mut above = self.items.len();
        while above > 0 {
            above -= 1;
            if let Frame::Started { names } = &self.items[above] {
                return Some(names);
            }
        }
        None
    }

    /// Takes the frame on top, if there is one.
    pub fn pop(&mut self) -> Option<Frame>
        ensures some { IfSome result (λ frame. self.old ≡ record self.new { frames = frame ∷ self.new.frames }) }
        ensures none { IfNone result ((self.old.frames ≡ []) × (self.new ≡ self.old)) }
    {
        self.items.pop()
    }
}

/// The scripts that run, the innermost first.
#[derive(Drop)]
pub(crate) struct Calls<'s> {
    first: &'s Script,
    started: Vec<Script>,
}

impl<'s> Model for Calls<'s> {
    ghost use Rattle.std.specs.Prelude.{List, vec_capacity, ◌≤◌};
    ghost use Rattle.hush_syntax.specs.Scripts.{Parsed};
    ghost use Rattle.run_limits.specs.Limits.{most_depth};
    ghost use Rattle.hush_run.specs.Stacks.{calls_of};

    ghost Value = { List Parsed };

    ghost view = { λ a. calls_of a.first.now a.started.items };

    ghost invariant = { λ a. most_depth ≤ vec_capacity a.started };
}

impl<'s> Calls<'s> {
    /// The first alone, and room for those of the most starts inside one another that limits may give ([`MOST_DEPTH`]).
    pub(crate) fn new(alloc: Global, first: &'s Script) -> Result<Calls<'s>, AllocError>
        ensures { IfOk result (λ calls. calls ≡ first.entry.now ∷ []) }
    {
        let started = Vec::with_capacity(alloc, MOST_DEPTH as usize)?;
        Ok(Calls { first, started })
    }

    /// The innermost.
    pub(crate) fn top(&self) -> &Script
        ensures { self.now ≡ result.now ∷ behind self.now }
    {
        match self.started.as_slice().last() {
            Some(script) => script,
            None => self.first,
        }
    }

    /// How many.
    pub(crate) fn len(&self) -> usize
        ensures { result ≡ length self.now }
    {
        self.started.len() + 1
    }

    /// One more. It takes no memory.
    pub(crate) fn push(&mut self, script: Script)
        requires { length self.old ≤ most_depth }
        ensures { self.new ≡ script ∷ self.old }
    {
        let pushed = self.started.push(script);
        // It tells the prover that room was reserved, so this isn't refused.
        prove!(pushed.is_ok());
    }

    /// The innermost is done.
    pub(crate) fn pop(&mut self)
        requires { 2 ≤ length self.old }
        ensures { self.new ≡ behind self.old }
    {
        let done = self.started.pop();
        // It tells the prover that a script that was started is there.
        prove!(done.is_some());
    }
}
