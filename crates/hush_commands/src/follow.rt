//! What follows a simple command (docs/runs.md, "Commands").
ghost use Rattle.std.specs.Prelude.{◌≡◌, is_some, ℕ, List, true, IfOk, OnErr};
ghost use Rattle.hush_commands.specs.Carrying.{takes_more};
ghost use Rattle.std.specs.FinMap as names;
ghost use Rattle.std.specs.Prelude.{option_map};
ghost use Rattle.hush_commands.specs.Hardware.{hardware, answer_to, role_reply};
ghost use Rattle.hush_commands.specs.Following.{asked_file, asking, exit_follow, departing, follow_by, follow_reply, follow_to};

use crate::board_rules::{BoardRules, Reply};
use crate::command::Command;
use crate::departure::{Departure, Leaving, leaving_with};
use crate::field_queue::FieldQueue;
use crate::pattern::{Bytes, behind_first};
use crate::shell::{Shell, asked_file};
use crate::stand_ins::Stubs;
use hush_calc::Fields;
use std::alloc::{AllocError, Global};

/// What follows a simple command.
#[derive(Drop)]
pub enum Follow {
    /// What comes next in the script.
    Next,
    /// The end of the run: the board is left by this call, or it is an `exit` of the strict shell.
    End(Option<Departure>),
    /// The end of the text that it is in: it is an `exit` of a board.
    Leaves,
    /// The starts of these names: it is a `run`.
    Starts(FieldQueue),
    /// The deletions of these names: it is an `env delete`.
    Deletes {
        /// Whether it has the option `-f`.
        force: bool,
        /// The names.
        names: FieldQueue,
    },
    /// The start of the text that a board answers with.
    Answers {
        /// The words of the call.
        words: FieldQueue,
        /// The text.
        text: Bytes,
    },
}

impl<'a> Command<'a> {
    /// What follows the command. Memory is taken for names and words alone.
    pub(crate) fn follow(
        &self,
        alloc: Global,
        shell: Shell,
        stand_ins: &Stubs,
        board: &BoardRules,
    ) -> Result<Follow, AllocError>
        ensures follow { IfOk result (λ follow. follow ≡ follow_by shell (hardware board.now stand_ins.now) self.now) }
        ensures taken { OnErr result (takes_more shell (hardware board.now stand_ins.now) self.now ≡ true) }
    {
        match self {
            Command::Run { names } => Ok(Follow::Starts(FieldQueue::of(alloc, names)?)),
            Command::Delete { force, names } => Ok(Follow::Deletes {
                force: *force,
                names: FieldQueue::of(alloc, names)?,
            }),
            Command::Test { words } => follow_test(alloc, shell, stand_ins, board, words),
            Command::Exit { .. } => Ok(exit_follow(shell)),
            Command::Other { called, fields } => {
                follow_other(alloc, stand_ins, board, called.bytes(), fields)
            }
            _ => Ok(Follow::Next),
        }
    }
}

/// What follows an `exit` with its words.
fn exit_follow(shell: Shell) -> Follow
    ensures { result ≡ exit_follow shell }
{
    match shell {
        Shell::Strict => Follow::End(None),
        Shell::Board => Follow::Leaves,
    }
}

/// What follows a `test`: the end of the run at a file of which the board has to be asked.
fn follow_test(
    alloc: Global,
    shell: Shell,
    stand_ins: &Stubs,
    board: &BoardRules,
    words: &Fields<'_>,
) -> Result<Follow, AllocError>
    ensures follow { IfOk result (λ follow. follow ≡ asking (asked_file shell (hardware board.now stand_ins.now) words.now)) }
    ensures taken { OnErr result (is_some (asked_file shell (hardware board.now stand_ins.now) words.now) ≡ true) }
{
    let Some(asked) = asked_file(shell, stand_ins, board, words) else {
        return Ok(Follow::Next);
    };
    let words = FieldQueue::behind(alloc, b"test", &asked)?;
    Ok(Follow::End(Some(Departure {
        leaving: Leaving::Asks,
        words,
    })))
}

/// What follows a call that is no builtin.
fn follow_other(
    alloc: Global,
    stand_ins: &Stubs,
    board: &BoardRules,
    called: &[u8],
    fields: &Fields<'_>,
) -> Result<Follow, AllocError>
    ensures { IfOk result (λ follow. follow ≡ follow_to called.now fields.now
        (answer_to (hardware board.now stand_ins.now) called.now fields.now)) }
{
    match board.find(called, fields) {
        Some(reply) => follow_reply(alloc, reply, called, fields),
        None => departing(alloc, stand_ins.leaving(called), called, fields),
    }
}

/// What follows an answer.
fn follow_reply(
    alloc: Global,
    reply: &Reply,
    called: &[u8],
    fields: &Fields<'_>,
) -> Result<Follow, AllocError>
    ensures { IfOk result (λ follow. follow ≡ follow_reply called.now fields.now reply.now) }
{
    match reply {
        Reply::Status { status, leaves } => {
            departing(alloc, leaving_with(*leaves, *status), called, fields)
        }
        Reply::Text(text) => Ok(Follow::Answers {
            words: FieldQueue::of(alloc, fields)?,
            text: Bytes::of(alloc, text.as_bytes())?,
        }),
        Reply::Lacks => Ok(Follow::Next),
    }
}

/// What follows a call of this name that leaves the board, or comes back.
fn departing(
    alloc: Global,
    leaving: Option<Leaving>,
    called: &[u8],
    fields: &Fields<'_>,
) -> Result<Follow, AllocError>
    ensures { IfOk result (λ follow. follow ≡ departing called.now fields.now leaving) }
{
    let Some(leaving) = leaving else {
        return Ok(Follow::Next);
    };
    let words = FieldQueue::behind(alloc, called, &behind_first(fields))?;
    Ok(Follow::End(Some(Departure { leaving, words })))
}
