//! Replies to requests.

use env_session::{ImportReport, MarkFault, Side, UndoFault};
use envvars_core::{Memory, Refusal};
use hush_run::Outcome;

/// The reply to a request.
#[derive(Drop)]
pub enum Reply {
    /// How a run ended, with its status, steps and text.
    Ran(Outcome),
    /// Whether a write was refused, and for what.
    Wrote(Result<(), Refusal>),
    /// What an import did.
    Imported(ImportReport),
    /// Which copy a save wrote. `Memory`: nothing has changed.
    Saved(Result<Side, Memory>),
    /// `name=value` and a newline for each variable, in order of names. `Memory`: there was not enough for the text.
    Printed(Result<Vec<u8>, Memory>),
    /// The number of a new mark. `Full`: 64 are there, and nothing has changed.
    Marked(Result<u32, MarkFault>),
    /// Whether an undo was refused. `Gone`: there is no such mark, and nothing has changed. `Memory`: the spans above some
    /// mark of at least this number are undone, and a later undo goes on from there.
    Undone(Result<(), UndoFault>),
}
