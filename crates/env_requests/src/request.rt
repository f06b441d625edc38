//! What may be asked of a session.

use envcfg_core::TextEntry;
use hush_syntax::Script;

/// A request to a session.
#[derive(Drop)]
pub enum Request {
    /// A run of a script, with the stand-ins and limits that are handed in.
    Run(Script),
    /// A write of a value; no value or an empty one deletes.
    Write {
        /// The variable's name.
        name: Vec<u8>,
        /// The new value.
        value: Option<Vec<u8>>,
        /// Whether the access is left out.
        force: bool,
    },
    /// An unforced write of each of these entries, in order.
    Import(Vec<TextEntry>),
    /// A save: it writes the copy that isn't current.
    Save,
    /// A print of every variable.
    Print,
    /// A new mark.
    Mark,
    /// An undo of everything.
    Undo,
    /// An undo to the mark of this number; 0 is the opening.
    UndoTo(u32),
}
