//! What can be wrong with a word or an operator.

/// What is wrong with a word or an operator (docs/scripts.md, "Words").
#[derive(Clone, Copy, Debug, PartialEq, Eq)]
pub enum FaultKind {
    /// A quote that isn't closed. The place is that of the quote.
    Quote,
    /// An unquoted `\` at the end of the text.
    Backslash,
    /// A `$` before what it can't begin, or braces without a name or without an end. The place is that of the `$`.
    Substitution,
    /// A single `&` or `|`.
    Operator,
    /// A byte 0.
    Nul,
}

/// A fault, and where it is.
#[derive(Clone, Copy, Debug, PartialEq, Eq)]
pub struct Fault {
    /// What is wrong.
    pub kind: FaultKind,
    /// How many bytes of the source are before the byte at fault.
    pub place: usize,
}
