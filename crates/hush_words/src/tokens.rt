//! The tokens of a script.
use crate::Word;

/// What a token is.
#[derive(Clone, Copy, Debug, PartialEq, Eq)]
pub enum TokenKind {
    /// A word.
    Word(Word),
    /// The end of a line.
    Newline,
    /// `;`
    Semicolon,
    /// `&&`
    AndIf,
    /// `||`
    OrIf,
}

/// A token, and where it begins.
#[derive(Clone, Copy, Debug, PartialEq, Eq)]
pub struct Token {
    /// What it is.
    pub kind: TokenKind,
    /// How many bytes of the source are before its first byte.
    pub place: u32,
}

/// A token that was read, and where it ends.
#[derive(Clone, Copy, Debug, PartialEq, Eq)]
pub struct TokenRead {
    /// The token.
    pub token: Token,
    /// How many bytes of the source are before what follows the token.
    pub end: usize,
}
