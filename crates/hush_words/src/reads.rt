//! What the readers answer, and the places of a word and of a name at which they are.

use crate::{Part, TokenKind};

/// A part, and where it ends.
#[derive(Clone, Copy)]
pub(crate) struct PartRead {
    pub(crate) part: Part,
    pub(crate) end: usize,
}

/// What is at a place between double quotes: a part, or `None` for a joined line, and where it ends.
#[derive(Clone, Copy)]
pub(crate) struct InnerRead {
    pub(crate) part: Option<Part>,
    pub(crate) end: usize,
}

/// What is at a place where no word is open: a token, or `None` for what is passed over, and where it ends.
#[derive(Clone, Copy)]
pub(crate) struct LexemeRead {
    pub(crate) kind: Option<TokenKind>,
    pub(crate) end: usize,
}

/// The pair of quotes that a place of a word is in.
#[derive(Clone, Copy, Debug)]
pub(crate) enum Inside {
    Nothing,
    Single,
    Double,
}

/// A place of a word: how many bytes of the source are before it, and in which quotes it is.
#[derive(Clone, Copy, Debug)]
pub(crate) struct Place {
    pub(crate) at: usize,
    pub(crate) inside: Inside,
}

/// What is at a place of a word: a part, or `None` for what is passed over, and the place after it.
#[derive(Clone, Copy)]
pub(crate) struct PlaceRead {
    pub(crate) part: Option<Part>,
    pub(crate) next: Place,
}

/// A place within a name, and whether the name has begun before it.
#[derive(Clone, Copy)]
pub(crate) struct NamePlace {
    pub(crate) at: usize,
    pub(crate) begun: bool,
}
