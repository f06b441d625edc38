//! The places of a script: which forms are open there, and what may come next.
ghost use Rattle.std.specs.Prelude.{◌≡◌};
ghost use Rattle.hush_words.specs.Views.{kind_token};
ghost use Rattle.hush_syntax.specs.Halts.{met_by};

use crate::SyntaxFault;
use crate::keywords::Keyword;
use crate::nodes::Bodies;
use hush_words::{Text, Token, TokenKind};

/// The list of a form that is open.
#[derive(Clone, Copy, Debug, PartialEq, Eq)]
pub enum Stage {
    /// Behind `if` or `elif`; `then` ends it.
    Condition,
    /// Behind `then`; `elif`, `else` or `fi` ends it.
    Branch,
    /// Behind `else`; `fi` ends it.
    Otherwise,
    /// Behind `for`, `while` or `until`; `do` ends it.
    Head,
    /// Behind `do`; `done` ends it.
    Body,
}

/// A form that is open.
#[derive(Clone, Copy, Debug, PartialEq, Eq)]
pub struct Form {
    /// Its first word: `if`, `for`, `while` or `until`.
    pub keyword: Keyword,
    /// How many bytes of the text are before that.
    pub place: usize,
    /// Which of its lists is open.
    pub stage: Stage,
}

/// What may come next.
#[derive(Clone, Copy, Debug, PartialEq, Eq)]
pub enum Ahead {
    /// Where a script or a condition begins: a command, and separators before it.
    Start,
    /// Directly behind `then`: as `Body`, but no `elif`.
    Then,
    /// Where a body begins: a command, and separators before it; or what ends the body, if it may be empty.
    Body,
    /// Behind a separator in a list: a command, or what ends the list.
    More,
    /// Behind `&&` or `||`: a command, and newlines before it.
    Operand,
    /// In a simple command: words, or what ends a command.
    Words,
    /// Behind an assignment: what ends a command.
    Assigned,
    /// Behind `fi` or `done`: what ends a command.
    Closed,
    /// Behind `for`: a name.
    Name,
    /// Behind the name of a `for`: `in`.
    In,
    /// Behind that: words, or a separator.
    List,
    /// Behind a separator after these: `do`, and separators before it.
    Do,
}

impl Ahead {
    ghost use Rattle.hush_syntax.specs.Halts.{may_end};

    /// A list may end here with this word.
    pub(crate) fn may_end(self, bodies: Bodies, keyword: Keyword) -> bool
        ensures { result ≡ may_end bodies self keyword }
    {
        match self {
            Ahead::More => true,
            Ahead::Body => bodies.may_be_empty(),
            Ahead::Then => bodies.may_be_empty() && keyword != Keyword::Elif,
            _ => false,
        }
    }
}

/// A token, or the end of the text.
#[derive(Clone, Copy, Debug, PartialEq, Eq)]
pub enum Met {
    /// A newline.
    Newline,
    /// `;`
    Semicolon,
    /// `&&`
    AndIf,
    /// `||`
    OrIf,
    /// A word that is reserved where a command may begin.
    Reserved(Keyword),
    /// Any other word.
    Word,
    /// The end of the text, or of what can be read of it.
    End,
}

impl Met {
    /// What a token is.
    pub(crate) fn of(token: Token, text: &Text) -> Met
        ensures { result ≡ met_by (kind_token text.now token.kind) }
    {
        match token.kind {
            TokenKind::Word(word) => match Keyword::of(word, text) {
                Some(keyword) => Met::Reserved(keyword),
                None => Met::Word,
            },
            TokenKind::Newline => Met::Newline,
            TokenKind::Semicolon => Met::Semicolon,
            TokenKind::AndIf => Met::AndIf,
            TokenKind::OrIf => Met::OrIf,
        }
    }
}

/// Where a text stops being a script.
#[derive(Clone, Copy, Debug, PartialEq, Eq)]
pub struct Halt {
    /// What is wrong there.
    pub fault: SyntaxFault,
    /// The innermost form that is open there.
    pub form: Option<Form>,
    /// What might have come next.
    pub ahead: Ahead,
    /// What came.
    pub met: Met,
}
