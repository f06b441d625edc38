//! The reserved words.
ghost use Rattle.std.specs.Prelude.{◌≡◌, map};
ghost use Rattle.hush_words.specs.Forms.{is_plain};
ghost use Rattle.hush_words.specs.Parts.{word_atoms};
ghost use Rattle.hush_words.specs.Words.Atom.{Plain};

use hush_words::{Text, Word};

/// The reserved words. A word is one of them only where a command may begin, and only if all its bytes are unquoted.
#[derive(Clone, Copy, Debug, PartialEq, Eq)]
pub enum Keyword {
    If,
    Then,
    Elif,
    Else,
    Fi,
    For,
    While,
    Until,
    Do,
    Done,
}

impl Keyword {
    ghost use Rattle.hush_syntax.specs.Keywords.{spelling, keyword_of};
    ghost use Rattle.hush_syntax.specs.Reading.{is_closing};

    const ALL: [Keyword; 10] = [
        Keyword::If,
        Keyword::Then,
        Keyword::Elif,
        Keyword::Else,
        Keyword::Fi,
        Keyword::For,
        Keyword::While,
        Keyword::Until,
        Keyword::Do,
        Keyword::Done,
    ];

    /// Its bytes.
    pub fn text(self) -> &'static [u8]
        ensures { result.now ≡ spelling self }
    {
        match self {
            Keyword::If => b"if",
            Keyword::Then => b"then",
            Keyword::Elif => b"elif",
            Keyword::Else => b"else",
            Keyword::Fi => b"fi",
            Keyword::For => b"for",
            Keyword::While => b"while",
            Keyword::Until => b"until",
            Keyword::Do => b"do",
            Keyword::Done => b"done",
        }
    }

    /// The reserved word that a word would be where a command may begin.
    pub(crate) fn of(word: Word, text: &Text) -> Option<Keyword>
        ensures { result ≡ keyword_of (word_atoms text.now word) }
    {
        match word.bare(text) {
            Some(bytes) => Keyword::of_bare(bytes),
            None => Keyword::of_written(word, text),
        }
    }

    /// The same for a word that is these bytes, as most words are: they aren't read anew for each reserved word.
    #[tactic(auto, unfolding(crate::specs::Keywords::keyword_of))]
    fn of_bare(bytes: &[u8]) -> Option<Keyword>
        ensures { result ≡ keyword_of (map Plain bytes.now) }
    {
        Keyword::ALL
            .iter()
            .copied()
            .find(|keyword| keyword.is_spelled(bytes))
    }

    /// The same for a word with quotes, substitutions, escapes or joined lines.
    #[tactic(auto, unfolding(crate::specs::Keywords::keyword_of))]
    fn of_written(word: Word, text: &Text) -> Option<Keyword>
        ensures { result ≡ keyword_of (word_atoms text.now word) }
    {
        Keyword::ALL
            .iter()
            .copied()
            .find(|keyword| word.is_plain(text, keyword.text()))
    }

    /// It is spelled by these bytes.
    #[tactic(auto, using(crate::proofs::Forms::bytes_plain))]
    fn is_spelled(self, bytes: &[u8]) -> bool
        ensures { result ≡ is_plain (spelling self) (map Plain bytes.now) }
    {
        bytes == self.text()
    }

    /// It ends a list of chains.
    pub fn is_closing(self) -> bool
        ensures { result ≡ is_closing self }
    {
        match self {
            Keyword::Then
            | Keyword::Elif
            | Keyword::Else
            | Keyword::Fi
            | Keyword::Do
            | Keyword::Done => true,
            Keyword::If | Keyword::For | Keyword::While | Keyword::Until => false,
        }
    }
}
