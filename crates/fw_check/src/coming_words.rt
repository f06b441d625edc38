//! The words of a script's commands that are still to come, the next one first.
ghost use Rattle.std.specs.Prelude.{◌≡◌, ◌∷◌};

use hush_syntax::Word;
use std::marker::Model;

/// The words of a script that are still to come.
#[derive(Drop)]
pub(crate) struct ComingWords<'s> {
    words: &'s [Word],
}

impl<'s> Model for ComingWords<'s> {
    ghost use Rattle.std.specs.Prelude.{List};
    ghost use Rattle.hush_words.specs.declared.parts.Word.{Word};

    ghost Value = { List Word };

    ghost view = { λ a. a.words.now };
}

impl<'s> ComingWords<'s> {
    ghost use Rattle.std.specs.Prelude.{◌<◌, ◌≤◌, length, take, drop};

    /// All words of a script.
    pub(crate) fn new(words: &'s [Word]) -> ComingWords<'s>
        ensures { result ≡ words.now }
    {
        ComingWords { words }
    }

    /// Takes the word that comes next.
    pub(crate) fn take_one(&mut self) -> Word
        requires { 0 < length self.old }
        ensures { self.old ≡ result ∷ self.new }
    {
        let word = self.words[0];
        self.words = &self.words[1..];
        word
    }

    /// Takes the words that come next, this many.
    pub(crate) fn take(&mut self, count: usize) -> &'s [Word]
        requires { count ≤ length self.old }
        ensures taken { result.now ≡ take count self.old }
        ensures left { self.new ≡ drop count self.old }
    {
        let (taken, left) = self.words.split_at(count);
        self.words = left;
        taken
    }
}
