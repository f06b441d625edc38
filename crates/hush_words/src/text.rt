//! A script's bytes, which its words are ranges of.
ghost use Rattle.std.specs.Prelude.{◌≡◌, ◌≤◌, ◌<◌, IfOk, OnErr, length};
ghost use Rattle.hush_words.specs.Parts.{written, span_bytes, word_atoms};
ghost use Rattle.hush_words.specs.Ranges.{IsWithin};

use crate::{Parts, Span, Word};
use std::alloc::AllocError;
use std::marker::Model;

/// A text, from which tokens, words and parts are read. It keeps only its bytes.
#[derive(Debug, Drop)]
pub struct Text {
    source: Vec<u8>,
}

impl Model for Text {
    ghost use Rattle.hush_words.specs.Parts.{Written};
    ghost use Rattle.hush_words.specs.Ranges.{IsShort};

    ghost Value = { Written };

    ghost view = { λ t. record { source = t.source.items } };

    ghost invariant = { λ t. IsShort t.source.items };
}

impl Text {
    /// A text of these bytes. It takes no memory.
    ///
    /// # Errors
    ///
    /// There are more bytes than 32 bits can count, as in no text that the program reads. That is reported as a
    /// refused allocation, and isn't one.
    pub fn new(source: Vec<u8>) -> Result<Text, AllocError>
        ensures text { IfOk result (λ text. text ≡ written source.items) }
        ensures refused_only { OnErr result (u32.MAX < length source.items) }
    {
        if source.len() > u32::MAX as usize {
            return Err(AllocError);
        }
        Ok(Text { source })
    }

    /// The text, byte for byte.
    pub fn source(&self) -> &[u8]
        ensures bytes { result.now ≡ self.now.source }
        ensures few { length self.now.source ≤ u32.MAX }
    {
        self.source.as_slice()
    }

    /// The parts of a word of this text, or of any other range of it that is read as one.
    pub fn parts(&self, word: Word) -> Parts<'_>
        ensures source { result.source ≡ self.now.source }
        ensures atoms { result.atoms ≡ word_atoms self.now word }
        ensures bytes { result.bytes ≤ length self.now.source }
    {
        Parts::new(self.source(), word.start as usize, word.end as usize)
    }

    /// The bytes of a range of this text, as those of its parts are.
    pub fn bytes(&self, range: Span) -> &[u8]
        requires { IsWithin self.now.source range }
        ensures { result.now ≡ span_bytes self.now.source range }
    {
        range.of(self.source.as_slice())
    }
}
