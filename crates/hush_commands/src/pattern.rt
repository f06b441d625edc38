//! Patterns of calls, by which a board's rules answer (docs/runs.md, "Boards").
ghost use Rattle.std.specs.Prelude.{◌≡◌, ◌≤◌, IfOk, ◌∷◌, codes, drop, take, length, if◌then◌else◌, None, Some, option_map};
ghost use Rattle.hush_commands.specs.CommandNames.{pattern_name};
ghost use Rattle.hush_commands.specs.Hardware.{word_fits, pattern_fits};

use hush_calc::{Fields, is_text};
use std::alloc::{AllocError, Global};
use std::marker::Model;

/// Bytes that it owns.
#[derive(Drop)]
pub struct Bytes {
    items: Vec<u8>,
}

impl Model for Bytes {
    ghost use Rattle.std.specs.Prelude.{ℕ, List};

    ghost Value = { List ℕ };

    ghost view = { λ a. a.items.items };
}

impl Bytes {
    /// These bytes, in memory of their own.
    pub fn of(alloc: Global, bytes: &[u8]) -> Result<Bytes, AllocError>
        ensures { IfOk result (λ own. own ≡ bytes.now) }
    {
        let items = Vec::from_slice(alloc, bytes)?;
        Ok(Bytes { items })
    }

    /// The bytes.
    pub fn as_bytes(&self) -> &[u8]
        ensures { result.now ≡ self.now }
    {
        self.items.as_slice()
    }

    /// The same bytes in memory of their own.
    pub(crate) fn copy(&self, alloc: Global) -> Result<Bytes, AllocError>
        ensures { IfOk result (λ copy. copy ≡ self.now) }
    {
        Bytes::of(alloc, self.as_bytes())
    }

    /// The bytes, given away.
    pub fn into_vec(self) -> Vec<u8>
        ensures { result.items ≡ self }
    {
        self.items
    }
}

/// A word of a pattern.
#[derive(Drop)]
pub struct PatternWord {
    /// Its bytes.
    pub text: Bytes,
    /// Whether a `*` comes after these: it fits each word that begins with them.
    pub begins: bool,
}

impl PatternWord {
    /// The same word in memory of its own.
    fn copy(&self, alloc: Global) -> Result<PatternWord, AllocError>
        ensures { IfOk result (λ copy. copy ≡ self.now) }
    {
        Ok(PatternWord {
            text: self.text.copy(alloc)?,
            begins: self.begins,
        })
    }

    /// The word, if nothing comes after it.
    fn whole(&self) -> Option<&[u8]>
        ensures { option_map (λ name. name.now) result ≡ (if self.now.begins then None else Some self.now.text) }
    {
        if self.begins {
            None
        } else {
            Some(self.text.as_bytes())
        }
    }

    /// Whether it fits a word of a call.
    fn fits(&self, word: &[u8]) -> bool
        ensures { result ≡ word_fits self.now word.now }
    {
        let text = self.text.as_bytes();
        if self.begins {
            let (front, _back) = word.split_at(text.len().min(word.len()));
            is_text(front, text)
        } else {
            is_text(word, text)
        }
    }
}

/// The words of a pattern.
#[derive(Drop)]
pub struct Pattern {
    words: Vec<PatternWord>,
}

impl Model for Pattern {
    ghost use Rattle.std.specs.Prelude.{List};
    ghost use Rattle.hush_commands.specs.declared.pattern.PatternWord.{PatternWord};

    ghost Value = { List PatternWord };

    ghost view = { λ a. a.words.items };
}

impl Pattern {
    /// The pattern of these words.
    pub fn of(words: Vec<PatternWord>) -> Pattern
        ensures { result ≡ words.items }
    {
        Pattern { words }
    }

    /// Whether it fits a call of this name with these words.
    pub(crate) fn fits(&self, called: &[u8], words: Fields<'_>) -> bool
        ensures { result ≡ pattern_fits self.now (called.now ∷ words.entry) }
    {
        fit_call(self.words.as_slice(), called, words)
    }

    /// Whether it fits the call `test -e` of these words.
    pub(crate) fn fits_file(&self, words: Fields<'_>) -> bool
        ensures { result ≡ pattern_fits self.now (codes "test" ∷ codes "-e" ∷ words.entry) }
    {
        match self.words.as_slice().split_first() {
            Some((word, others)) => word.fits(b"test") && fit_call(others, b"-e", words),
            None => true,
        }
    }

    /// The same pattern in memory of its own.
    pub(crate) fn copy(&self, alloc: Global) -> Result<Pattern, AllocError>
        ensures { IfOk result (λ copy. copy ≡ self.now) }
    {
        let mut words = Vec::new(alloc);
        for word in &self.words {
            words.push(word.copy(alloc)?)?;
        }
        Ok(Pattern { words })
    }

    /// How many words it has.
    pub(crate) fn len(&self) -> usize
        ensures { result ≡ length self.now }
    {
        self.words.len()
    }

    /// The name of the calls that it fits, if its first word is one.
    pub(crate) fn name(&self) -> Option<&[u8]>
        ensures { option_map (λ name. name.now) result ≡ pattern_name self.now }
    {
        match self.words.as_slice().split_first() {
            Some((word, _others)) => word.whole(),
            None => None,
        }
    }
}

/// Whether the words of a pattern fit a call of this name with these words.
fn fit_call(pattern: &[PatternWord], called: &[u8], words: Fields<'_>) -> bool
    ensures { result ≡ pattern_fits pattern.now (called.now ∷ words.entry) }
{
    match pattern.split_first() {
        Some((word, others)) => word.fits(called) && fit_words(others, words),
        None => true,
    }
}

/// Whether the words of a pattern fit the words of a call: one by one, and the call may have further words.
fn fit_words(pattern: &[PatternWord], fields: Fields<'_>) -> bool
    ensures { result ≡ pattern_fits pattern.now fields.entry }
{
    let mut words = pattern;
    let mut rest = fields;
    while let Some((word, others)) = words.split_first() {
        let Some(field) = rest.next() else {
            return false;
        };
        if !word.fits(field) {
            return false;
        }
        words = others;
    }
    true
}

/// How many fields there are.
pub(crate) fn count(fields: &Fields<'_>) -> usize
    ensures count { result ≡ length fields.now }
    ensures few { result ≤ 9223372036854775807 }
{
    let (_bytes, lengths) = fields.parts();
    lengths.len()
}

/// The first fields, at most so many.
pub(crate) fn front<'a>(most: usize, fields: &Fields<'a>) -> Fields<'a>
    ensures { result ≡ take most fields.now }
{
    let (bytes, lengths) = fields.parts();
    if lengths.len() <= most {
        return fields.again();
    }
    Fields::new(bytes, &lengths[..most])
}

/// The fields behind the first.
pub(crate) fn behind_first<'a>(fields: &Fields<'a>) -> Fields<'a>
    ensures { result ≡ drop 1 fields.now }
{
    let mut rest = fields.again();
    match rest.next() {
        Some(_first) => rest,
        None => rest,
    }
}
