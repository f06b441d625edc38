//! Words without a substitution, as texts, and what others begin with.
ghost use Rattle.std.specs.Prelude.{◌≡◌, ℕ, List, IfOk, map, option_copied, option_map};
ghost use Rattle.std.specs.List.{list_any};
ghost use Rattle.hush_syntax.specs.Trees.{name_in};
ghost use Rattle.hush_words.specs.Parts.{part_atoms, word_atoms};
ghost use Rattle.hush_words.specs.Ranges.{Fits};
ghost use Rattle.fw_check.specs.Literals.{front_of, is_called, is_mark, is_shown, is_word_of, literal_of, whole_of};
ghost use Rattle.fw_check.specs.Looking.{front_view};

use hush_calc::is_text;
use hush_syntax::{Part, Text, Word};
use std::alloc::{AllocError, Global};

/// What a word begins with.
#[derive(Drop)]
pub(crate) struct Front {
    /// The bytes before its first substitution.
    pub(crate) bytes: Vec<u8>,
    /// Whether it has no substitution.
    pub(crate) is_whole: bool,
}

/// What a word begins with.
pub(crate) fn front_of(alloc: Global, text: &Text, word: Word) -> Result<Front, AllocError>
    ensures { IfOk result (λ front. front_view front ≡ front_of (word_atoms text.now word)) }
{
    let mut bytes = Vec::new(alloc);
    let mut left = text.parts(word);
    while let Some(part) = left.next_part() {
        match literal_part(text, part) {
            Some(more) => bytes.extend_from_slice(more)?,
            None => {
                return Ok(Front {
                    bytes,
                    is_whole: false,
                });
            }
        }
    }
    Ok(Front {
        bytes,
        is_whole: true,
    })
}

/// The bytes of a word without a substitution; `None` for another.
pub(crate) fn literal(alloc: Global, text: &Text, word: Word) -> Result<Option<Vec<u8>>, AllocError>
    ensures { IfOk result (λ bytes. option_map (λ v. v.items) bytes ≡ literal_of (word_atoms text.now word)) }
{
    let front = front_of(alloc, text, word)?;
    Ok(whole(front))
}

/// The bytes of a whole word.
fn whole(front: Front) -> Option<Vec<u8>>
    ensures { option_map (λ v. v.items) result ≡ whole_of (front_view front) }
{
    if front.is_whole {
        Some(front.bytes)
    } else {
        None
    }
}

/// The bytes of a part that isn't a substitution.
fn literal_part(text: &Text, part: Part) -> Option<&[u8]>
    requires { Fits text.now.source part }
    ensures { option_copied result ≡ literal_of (part_atoms text.now.source part) }
{
    match part {
        Part::Plain(span) => Some(text.bytes(span)),
        Part::Quoted(span) => Some(text.bytes(span)),
        Part::Mark => Some(b""),
        Part::Value(_, _) => None,
        Part::Status(_) => None,
    }
}

/// The name that a word is; no bytes if it isn't one.
pub(crate) fn name_in(alloc: Global, text: &Text, word: Word) -> Result<Vec<u8>, AllocError>
    ensures { IfOk result (λ name. name.items ≡ name_in text.now word) }
{
    if !word.is_name(text) {
        return Ok(Vec::new(alloc));
    }
    match literal(alloc, text, word)? {
        Some(name) => Ok(name),
        None => Ok(Vec::new(alloc)),
    }
}

/// Whether a word has a `$?`.
pub(crate) fn has_status(text: &Text, word: Word) -> bool
    ensures { result ≡ list_any is_shown (word_atoms text.now word) }
{
    let mut left = text.parts(word);
    while let Some(part) = left.next_part() {
        if is_status(part) {
            return true;
        }
    }
    false
}

fn is_status(part: Part) -> bool
    ensures { (source : List ℕ) → result ≡ list_any is_shown (part_atoms source part) }
{
    match part {
        Part::Status(_) => true,
        Part::Plain(_) => false,
        Part::Quoted(_) => false,
        Part::Mark => false,
        Part::Value(_, _) => false,
    }
}

/// Whether a word has quotes.
pub(crate) fn has_mark(text: &Text, word: Word) -> bool
    ensures { result ≡ list_any is_mark (word_atoms text.now word) }
{
    let mut left = text.parts(word);
    while let Some(part) = left.next_part() {
        if is_mark(part) {
            return true;
        }
    }
    false
}

fn is_mark(part: Part) -> bool
    ensures { (source : List ℕ) → result ≡ list_any is_mark (part_atoms source part) }
{
    match part {
        Part::Mark => true,
        Part::Plain(_) => false,
        Part::Quoted(_) => false,
        Part::Value(_, _) => false,
        Part::Status(_) => false,
    }
}

/// Whether a word without a substitution is this text.
pub(crate) fn is_called(called: &Option<Vec<u8>>, text: &[u8]) -> bool
    ensures { result ≡ is_called text.now (option_map (λ v. v.items) called.now) }
{
    match called {
        Some(name) => is_text(name, text),
        None => false,
    }
}

/// Whether a word is one of these texts.
pub(crate) fn is_word_of(texts: &[&[u8]], word: &[u8]) -> bool
    ensures { result ≡ is_word_of (map (λ t. t.now) texts.now) word.now }
{
    for text in texts {
        if is_text(word, text) {
            return true;
        }
    }
    false
}
