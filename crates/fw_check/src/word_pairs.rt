//! Words that make no sense side by side: a `run` inside another command, and a number compared with a word.
ghost use Rattle.std.specs.Prelude.{◌≡◌, IfOk, None, option_map};
ghost use Rattle.hush_syntax.specs.Trees.{words_in};
ghost use Rattle.fw_check.specs.Looking.{known_in};
ghost use Rattle.fw_check.specs.Misuse.{begins_with_letter, compares_numbers, has_lost_run, has_odd, is_lost_run, is_no_number, is_odd};

use crate::literals::{is_called, is_word_of, literal};
use crate::lookups::Lookups;
use hush_syntax::{Text, Word};
use std::alloc::{AllocError, Global};

/// Whether a `run` is inside these arguments, and the name of a variable behind it.
pub(crate) fn has_lost_run(
    lookups: &Lookups<'_>,
    text: &Text,
    words: &[Word],
) -> Result<bool, AllocError>
    ensures { IfOk result (λ lost. lost ≡ has_lost_run (known_in lookups.now) None (words_in text.now words.now)) }
{
    let mut before = None;
    for word in words {
        let bytes = literal(lookups.alloc, text, *word)?;
        if is_lost_run(lookups, &before, &bytes) {
            return Ok(true);
        }
        before = bytes;
    }
    Ok(false)
}

fn is_lost_run(lookups: &Lookups<'_>, first: &Option<Vec<u8>>, second: &Option<Vec<u8>>) -> bool
    ensures { result ≡ is_lost_run (known_in lookups.now) (option_map (λ v. v.items) first.now) (option_map (λ v. v.items) second.now) }
{
    match second {
        Some(name) => is_called(first, b"run") && lookups.is_defined(name),
        None => false,
    }
}

/// The comparisons of numbers.
const OF_NUMBERS: [&[u8]; 6] = [b"-eq", b"-ne", b"-lt", b"-le", b"-gt", b"-ge"];

/// Whether a comparison of numbers is beside a word that is none.
pub(crate) fn has_odd(alloc: Global, text: &Text, words: &[Word]) -> Result<bool, AllocError>
    ensures { IfOk result (λ odd. odd ≡ has_odd None (words_in text.now words.now)) }
{
    let mut before = None;
    for word in words {
        let bytes = literal(alloc, text, *word)?;
        if is_odd(&before, &bytes) {
            return Ok(true);
        }
        before = bytes;
    }
    Ok(false)
}

/// Whether one of two words compares numbers, and the other is none.
fn is_odd(first: &Option<Vec<u8>>, second: &Option<Vec<u8>>) -> bool
    ensures { result ≡ is_odd (option_map (λ v. v.items) first.now) (option_map (λ v. v.items) second.now) }
{
    (compares_numbers(first) && is_no_number(second))
        || (is_no_number(first) && compares_numbers(second))
}

fn compares_numbers(word: &Option<Vec<u8>>) -> bool
    ensures { result ≡ compares_numbers (option_map (λ v. v.items) word.now) }
{
    match word {
        Some(word) => is_word_of(&OF_NUMBERS, word),
        None => false,
    }
}

/// Whether a word counts 0, since it begins with a letter.
fn is_no_number(word: &Option<Vec<u8>>) -> bool
    ensures { result ≡ is_no_number (option_map (λ v. v.items) word.now) }
{
    match word {
        Some(word) => begins_with_letter(word),
        None => false,
    }
}

fn begins_with_letter(word: &[u8]) -> bool
    ensures { result ≡ begins_with_letter word.now }
{
    match word {
        [first, ..] => first.is_ascii_alphabetic(),
        _ => false,
    }
}
