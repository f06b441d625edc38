//! Words that `setexpr` can't have.
ghost use Rattle.std.specs.Prelude.{◌≡◌, IfOk, option_map, ◌&&◌, not};
ghost use Rattle.std.specs.List.{list_any};
ghost use Rattle.hush_syntax.specs.Trees.{words_in};
ghost use Rattle.fw_check.specs.Misuse.{is_calculated_wrong, is_sum_sign, is_text_form, is_value_wrong, may_follow, begin_wrong, is_no_operator, is_operated_wrong};
ghost use Rattle.hush_words.specs.Parts.{word_atoms};
ghost use Rattle.fw_check.specs.Literals.{literal_of};

use crate::foreign::plain_of;
use crate::literals::{is_word_of, literal};
use hush_syntax::{Text, Word};
use std::alloc::{AllocError, Global};

/// Whether `setexpr` with these arguments has other than two or four, or a sum as its value, unless it works on texts.
pub(crate) fn is_calculated_wrong(
    alloc: Global,
    text: &Text,
    words: &[Word],
) -> Result<bool, AllocError>
    ensures { IfOk result (λ wrong. wrong ≡ is_calculated_wrong (words_in text.now words.now)) }
{
    if words.is_empty() {
        return Ok(true);
    }
    is_value_wrong(alloc, text, &words[1..])
}

/// Whether what follows the name is no value, a sum, or more than it without being an operator and a second value.
fn is_value_wrong(alloc: Global, text: &Text, words: &[Word]) -> Result<bool, AllocError>
    ensures { IfOk result (λ wrong. wrong ≡ is_value_wrong (words_in text.now words.now)) }
{
    if words.is_empty() {
        return Ok(true);
    }
    let value = literal(alloc, text, words[0])?;
    let plain = plain_of(alloc, text, words[0])?;
    let follows = may_follow(text, &words[1..]);
    Ok(!is_text_form(&value) && (has_sum_sign(&plain) || !follows))
}

/// Whether there are no words, or two.
fn may_follow(text: &Text, words: &[Word]) -> bool
    ensures { result ≡ may_follow (words_in text.now words.now) }
{
    match words {
        [] => true,
        [_operator, _value] => true,
        _ => false,
    }
}

/// Whether a value is a form of `setexpr` that works on texts.
fn is_text_form(value: &Option<Vec<u8>>) -> bool
    ensures { result ≡ is_text_form (option_map (λ v. v.items) value.now) }
{
    match value {
        Some(value) => is_word_of(&[b"sub", b"gsub", b"fmt"], value),
        None => false,
    }
}

fn has_sum_sign(plain: &[u8]) -> bool
    ensures { result ≡ list_any is_sum_sign plain.now }
{
    plain.iter().any(|b| is_sum_sign(*b))
}

fn is_sum_sign(b: u8) -> bool
    ensures { result ≡ is_sum_sign b }
{
    b == b'+' || b == b'-'
}

/// Whether `setexpr` with these arguments has another operator than there are, and its value is no form of it.
pub(crate) fn is_operated_wrong(
    alloc: Global,
    text: &Text,
    words: &[Word],
) -> Result<bool, AllocError>
    ensures { IfOk result (λ wrong. wrong ≡ is_operated_wrong (words_in text.now words.now)) }
{
    match words {
        [_name, value, rest @ ..] => is_behind_wrong(alloc, text, *value, rest),
        _ => Ok(false),
    }
}

/// The same for its value and what is behind that.
fn is_behind_wrong(
    alloc: Global,
    text: &Text,
    value: Word,
    rest: &[Word],
) -> Result<bool, AllocError>
    ensures { IfOk result (λ wrong. wrong
        ≡ (not (is_text_form (literal_of (word_atoms text.now value))) && begin_wrong (words_in text.now rest.now))) }
{
    let value = literal(alloc, text, value)?;
    let wrong = begin_wrong(alloc, text, rest)?;
    Ok(!is_text_form(&value) && wrong)
}

/// Whether the first of these words is no operator of `setexpr`.
fn begin_wrong(alloc: Global, text: &Text, words: &[Word]) -> Result<bool, AllocError>
    ensures { IfOk result (λ wrong. wrong ≡ begin_wrong (words_in text.now words.now)) }
{
    if words.is_empty() {
        return Ok(false);
    }
    let operator = literal(alloc, text, words[0])?;
    Ok(is_no_operator(&operator))
}

/// The operators of `setexpr`.
const OPERATORS: [&[u8]; 8] = [b"+", b"-", b"*", b"/", b"%", b"&", b"|", b"^"];

fn is_no_operator(word: &Option<Vec<u8>>) -> bool
    ensures { result ≡ is_no_operator (option_map (λ v. v.items) word.now) }
{
    match word {
        Some(word) => !is_word_of(&OPERATORS, word),
        None => false,
    }
}
