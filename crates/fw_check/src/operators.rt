//! Words of `test` in the place of an operator that aren't one, and those that are no expression.
ghost use Rattle.std.specs.Prelude.{◌≡◌, ℕ, ◌==◌, ◌&&◌, not, fold, length, IfOk, None, option_map};
ghost use Rattle.std.specs.List.{list_all};
ghost use Rattle.fw_check.specs.Expecting.{expected_view, suspect_view};
ghost use Rattle.fw_check.specs.CommandFindings.{after_field};
ghost use Rattle.fw_check.specs.Operators.{ATerm, AfterValue, Joint, Operator, Unclear, after_board_term, after_joined, after_operand, after_strict_term, after_term, after_word, begins_option, compared_or, ends_at, is_broken, is_sign, looks_like_operator, or_first, or_unclear, suspect, wrong_in};

use crate::literals::{is_word_of, literal};
use hush_commands::Shell;
use hush_syntax::{Text, Word};
use std::alloc::{AllocError, Global};

/// A word that looks like an operator.
#[derive(Drop)]
pub(crate) struct Suspect {
    /// How many bytes of the script are before it.
    pub(crate) count: usize,
    pub(crate) bytes: Vec<u8>,
}

/// What is expected of the next word of a test.
#[derive(Drop)]
enum Expected {
    /// A negation, `-n`, `-z`, or the first word of a comparison.
    ATerm,
    /// The operator of a comparison, whose first word may look like an operator.
    Operator(Option<Suspect>),
    /// What is behind a word with a substitution.
    AfterValue,
    /// The last word of a term.
    Operand,
    /// `-a` or `-o`.
    Joint,
    /// On a board the operator of a comparison of a `!`, `-a` or `-o`, else a term.
    Joined,
    /// The operator of a comparison of a board's `-n` or `-z`, else the last word of that term.
    Tested,
    /// The same of its `-e`, else the interface; then the device, and the file as an operand.
    Interface,
    /// The device after it.
    Device,
    /// What is behind such a word and one that is no operator.
    Unclear,
    /// That depends on values.
    Nothing,
    /// The words aren't an expression, for another reason than an operator.
    Broken,
    /// This isn't an operator.
    Wrong(Suspect),
}

const COMPARISONS: [&[u8]; 10] = [
    b"=", b"!=", b"<", b">", b"-eq", b"-ne", b"-lt", b"-le", b"-gt", b"-ge",
];

/// The first of these words of a test that is in the place of an operator and looks like one, but isn't one by the rules of
/// the shell; and whether they aren't an expression for another reason.
pub(crate) fn tested(
    alloc: Global,
    shell: Shell,
    text: &Text,
    words: &[Word],
) -> Result<(Option<Suspect>, bool), AllocError>
    ensures { IfOk result
        (λ seen. (option_map suspect_view seen.0 ≡ wrong_in (fold (after_field shell text.now) ATerm words.now))
        × (seen.1 ≡ is_broken (fold (after_field shell text.now) ATerm words.now))) }
{
    let mut expected = Expected::ATerm;
    for word in words {
        let bytes = literal(alloc, text, *word)?;
        expected = after_word(shell, expected, word.start as usize, bytes);
    }
    let broken = is_broken(&expected);
    Ok((wrong_in(expected), broken))
}

/// What is expected after one more word, which has these bytes if it is without a substitution.
fn after_word(shell: Shell, expected: Expected, count: usize, bytes: Option<Vec<u8>>) -> Expected
    ensures { expected_view result
        ≡ after_word shell (expected_view expected) count (option_map (λ v. v.items) bytes) }
{
    match expected {
        Expected::ATerm => after_term(shell, count, bytes),
        Expected::Operator(first) => after_operator(first, count, bytes),
        Expected::AfterValue => after_value(count, bytes),
        Expected::Unclear => after_unclear(bytes),
        Expected::Operand => after_operand(shell),
        Expected::Joint => after_joint(count, bytes),
        Expected::Joined => after_joined(shell, count, bytes),
        Expected::Tested => compared_or(after_operand(shell), bytes),
        Expected::Interface => compared_or(Expected::Device, bytes),
        Expected::Device => Expected::Operand,
        Expected::Nothing => Expected::Nothing,
        Expected::Broken => Expected::Broken,
        Expected::Wrong(wrong) => Expected::Wrong(wrong),
    }
}

fn after_term(shell: Shell, count: usize, bytes: Option<Vec<u8>>) -> Expected
    ensures { expected_view result ≡ after_term shell count (option_map (λ v. v.items) bytes) }
{
    match bytes {
        None => Expected::AfterValue,
        Some(bytes) => match shell {
            Shell::Strict => after_strict_term(count, bytes),
            Shell::Board => after_board_term(count, bytes),
        },
    }
}

fn after_strict_term(count: usize, bytes: Vec<u8>) -> Expected
    ensures { expected_view result ≡ after_strict_term count bytes.items }
{
    if is_word_of(&[b"!"], &bytes) {
        Expected::ATerm
    } else if is_word_of(&[b"-n", b"-z"], &bytes) {
        Expected::Operand
    } else {
        Expected::Operator(suspected(count, bytes))
    }
}

fn after_board_term(count: usize, bytes: Vec<u8>) -> Expected
    ensures { expected_view result ≡ after_board_term count bytes.items }
{
    if is_word_of(&[b"!", b"-a", b"-o"], &bytes) {
        Expected::Joined
    } else if is_word_of(&[b"-n", b"-z"], &bytes) {
        Expected::Tested
    } else if is_word_of(&[b"-e"], &bytes) {
        Expected::Interface
    } else {
        Expected::Operator(suspected(count, bytes))
    }
}

/// The last word of a comparison is expected, if this is its operator, else this.
fn compared_or(other: Expected, bytes: Option<Vec<u8>>) -> Expected
    ensures { expected_view result ≡ compared_or (expected_view other) (option_map (λ v. v.items) bytes) }
{
    match bytes {
        Some(bytes) if is_word_of(&COMPARISONS, &bytes) => Expected::Operand,
        _ => other,
    }
}

/// What is expected after the last word of a term.
fn after_operand(shell: Shell) -> Expected
    ensures { expected_view result ≡ after_operand shell }
{
    match shell {
        Shell::Strict => Expected::Joint,
        Shell::Board => Expected::ATerm,
    }
}

fn after_operator(first: Option<Suspect>, count: usize, bytes: Option<Vec<u8>>) -> Expected
    ensures { (shell : Shell) → expected_view result
        ≡ after_word shell (Operator (option_map suspect_view first)) count (option_map (λ v. v.items) bytes) }
{
    match bytes {
        None => ends_at(first),
        Some(bytes) => {
            if is_word_of(&COMPARISONS, &bytes) {
                Expected::Operand
            } else {
                or_first(suspected(count, bytes), first)
            }
        }
    }
}

fn after_value(count: usize, bytes: Option<Vec<u8>>) -> Expected
    ensures { (shell : Shell) → expected_view result ≡ after_word shell AfterValue count (option_map (λ v. v.items) bytes) }
{
    match bytes {
        None => Expected::Nothing,
        Some(bytes) => {
            if is_word_of(&COMPARISONS, &bytes) {
                Expected::Operand
            } else {
                or_unclear(suspected(count, bytes))
            }
        }
    }
}

fn after_unclear(bytes: Option<Vec<u8>>) -> Expected
    ensures { (shell : Shell) → (count : ℕ) → expected_view result
        ≡ after_word shell Unclear count (option_map (λ v. v.items) bytes) }
{
    match bytes {
        None => Expected::Nothing,
        Some(bytes) => {
            if is_word_of(&COMPARISONS, &bytes) || is_word_of(&[b"-a", b"-o"], &bytes) {
                Expected::Nothing
            } else {
                Expected::Broken
            }
        }
    }
}

fn or_unclear(wrong: Option<Suspect>) -> Expected
    ensures { expected_view result ≡ or_unclear (option_map suspect_view wrong) }
{
    match wrong {
        Some(wrong) => Expected::Wrong(wrong),
        None => Expected::Unclear,
    }
}

fn after_joint(count: usize, bytes: Option<Vec<u8>>) -> Expected
    ensures { (shell : Shell) → expected_view result ≡ after_word shell Joint count (option_map (λ v. v.items) bytes) }
{
    match bytes {
        None => Expected::Nothing,
        Some(bytes) => {
            if is_word_of(&[b"-a", b"-o"], &bytes) {
                Expected::ATerm
            } else {
                or_first(suspected(count, bytes), None)
            }
        }
    }
}

fn after_joined(shell: Shell, count: usize, bytes: Option<Vec<u8>>) -> Expected
    ensures { expected_view result ≡ after_joined shell count (option_map (λ v. v.items) bytes) }
{
    match bytes {
        None => Expected::AfterValue,
        Some(bytes) => {
            if is_word_of(&COMPARISONS, &bytes) {
                Expected::Operand
            } else {
                after_term(shell, count, Some(bytes))
            }
        }
    }
}

fn ends_at(wrong: Option<Suspect>) -> Expected
    ensures { expected_view result ≡ ends_at (option_map suspect_view wrong) }
{
    match wrong {
        Some(wrong) => Expected::Wrong(wrong),
        None => Expected::Nothing,
    }
}

fn or_first(wrong: Option<Suspect>, first: Option<Suspect>) -> Expected
    ensures { expected_view result ≡ or_first (option_map suspect_view wrong) (option_map suspect_view first) }
{
    match wrong {
        Some(wrong) => Expected::Wrong(wrong),
        None => or_broken(first),
    }
}

fn or_broken(first: Option<Suspect>) -> Expected
    ensures { expected_view result ≡ or_first None (option_map suspect_view first) }
{
    match first {
        Some(first) => Expected::Wrong(first),
        None => Expected::Broken,
    }
}

/// Whether the words aren't an expression.
fn is_broken(expected: &Expected) -> bool
    ensures { result ≡ is_broken (expected_view expected.now) }
{
    match expected {
        Expected::Operator(first) => first.is_none(),
        Expected::AfterValue | Expected::Operand | Expected::Broken => true,
        Expected::Tested | Expected::Interface | Expected::Device => true,
        Expected::ATerm | Expected::Joint | Expected::Joined => false,
        Expected::Nothing | Expected::Unclear | Expected::Wrong(_) => false,
    }
}

/// The word that was wrong, if one was.
fn wrong_in(expected: Expected) -> Option<Suspect>
    ensures { option_map suspect_view result ≡ wrong_in (expected_view expected) }
{
    match expected {
        Expected::Wrong(wrong) => Some(wrong),
        Expected::Operator(first) => first,
        Expected::ATerm | Expected::Operand | Expected::Joint | Expected::Nothing => None,
        Expected::Joined | Expected::Tested => None,
        Expected::Interface | Expected::Device => None,
        Expected::AfterValue | Expected::Unclear | Expected::Broken => None,
    }
}

/// The word, if it looks like an operator.
fn suspected(count: usize, bytes: Vec<u8>) -> Option<Suspect>
    ensures { option_map suspect_view result ≡ suspect count bytes.items }
{
    if looks_like_operator(&bytes) {
        Some(Suspect { count, bytes })
    } else {
        None
    }
}

/// Whether a word is written as operators are: a `-` and a letter first, or only bytes of `=!<>~`.
fn looks_like_operator(word: &[u8]) -> bool
    ensures { result ≡ looks_like_operator word.now }
{
    begins_option(word) || are_signs(word)
}

fn begins_option(word: &[u8]) -> bool
    ensures { result ≡ begins_option word.now }
{
    match word {
        [first, second, ..] => *first == b'-' && second.is_ascii_alphabetic(),
        _ => false,
    }
}

fn are_signs(word: &[u8]) -> bool
    ensures { result ≡ (not (length word.now == 0) && list_all is_sign word.now) }
{
    !word.is_empty() && all_signs(word)
}

fn all_signs(word: &[u8]) -> bool
    ensures { result ≡ list_all is_sign word.now }
{
    word.iter().all(|b| is_sign(*b))
}

fn is_sign(b: u8) -> bool
    ensures { result ≡ is_sign b }
{
    b == b'=' || b == b'!' || b == b'<' || b == b'>' || b == b'~'
}
