//! The patterns of a board file.
ghost use Rattle.std.specs.Prelude.{◌≡◌, ◌||◌, if◌then◌else◌, [], ◌∷◌, codes, IfOk, filter, length, map};
ghost use Rattle.std.specs.Str.{bytes_eq};
ghost use Rattle.hush_commands.specs.CommandNames.{begins_with as is_beginning};
ghost use Rattle.hush_commands.specs.StandInLines.{words_of};
ghost use Rattle.board_file.specs.Patterns.{asks_env, asks_file, asks_setexpr, is_answered, is_asked, is_just, is_subcommand, names_builtin, names_subcommand, only_widths};
ghost use Rattle.board_file.specs.Patterns.{first_fault, pattern_fault, pattern_word, pattern_words};

use crate::board_fault::LineFault;
use crate::line_parts::next_word;
use hush_calc::is_text;
use hush_commands::{Bytes, PatternWord, is_builtin};
use memchr::memchr;
use std::alloc::{AllocError, Global};
use text_parts::begins_with_byte;

/// How many words a pattern may have, which each call is compared with: as many as a command takes on any board of U-Boot's.
const MOST_WORDS: usize = 256;

/// The names of the builtins.
const BUILTINS: [&[u8]; 11] = [
    b"true",
    b"false",
    b"echo",
    b"setenv",
    b"printenv",
    b"saveenv",
    b"run",
    b"env",
    b"test",
    b"setexpr",
    b"exit",
];

/// The words of a pattern, from its text.
pub(crate) fn read_words(alloc: Global, text: &[u8]) -> Result<Vec<PatternWord>, AllocError>
    ensures { IfOk result (λ words. words.items ≡ pattern_words (words_of text.now)) }
{
    let mut words = Vec::new(alloc);
    let mut rest = text;
    while let Some((word, others)) = next_word(rest) {
        words.push(pattern_word(alloc, word)?)?;
        rest = others;
    }
    Ok(words)
}

/// The pattern of one word.
pub(crate) fn one_word(alloc: Global, word: &[u8]) -> Result<Vec<PatternWord>, AllocError>
    ensures { IfOk result (λ words. words.items ≡ pattern_word word.now ∷ []) }
{
    let mut words = Vec::new(alloc);
    words.push(pattern_word(alloc, word)?)?;
    Ok(words)
}

/// A word of a pattern, from its text.
fn pattern_word(alloc: Global, word: &[u8]) -> Result<PatternWord, AllocError>
    ensures { IfOk result (λ own. own ≡ pattern_word word.now) }
{
    match word.split_last() {
        Some((last, front)) if *last == b'*' => word_of(alloc, front, true),
        _ => word_of(alloc, word, false),
    }
}

/// A word of a pattern, with or without a `*` behind it.
pub(crate) fn word_of(alloc: Global, text: &[u8], begins: bool) -> Result<PatternWord, AllocError>
    ensures { IfOk result (λ own. own ≡ record { text = text.now; begins = begins }) }
{
    let text = Bytes::of(alloc, text)?;
    Ok(PatternWord { text, begins })
}

/// What is wrong with a pattern.
pub(crate) fn pattern_fault(pattern: &[PatternWord]) -> Option<LineFault>
    ensures { result ≡ pattern_fault pattern.now }
{
    match pattern.split_first() {
        None => Some(LineFault::NoPattern),
        Some(_) if pattern.len() > MOST_WORDS => Some(LineFault::Words),
        Some((word, _)) => first_fault(word, pattern),
    }
}

/// What is wrong with the first word of a pattern.
fn first_fault(word: &PatternWord, pattern: &[PatternWord]) -> Option<LineFault>
    ensures { result ≡ first_fault word.now pattern.now }
{
    if begins_with_byte(b'-', word.text.as_bytes()) {
        return Some(LineFault::Minus);
    }
    if is_answered(word) && !is_asked(pattern) {
        return Some(LineFault::Builtin);
    }
    None
}

/// Whether a builtin asks calls that a pattern fits.
fn is_asked(pattern: &[PatternWord]) -> bool
    ensures { result ≡ is_asked pattern.now }
{
    asks_file(pattern) || asks_env(pattern) || asks_setexpr(pattern)
}

/// Whether a pattern is one of commands of `env` that a run doesn't have itself.
fn asks_env(pattern: &[PatternWord]) -> bool
    ensures { result ≡ asks_env pattern.now }
{
    match pattern.split_first() {
        Some((word, others)) => is_just(b"env", word) && !names_subcommand(others),
        None => false,
    }
}

/// Whether the words after `env` begin with the name of a command that a run has itself.
fn names_subcommand(words: &[PatternWord]) -> bool
    ensures { result ≡ names_subcommand words.now }
{
    match words.split_first() {
        Some((word, _others)) => is_subcommand(word),
        None => false,
    }
}

/// Whether a word of a pattern is the name of a command of `env` that a run has itself.
fn is_subcommand(word: &PatternWord) -> bool
    ensures { result ≡ is_subcommand word.now }
{
    is_just(b"set", word)
        || is_just(b"print", word)
        || is_just(b"save", word)
        || is_just(b"run", word)
        || is_just(b"delete", word)
        || is_just(b"exists", word)
}

/// Whether a pattern is one of `setexpr`, perhaps with a width.
fn asks_setexpr(pattern: &[PatternWord]) -> bool
    ensures { result ≡ asks_setexpr pattern.now }
{
    match pattern.split_first() {
        Some((word, _others)) => names_setexpr(word.text.as_bytes()),
        None => false,
    }
}

/// Whether a name is `setexpr`, perhaps with a width.
fn names_setexpr(text: &[u8]) -> bool
    ensures { result ≡ (bytes_eq (codes "setexpr") text.now || is_beginning (codes "setexpr.") text.now) }
{
    is_text(text, b"setexpr") || is_beginning(b"setexpr.", text)
}

/// Whether a builtin has the commands whose name a word fits.
fn is_answered(word: &PatternWord) -> bool
    ensures { result ≡ is_answered word.now }
{
    let text = word.text.as_bytes();
    if word.begins {
        only_widths(text)
    } else {
        is_builtin(text)
    }
}

/// Whether all names that begin with a text are those of one builtin with a width.
fn only_widths(text: &[u8]) -> bool
    ensures { result ≡ only_widths text.now }
{
    match memchr(b'.', text) {
        Some(at) => names_builtin(&text[..at]),
        None => false,
    }
}

/// Whether exactly one builtin's name begins so.
fn names_builtin(front: &[u8]) -> bool
    ensures { result ≡ names_builtin front.now }
{
    count_begun(&BUILTINS, front) == 1
}

/// How many of these names begin so.
fn count_begun(names: &[&[u8]], front: &[u8]) -> usize
    ensures { result ≡ length (filter (is_beginning front.now) (map (λ name. name.now) names.now)) }
{
    let mut count = 0;
    for name in names {
        count += times_begun(front, name);
    }
    count
}

/// How often a name begins so: once or not at all.
fn times_begun(front: &[u8], name: &[u8]) -> usize
    ensures { result ≡ (if is_beginning front.now name.now then 1 else 0) }
{
    if is_beginning(front, name) { 1 } else { 0 }
}

/// Whether a pattern is one of `test -e`.
pub(crate) fn asks_file(pattern: &[PatternWord]) -> bool
    ensures { result ≡ asks_file pattern.now }
{
    match pattern {
        [word, option, ..] => is_just(b"test", word) && is_just(b"-e", option),
        _ => false,
    }
}

/// Whether a word of a pattern fits a text alone.
fn is_just(text: &[u8], word: &PatternWord) -> bool
    ensures { result ≡ is_just text.now word.now }
{
    !word.begins && is_text(word.text.as_bytes(), text)
}

/// Whether a text begins with another.
pub(crate) fn is_beginning(front: &[u8], text: &[u8]) -> bool
    ensures { result ≡ is_beginning front.now text.now }
{
    let (start, _rest) = text.split_at(front.len().min(text.len()));
    is_text(start, front)
}
