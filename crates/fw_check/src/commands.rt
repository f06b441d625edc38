//! Names of commands that nothing carries out.
ghost use Rattle.std.specs.Prelude.{◌≡◌, IfOk, option_map};
ghost use Rattle.hush_syntax.specs.Trees.{words_in};
ghost use Rattle.fw_check.specs.Commands.{begin_in_parentheses, begin_with_comparison, is_comparing, is_head, lack_of};

use crate::literals::{is_called, is_word_of, literal};
use hush_commands::is_builtin;
use hush_syntax::{Text, Word};
use std::alloc::{AllocError, Global};

/// Why nothing carries out a command.
#[derive(Clone, Copy, Debug, PartialEq, Eq)]
pub(crate) enum CommandFault {
    /// Another shell's `test`.
    Bracket,
    /// Another shell's command or reserved word.
    Word,
    /// The head of a function.
    Function,
    /// Neither a builtin nor a stand-in has the name.
    Unknown,
}

const BRACKETS: [&[u8]; 2] = [b"[", b"[["];

const WORDS: [&[u8]; 5] = [b"break", b"continue", b"return", b"case", b"function"];

/// What a command of this name needs and this shell lacks; `opens`: its arguments begin with `()`.
pub(crate) fn lack_of(opens: bool, name: &[u8]) -> Option<CommandFault>
    ensures { result ≡ lack_of opens name.now }
{
    if is_word_of(&BRACKETS, name) {
        Some(CommandFault::Bracket)
    } else if is_word_of(&WORDS, name) {
        Some(CommandFault::Word)
    } else if is_head(opens, name) {
        Some(CommandFault::Function)
    } else {
        None
    }
}

/// Whether a command is written as the head of a function.
fn is_head(opens: bool, name: &[u8]) -> bool
    ensures { result ≡ is_head opens name.now }
{
    name.ends_with(b"()") || (opens && !is_builtin(name))
}

/// What is between a value and another one that is compared with it.
const COMPARISONS: [&[u8]; 11] = [
    b"==", b"=", b"!=", b"<", b">", b"-eq", b"-ne", b"-lt", b"-le", b"-gt", b"-ge",
];

/// Whether arguments begin with a comparison.
pub(crate) fn begin_with_comparison(
    alloc: Global,
    text: &Text,
    words: &[Word],
) -> Result<bool, AllocError>
    ensures { IfOk result (λ compares. compares ≡ begin_with_comparison (words_in text.now words.now)) }
{
    if words.is_empty() {
        return Ok(false);
    }
    let first = literal(alloc, text, words[0])?;
    Ok(is_comparing(&first))
}

fn is_comparing(word: &Option<Vec<u8>>) -> bool
    ensures { result ≡ is_comparing (option_map (λ v. v.items) word.now) }
{
    match word {
        Some(word) => is_word_of(&COMPARISONS, word),
        None => false,
    }
}

/// Whether arguments begin with `()`.
pub(crate) fn begin_in_parentheses(
    alloc: Global,
    text: &Text,
    words: &[Word],
) -> Result<bool, AllocError>
    ensures { IfOk result (λ opens. opens ≡ begin_in_parentheses (words_in text.now words.now)) }
{
    if words.is_empty() {
        return Ok(false);
    }
    let first = literal(alloc, text, words[0])?;
    Ok(is_called(&first, b"()"))
}
