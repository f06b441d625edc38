//! Words that `setenv`, `env` and the commands of `env` can't have.
ghost use Rattle.std.specs.Prelude.{◌≡◌, IfOk, map, option_map};
ghost use Rattle.std.specs.List.{list_any};
ghost use Rattle.hush_syntax.specs.Trees.{words_in};
ghost use Rattle.fw_check.specs.CommandFindings.{after_force};
ghost use Rattle.fw_check.specs.Called.{is_after_env};
ghost use Rattle.fw_check.specs.Looking.{front_view};
ghost use Rattle.fw_check.specs.Misuse.{is_env_wrong, is_no_subcommand, begin_with, ends_name, is_name_wrong, is_nothing, is_operand_wrong, is_set_wrong, is_subcommand_wrong};
ghost use Rattle.fw_check.specs.Naming.{without_force};

use crate::literals::{Front, front_of, is_called, literal};
use crate::lookups::Lookups;
use crate::misuse::{is_empty, is_one};
use hush_syntax::{Text, Word};
use std::alloc::{AllocError, Global};

/// Whether `setenv` has no use for these arguments.
pub(crate) fn is_set_wrong(alloc: Global, text: &Text, words: &[Word]) -> Result<bool, AllocError>
    ensures { IfOk result (λ wrong. wrong ≡ is_set_wrong (words_in text.now words.now)) }
{
    let rest = after_force(alloc, text, words)?;
    is_name_wrong(alloc, text, rest)
}

/// Whether these words have no name first, an empty one, or one with a space or a `=` before its first substitution, or a `=` behind it.
fn is_name_wrong(alloc: Global, text: &Text, words: &[Word]) -> Result<bool, AllocError>
    ensures { IfOk result (λ wrong. wrong ≡ is_name_wrong (words_in text.now words.now)) }
{
    if words.is_empty() {
        return Ok(true);
    }
    let name = front_of(alloc, text, words[0])?;
    let equals = begin_with(alloc, text, b"=", &words[1..])?;
    let (ends, nothing) = (has_end(&name.bytes), is_nothing(&name));
    Ok(ends || nothing || equals)
}

/// Whether a word is empty.
fn is_nothing(name: &Front) -> bool
    ensures { result ≡ is_nothing (front_view name.now) }
{
    name.is_whole && name.bytes.is_empty()
}

/// The words behind `-f`, if it is there.
pub(crate) fn after_force<'w>(
    alloc: Global,
    text: &Text,
    words: &'w [Word],
) -> Result<&'w [Word], AllocError>
    ensures words { IfOk result (λ rest. rest.now ≡ after_force text.now words.now) }
    ensures atoms { IfOk result (λ rest. words_in text.now rest.now ≡ without_force (words_in text.now words.now)) }
{
    if words.is_empty() {
        return Ok(words);
    }
    let first = literal(alloc, text, words[0])?;
    if is_called(&first, b"-f") {
        Ok(&words[1..])
    } else {
        Ok(words)
    }
}

/// Whether the first of these words is this text.
fn begin_with(alloc: Global, text: &Text, first: &[u8], words: &[Word]) -> Result<bool, AllocError>
    ensures { IfOk result (λ begins. begins ≡ begin_with first.now (words_in text.now words.now)) }
{
    if words.is_empty() {
        return Ok(false);
    }
    let word = literal(alloc, text, words[0])?;
    Ok(is_called(&word, first))
}

fn has_end(name: &[u8]) -> bool
    ensures { result ≡ list_any ends_name name.now }
{
    name.iter().any(|b| ends_name(*b))
}

/// Whether no name has this byte: a space or a `=`.
fn ends_name(b: u8) -> bool
    ensures { result ≡ ends_name b }
{
    b == b' ' || b == b'='
}

/// The commands of U-Boot's `env`.
const SUBCOMMANDS: [&[u8]; 19] = [
    b"ask",
    b"callbacks",
    b"default",
    b"delete",
    b"edit",
    b"erase",
    b"exists",
    b"export",
    b"flags",
    b"grep",
    b"import",
    b"indirect",
    b"info",
    b"load",
    b"print",
    b"run",
    b"save",
    b"select",
    b"set",
];

/// Whether `env` with these arguments has none of its commands.
pub(crate) fn is_env_wrong(
    lookups: &Lookups<'_>,
    text: &Text,
    words: &[Word],
) -> Result<bool, AllocError>
    ensures { IfOk result (λ wrong. wrong ≡ is_env_wrong lookups.now.rules.shell (words_in text.now words.now)) }
{
    if words.is_empty() {
        return Ok(true);
    }
    let first = literal(lookups.alloc, text, words[0])?;
    Ok(is_no_subcommand(lookups, &first))
}

/// Whether a word behind `env` stands for none of its commands.
fn is_no_subcommand(lookups: &Lookups<'_>, word: &Option<Vec<u8>>) -> bool
    ensures { result ≡ is_no_subcommand lookups.now.rules.shell (option_map (λ v. v.items) word.now) }
{
    word.is_some() && !stands_for_one(lookups, &SUBCOMMANDS, word)
}

/// Whether a word behind `env` stands for one of these names.
fn stands_for_one(lookups: &Lookups<'_>, names: &[&[u8]], word: &Option<Vec<u8>>) -> bool
    ensures { result ≡ list_any (λ name. is_after_env lookups.now.rules.shell 1 name (option_map (λ v. v.items) word.now))
        (map (λ n. n.now) names.now) }
{
    for name in names {
        if lookups.is_after_env(1, name, word) {
            return true;
        }
    }
    false
}

/// Whether the command of `env` that the first of these arguments stands for has no use for the others.
pub(crate) fn is_operand_wrong(
    lookups: &Lookups<'_>,
    text: &Text,
    words: &[Word],
) -> Result<bool, AllocError>
    ensures { IfOk result (λ wrong. wrong ≡ is_operand_wrong lookups.now.rules.shell (words_in text.now words.now)) }
{
    if words.is_empty() {
        return Ok(false);
    }
    let first = literal(lookups.alloc, text, words[0])?;
    is_subcommand_wrong(lookups, text, &first, &words[1..])
}

/// Whether the command of `env` that a word stands for has no use for these.
fn is_subcommand_wrong(
    lookups: &Lookups<'_>,
    text: &Text,
    word: &Option<Vec<u8>>,
    words: &[Word],
) -> Result<bool, AllocError>
    ensures { IfOk result (λ wrong. wrong
        ≡ is_subcommand_wrong lookups.now.rules.shell (option_map (λ v. v.items) word.now) (words_in text.now words.now)) }
{
    if lookups.is_after_env(2, b"set", word) {
        is_set_wrong(lookups.alloc, text, words)
    } else if lookups.is_after_env(2, b"save", word) {
        Ok(!is_empty(text, words))
    } else if lookups.is_after_env(1, b"run", word) {
        Ok(is_empty(text, words))
    } else if lookups.is_after_env(3, b"delete", word) {
        let rest = after_force(lookups.alloc, text, words)?;
        Ok(is_empty(text, rest))
    } else {
        Ok(lookups.is_after_env(3, b"exists", word) && !is_one(text, words))
    }
}
