//! Commands with words that they can't have, or that say something else than is meant.
ghost use Rattle.std.specs.Prelude.{◌≡◌, IfOk, OnOk, option_map};
ghost use Rattle.hush_syntax.specs.Trees.{words_in};
ghost use Rattle.fw_check.specs.CommandFindings.{misuse_findings};
ghost use Rattle.fw_check.specs.Found.{found_more};
ghost use Rattle.fw_check.specs.Looking.{known_in};
ghost use Rattle.fw_check.specs.Misuse.{calculated, is_calculated_wrong, is_empty, is_env_wrong, is_no_builtin, misuse_if, misuse_of, misuse_sentence, of_env, is_one};

use crate::calculations::{is_calculated_wrong, is_operated_wrong};
use crate::findings::Findings;
use crate::foreseen::is_calculation;
use crate::literals::is_called;
use crate::lookups::Lookups;
use crate::operands::{is_env_wrong, is_operand_wrong, is_set_wrong};
use crate::word_pairs::{has_lost_run, has_odd};
use finding_kinds::FindingKind;
use hush_commands::is_builtin;
use hush_syntax::{Text, Word};
use std::alloc::{AllocError, Global};

/// What is wrong with the words of a command.
#[derive(Clone, Copy, Debug, PartialEq, Eq)]
pub(crate) enum Misuse {
    /// A `run` of nothing.
    Nothing,
    /// A `setenv` without a name, or whose name has a space or a `=`.
    Setting,
    /// A `setexpr` with other than two or four words, or with a sum in a word.
    Calculation,
    /// Another operator than `setexpr` has.
    Operator,
    /// An `env` without one of its commands.
    Environment,
    /// Words that a command of `env` can't have.
    Operands,
    /// A `saveenv` with words.
    Saving,
    /// An `exit` with several words.
    Ending,
    /// A `run` inside the arguments of another command.
    Joined,
    /// A comparison of numbers with a word.
    Number,
    /// Words of a `test` that are no expression.
    NoExpression,
}

impl Misuse {
    /// What is said of it.
    fn sentence(self) -> &'static [u8]
        ensures { result.now ≡ misuse_sentence self }
    {
        match self {
            Misuse::Nothing => b"`run` needs the name of a variable",
            Misuse::Setting => b"`setenv` is written `setenv NAME VALUE`",
            Misuse::Calculation => {
                b"`setexpr` is written `setexpr NAME VALUE` or `setexpr NAME VALUE OPERATOR VALUE`"
            }
            Misuse::Operator => b"`setexpr` has no operators but + - * / % & | ^",
            Misuse::Environment => b"`env` needs the name of one of its commands",
            Misuse::Operands => b"these are not the words of this `env` command",
            Misuse::Saving => b"`saveenv` takes no words",
            Misuse::Ending => b"`exit` takes one word at most",
            Misuse::Joined => b"a `;` is missing before `run`",
            Misuse::Number => b"`test` compares a word as a number, which is 0",
            Misuse::NoExpression => b"the words of `test` are no expression",
        }
    }
}

/// Adds what is wrong with the words of a command, if anything is.
pub(crate) fn check_misuse(
    count: usize,
    misuse: Option<Misuse>,
    findings: &mut Findings<'_, '_>,
) -> Result<(), AllocError>
    ensures { OnOk result (findings.new ≡ found_more findings.old (misuse_findings count misuse)) }
{
    match misuse {
        Some(misuse) => findings.add(count, FindingKind::WrongUse, misuse.sentence(), b"", b""),
        None => Ok(()),
    }
}

/// What is wrong with these arguments of a command of this name, if anything is.
pub(crate) fn misuse_of(
    lookups: &Lookups<'_>,
    text: &Text,
    called: &Option<Vec<u8>>,
    words: &[Word],
) -> Result<Option<Misuse>, AllocError>
    ensures { IfOk result (λ misuse. misuse
        ≡ misuse_of (known_in lookups.now) lookups.now.rules.shell (option_map (λ v. v.items) called.now) (words_in text.now words.now)) }
{
    if is_called(called, b"run") {
        Ok(misuse_if(is_empty(text, words), Misuse::Nothing))
    } else if is_called(called, b"setenv") {
        let wrong = is_set_wrong(lookups.alloc, text, words)?;
        Ok(misuse_if(wrong, Misuse::Setting))
    } else if is_calculation(called) {
        calculated(lookups.alloc, text, words)
    } else if is_called(called, b"test") {
        let wrong = has_odd(lookups.alloc, text, words)?;
        Ok(misuse_if(wrong, Misuse::Number))
    } else if is_called(called, b"env") {
        of_env(lookups, text, words)
    } else if is_called(called, b"saveenv") {
        Ok(misuse_if(!is_empty(text, words), Misuse::Saving))
    } else if is_called(called, b"exit") {
        Ok(misuse_if(
            !(is_empty(text, words) || is_one(text, words)),
            Misuse::Ending,
        ))
    } else {
        let lost = has_lost_run(lookups, text, words)?;
        Ok(misuse_if(is_no_builtin(called) && lost, Misuse::Joined))
    }
}

fn misuse_if(wrong: bool, misuse: Misuse) -> Option<Misuse>
    ensures { result ≡ misuse_if wrong misuse }
{
    if wrong { Some(misuse) } else { None }
}

/// What is wrong with these arguments of `setexpr`.
fn calculated(alloc: Global, text: &Text, words: &[Word]) -> Result<Option<Misuse>, AllocError>
    ensures { IfOk result (λ misuse. misuse ≡ calculated (is_calculated_wrong (words_in text.now words.now)) (words_in text.now words.now)) }
{
    if is_calculated_wrong(alloc, text, words)? {
        return Ok(Some(Misuse::Calculation));
    }
    let wrong = is_operated_wrong(alloc, text, words)?;
    Ok(misuse_if(wrong, Misuse::Operator))
}

/// What is wrong with these arguments of `env`.
fn of_env(lookups: &Lookups<'_>, text: &Text, words: &[Word]) -> Result<Option<Misuse>, AllocError>
    ensures { IfOk result (λ misuse. misuse
        ≡ of_env (is_env_wrong lookups.now.rules.shell (words_in text.now words.now)) lookups.now.rules.shell (words_in text.now words.now)) }
{
    if is_env_wrong(lookups, text, words)? {
        return Ok(Some(Misuse::Environment));
    }
    let wrong = is_operand_wrong(lookups, text, words)?;
    Ok(misuse_if(wrong, Misuse::Operands))
}

/// Whether a command of this name is none of the builtins.
fn is_no_builtin(called: &Option<Vec<u8>>) -> bool
    ensures { result ≡ is_no_builtin (option_map (λ v. v.items) called.now) }
{
    match called {
        Some(name) => !is_builtin(name),
        None => false,
    }
}

/// Whether there are no words.
pub(crate) fn is_empty(text: &Text, words: &[Word]) -> bool
    ensures { result ≡ is_empty (words_in text.now words.now) }
{
    words.is_empty()
}

/// Whether these words are one.
pub(crate) fn is_one(text: &Text, words: &[Word]) -> bool
    ensures { result ≡ is_one (words_in text.now words.now) }
{
    match words {
        [_word] => true,
        _ => false,
    }
}
