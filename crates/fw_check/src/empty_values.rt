//! A `setenv` of an empty value, with which a board keeps the variable.
ghost use Rattle.std.specs.Prelude.{◌≡◌, IfOk, OnOk, option_map};
ghost use Rattle.fw_check.specs.CommandFindings.{after_force, after_set, empty_findings, only_value, set_words, value_findings};
ghost use Rattle.fw_check.specs.Found.{found_more};

use crate::findings::Findings;
use crate::literals::{is_called, literal};
use crate::lookups::Lookups;
use crate::operands::after_force;
use finding_kinds::FindingKind;
use hush_syntax::{Text, Word};
use std::alloc::{AllocError, Global};

/// What is said of an empty value.
const EMPTY: &[u8] = b"a board keeps the variable, with an empty value";

/// Adds the value that a command of this name sets, if it is empty.
pub(crate) fn check_empty(
    lookups: &Lookups<'_>,
    text: &Text,
    called: &Option<Vec<u8>>,
    words: &[Word],
    findings: &mut Findings<'_, '_>,
) -> Result<(), AllocError>
    ensures { OnOk result (findings.new ≡ found_more findings.old
        (empty_findings lookups.now.rules.shell (option_map (λ v. v.items) called.now) text.now words.now)) }
{
    let set = set_words(lookups, text, called, words)?;
    match only_value(set) {
        Some(value) => check_value(lookups.alloc, text, value, findings),
        None => Ok(()),
    }
}

/// The value, if there is one alone.
fn only_value(set: &[Word]) -> Option<Word>
    ensures { result ≡ only_value set.now }
{
    match set {
        [_name, value] => Some(*value),
        _ => None,
    }
}

/// Adds a value, if it is empty.
fn check_value(
    alloc: Global,
    text: &Text,
    value: Word,
    findings: &mut Findings<'_, '_>,
) -> Result<(), AllocError>
    ensures { OnOk result (findings.new ≡ found_more findings.old (value_findings text.now value)) }
{
    let bytes = literal(alloc, text, value)?;
    if is_called(&bytes, b"") {
        findings.add(
            value.start as usize,
            FindingKind::EmptyValue,
            EMPTY,
            b"",
            b"",
        )
    } else {
        Ok(())
    }
}

/// The name and the values that a command of this name sets, `setenv` or `env set`.
fn set_words<'w>(
    lookups: &Lookups<'_>,
    text: &Text,
    called: &Option<Vec<u8>>,
    words: &'w [Word],
) -> Result<&'w [Word], AllocError>
    ensures { IfOk result (λ set. set.now
        ≡ set_words lookups.now.rules.shell (option_map (λ v. v.items) called.now) text.now words.now) }
{
    if is_called(called, b"setenv") {
        after_force(lookups.alloc, text, words)
    } else if is_called(called, b"env") {
        after_set(lookups, text, words)
    } else {
        Ok(&[])
    }
}

/// The words behind `set`.
fn after_set<'w>(
    lookups: &Lookups<'_>,
    text: &Text,
    words: &'w [Word],
) -> Result<&'w [Word], AllocError>
    ensures { IfOk result (λ rest. rest.now ≡ after_set lookups.now.rules.shell text.now words.now) }
{
    if words.is_empty() {
        return Ok(&[]);
    }
    let first = literal(lookups.alloc, text, words[0])?;
    if lookups.is_after_env(2, b"set", &first) {
        after_force(lookups.alloc, text, &words[1..])
    } else {
        Ok(&[])
    }
}
