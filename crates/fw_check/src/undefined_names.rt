//! Substitutions of names that nothing defines.
ghost use Rattle.std.specs.Prelude.{◌≡◌, OnOk, option_map};
ghost use Rattle.std.specs.List.{flat_map};
ghost use Rattle.fw_check.specs.Findings.{last_lacking, name_findings, next_findings, word_findings};
ghost use Rattle.fw_check.specs.Found.{found_more};
ghost use Rattle.fw_check.specs.Looking.{known_in};

use crate::findings::Findings;
use crate::lookups::Lookups;
use crate::substitutions::substituted;
use finding_kinds::FindingKind;
use hush_calc::is_text;
use hush_syntax::{Text, Word};
use std::alloc::AllocError;

/// Adds what is found in the substitutions of these words.
pub(crate) fn check_words(
    lookups: &Lookups<'_>,
    text: &Text,
    words: &[Word],
    findings: &mut Findings<'_, '_>,
) -> Result<(), AllocError>
    ensures { OnOk result (findings.new ≡ found_more findings.old
        (flat_map (word_findings (known_in lookups.now) text.now) words.now)) }
{
    for word in words {
        check_word(lookups, text, *word, findings)?;
    }
    Ok(())
}

/// The same for one word.
pub(crate) fn check_word(
    lookups: &Lookups<'_>,
    text: &Text,
    word: Word,
    findings: &mut Findings<'_, '_>,
) -> Result<(), AllocError>
    ensures { OnOk result (findings.new ≡ found_more findings.old
        (word_findings (known_in lookups.now) text.now word)) }
{
    let names = substituted(lookups.alloc, text, word)?;
    let mut last = None;
    for name in names.as_slice() {
        check_next(lookups, word.start as usize, last, name, findings)?;
        last = last_lacking(lookups, last, name);
    }
    Ok(())
}

/// The same for the name of one substitution, unless it is the last one with a finding in the word.
fn check_next(
    lookups: &Lookups<'_>,
    count: usize,
    last: Option<&[u8]>,
    name: &[u8],
    findings: &mut Findings<'_, '_>,
) -> Result<(), AllocError>
    ensures { OnOk result (findings.new ≡ found_more findings.old
        (next_findings (known_in lookups.now) count (option_map (λ l. l.now) last.entry) name.now)) }
{
    match last {
        Some(last) if is_text(last, name) => Ok(()),
        _ => check_name(lookups, count, name, findings),
    }
}

/// The last name with a finding, after one more name.
fn last_lacking<'n>(
    lookups: &Lookups<'_>,
    last: Option<&'n [u8]>,
    name: &'n [u8],
) -> Option<&'n [u8]>
    ensures { option_map (λ l. l.now) result
        ≡ last_lacking (known_in lookups.now) (option_map (λ l. l.now) last.entry) name.now }
{
    if lookups.is_lacking(name) {
        Some(name)
    } else {
        last
    }
}

/// What is found in the name of one substitution.
fn check_name(
    lookups: &Lookups<'_>,
    count: usize,
    name: &[u8],
    findings: &mut Findings<'_, '_>,
) -> Result<(), AllocError>
    ensures { OnOk result (findings.new ≡ found_more findings.old
        (name_findings (known_in lookups.now) count name.now)) }
{
    if lookups.is_lacking(name) {
        findings.add(
            count,
            FindingKind::UndefinedName,
            b"`${",
            name,
            b"}` names a variable that nothing defines",
        )?;
    }
    Ok(())
}
