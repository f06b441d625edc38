//! What is found in the arguments of `run`.
ghost use Rattle.std.specs.Prelude.{◌≡◌, [], if◌then◌else◌, IfOk, OnOk, option_map};
ghost use Rattle.std.specs.List.{flat_map};
ghost use Rattle.hush_words.specs.Parts.{word_atoms};
ghost use Rattle.fw_check.specs.CommandFindings.{argument_findings, begun_findings, constant_findings, field_in_substitutions, named_findings, target_findings};
ghost use Rattle.fw_check.specs.Found.{found_more};
ghost use Rattle.fw_check.specs.Looking.{front_view, known_in};

use crate::constants::field_of;
use crate::findings::Findings;
use crate::literals::{Front, front_of, literal};
use crate::lookups::Lookups;
use finding_kinds::FindingKind;
use hush_syntax::{Text, Word};
use std::alloc::AllocError;

/// Adds what is found in the arguments of a `run`, if this is one.
pub(crate) fn check_targets(
    lookups: &Lookups<'_>,
    text: &Text,
    runs: bool,
    words: &[Word],
    findings: &mut Findings<'_, '_>,
) -> Result<(), AllocError>
    ensures { OnOk result (findings.new ≡ found_more findings.old
        (if runs then flat_map (argument_findings (known_in lookups.now) text.now) words.now else [])) }
{
    if !runs {
        return Ok(());
    }
    for word in words {
        check_argument(lookups, text, *word, findings)?;
    }
    Ok(())
}

/// The same for one argument.
fn check_argument(
    lookups: &Lookups<'_>,
    text: &Text,
    word: Word,
    findings: &mut Findings<'_, '_>,
) -> Result<(), AllocError>
    ensures { OnOk result (findings.new ≡ found_more findings.old (argument_findings (known_in lookups.now) text.now word)) }
{
    let target = front_of(lookups.alloc, text, word)?;
    let field = field_in_substitutions(lookups, text, word)?;
    check_constant(lookups, word.start as usize, &target, &field, findings)
}

/// The first field of an argument with substitutions, if all is known of it.
fn field_in_substitutions(
    lookups: &Lookups<'_>,
    text: &Text,
    word: Word,
) -> Result<Option<Vec<u8>>, AllocError>
    ensures { IfOk result
        (λ field. option_map (λ v. v.items) field ≡ field_in_substitutions (known_in lookups.now) (word_atoms text.now word)) }
{
    match literal(lookups.alloc, text, word)? {
        Some(_bytes) => Ok(None),
        None => field_of(lookups, text, word),
    }
}

/// The same for an argument that names this variable, if one is known.
fn check_constant(
    lookups: &Lookups<'_>,
    count: usize,
    target: &Front,
    field: &Option<Vec<u8>>,
    findings: &mut Findings<'_, '_>,
) -> Result<(), AllocError>
    ensures { OnOk result (findings.new ≡ found_more findings.old
        (constant_findings (known_in lookups.now) count (front_view target.now) (option_map (λ v. v.items) field.now))) }
{
    match field {
        Some(name) if lookups.is_undefined(name) => check_named(lookups, count, name, findings),
        _ => check_target(lookups, count, target, findings),
    }
}

/// The same for one argument.
fn check_target(
    lookups: &Lookups<'_>,
    count: usize,
    target: &Front,
    findings: &mut Findings<'_, '_>,
) -> Result<(), AllocError>
    ensures { OnOk result (findings.new ≡ found_more findings.old
        (target_findings (known_in lookups.now) count (front_view target.now))) }
{
    if target.is_whole {
        check_named(lookups, count, &target.bytes, findings)
    } else {
        check_beginning(lookups, count, &target.bytes, findings)
    }
}

/// The same for the name of a variable.
fn check_named(
    lookups: &Lookups<'_>,
    count: usize,
    name: &[u8],
    findings: &mut Findings<'_, '_>,
) -> Result<(), AllocError>
    ensures { OnOk result (findings.new ≡ found_more findings.old
        (named_findings (known_in lookups.now) count name.now)) }
{
    if !lookups.is_undefined(name) {
        return Ok(());
    }
    findings.add(
        count,
        FindingKind::RunUndefined,
        b"`run ",
        name,
        b"` names a variable that is not defined",
    )
}

/// The same for a beginning of names.
fn check_beginning(
    lookups: &Lookups<'_>,
    count: usize,
    beginning: &[u8],
    findings: &mut Findings<'_, '_>,
) -> Result<(), AllocError>
    ensures { OnOk result (findings.new ≡ found_more findings.old
        (begun_findings (known_in lookups.now) count beginning.now)) }
{
    match lookups.variables {
        Some(_) if beginning.is_empty() => {
            findings.add(count, FindingKind::RunUnknown, UNKNOWN, b"", b"")
        }
        _ => Ok(()),
    }
}

/// What is said of an argument of `run` that may be any name.
const UNKNOWN: &[u8] = b"what this runs is not known, so it is not followed";
