//! What is found in the names of commands.
ghost use Rattle.std.specs.Prelude.{◌≡◌, [], ◌∷◌, IfOk, OnOk, option_map};
ghost use Rattle.hush_words.specs.Parts.{word_atoms};
ghost use Rattle.fw_check.specs.Commands.{command_sentence, kind_of};
ghost use Rattle.fw_check.specs.ReportLines.{found_at};
ghost use Rattle.fw_check.specs.CommandFindings.{called_findings, command_findings, known_name, lost_findings};
ghost use Rattle.fw_check.specs.Found.{found_more};
ghost use Rattle.fw_check.specs.Looking.{hardware_in, known_in, rules_in};

use crate::commands::{CommandFault, begin_in_parentheses, begin_with_comparison};
use crate::constants::field_of;
use crate::findings::Findings;
use crate::literals::literal;
use crate::lookups::Lookups;
use finding_kinds::FindingKind;
use hush_syntax::{Text, Word};
use std::alloc::AllocError;

/// Adds what is found in the name of a command with these arguments.
pub(crate) fn check_command(
    lookups: &Lookups<'_>,
    text: &Text,
    word: Word,
    words: &[Word],
    findings: &mut Findings<'_, '_>,
) -> Result<(), AllocError>
    ensures { OnOk result (findings.new ≡ found_more findings.old
        (command_findings (known_in lookups.now) (rules_in lookups.now) text.now (word ∷ words.now))) }
{
    let opens = begin_in_parentheses(lookups.alloc, text, words)?;
    let compares = begin_with_comparison(lookups.alloc, text, words)?;
    let name = known_name(lookups, text, compares, word)?;
    check_called(lookups, opens, compares, word, &name, findings)
}

/// The command that a word calls, if all is known of it; `compares`: a comparison is behind it.
fn known_name(
    lookups: &Lookups<'_>,
    text: &Text,
    compares: bool,
    word: Word,
) -> Result<Option<Vec<u8>>, AllocError>
    ensures { IfOk result
        (λ name. option_map (λ v. v.items) name ≡ known_name (known_in lookups.now) compares (word_atoms text.now word)) }
{
    match literal(lookups.alloc, text, word)? {
        Some(bytes) => Ok(Some(bytes)),
        None if compares => Ok(None),
        None => field_of(lookups, text, word),
    }
}

/// Adds what is found in the name of a command; `opens`: its arguments begin with `()`, `compares`: with a comparison.
fn check_called(
    lookups: &Lookups<'_>,
    opens: bool,
    compares: bool,
    word: Word,
    called: &Option<Vec<u8>>,
    findings: &mut Findings<'_, '_>,
) -> Result<(), AllocError>
    ensures { OnOk result (findings.new ≡ found_more findings.old
        (called_findings lookups.now.rules.shell (hardware_in lookups.now) opens compares word.start (option_map (λ v. v.items) called.now))) }
{
    let Some(name) = called else {
        return check_lost(compares, word.start as usize, findings);
    };
    match lookups.command_fault(opens, name) {
        Some(fault) => add_command(word.start as usize, fault, name, findings),
        None => Ok(()),
    }
}

/// What is said of a comparison without a `test`.
const LOST: &[u8] = b"a comparison needs `test` before it";

/// Adds a value in the place of a command, if a comparison is behind it.
fn check_lost(
    compares: bool,
    count: usize,
    findings: &mut Findings<'_, '_>,
) -> Result<(), AllocError>
    ensures { OnOk result (findings.new ≡ found_more findings.old (lost_findings compares count)) }
{
    if compares {
        findings.add(count, FindingKind::OtherShell, LOST, b"", b"")
    } else {
        Ok(())
    }
}

/// Before the name of a command that this shell lacks.
const LACKING: &[u8] = b"this shell has no `";

/// Adds the fault of a command of this name.
fn add_command(
    count: usize,
    fault: CommandFault,
    name: &[u8],
    findings: &mut Findings<'_, '_>,
) -> Result<(), AllocError>
    ensures { OnOk result (findings.new ≡ found_more findings.old
        (found_at count (kind_of fault) (command_sentence fault name.now) ∷ [])) }
{
    match fault {
        CommandFault::Bracket => findings.add(
            count,
            FindingKind::OtherShell,
            LACKING,
            name,
            b"`: write `test`",
        ),
        CommandFault::Word => findings.add(count, FindingKind::OtherShell, LACKING, name, b"`"),
        CommandFault::Function => findings.add(
            count,
            FindingKind::OtherShell,
            b"this shell has no functions",
            b"",
            b"",
        ),
        CommandFault::Unknown => findings.add(
            count,
            FindingKind::UnknownCommand,
            b"no builtin and no stand-in is called `",
            name,
            b"`",
        ),
    }
}
