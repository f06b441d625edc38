//! What is found in the statements of a script.
ghost use Rattle.std.specs.Prelude.{◌≡◌, ◌++◌, OnOk, option_map};
ghost use Rattle.std.specs.List.{flat_map, list_any};
ghost use Rattle.hush_words.specs.Parts.{word_atoms};
ghost use Rattle.fw_check.specs.Expecting.{suspect_view};
ghost use Rattle.fw_check.specs.CommandFindings.{arguments_foreign, is_free, operator_end, operator_findings, wrong_findings};
ghost use Rattle.fw_check.specs.Findings.{assigned_findings, assignment_findings, binding_findings, call_findings, hidden_findings, item_findings, list_findings, refused_end, setting_findings, shows_in, use_findings, written_end};
ghost use Rattle.fw_check.specs.Found.{found_more};
ghost use Rattle.fw_check.specs.Literals.{literal_of};
ghost use Rattle.fw_check.specs.Looking.{known_in, rules_in};

use crate::command_names::check_command;
use crate::differences::{check_count, check_cuts, check_exit, check_reserved, check_unset};
use crate::empty_values::check_empty;
use crate::findings::Findings;
use crate::foreign::check_foreign;
use crate::items::Item;
use crate::literals::{is_called, literal};
use crate::lookups::Lookups;
use crate::misuse::{Misuse, check_misuse, misuse_of};
use crate::operators::{Suspect, tested};
use crate::reread::{check_value, check_values};
use crate::run_targets::check_targets;
use crate::settings::Setting;
use crate::statuses::{check_begun, check_setting, shows_any, shows_in};
use crate::undefined_names::{check_word, check_words};
use finding_kinds::FindingKind;
use hush_commands::Shell;
use hush_syntax::{Text, Word};
use std::alloc::AllocError;

/// Adds what is found in these items.
pub(crate) fn check_items(
    lookups: &Lookups<'_>,
    text: &Text,
    items: &[Item<'_>],
    findings: &mut Findings<'_, '_>,
) -> Result<(), AllocError>
    ensures { OnOk result (findings.new ≡ found_more findings.old
        (flat_map (item_findings (known_in lookups.now) (rules_in lookups.now) text.now) items.now)) }
{
    for item in items {
        check_item(lookups, text, *item, findings)?;
    }
    Ok(())
}

/// The same for one item.
fn check_item(
    lookups: &Lookups<'_>,
    text: &Text,
    item: Item<'_>,
    findings: &mut Findings<'_, '_>,
) -> Result<(), AllocError>
    ensures { OnOk result (findings.new ≡ found_more findings.old
        (item_findings (known_in lookups.now) (rules_in lookups.now) text.now item.entry)) }
{
    match item {
        Item::Call(setting, words) => {
            check_begun(text, setting, words, findings)?;
            check_call(lookups, text, words, findings)
        }
        Item::Assignment {
            setting,
            name,
            value,
        } => check_assignment(lookups, text, setting, name, value, findings),
        Item::Binding {
            setting,
            name,
            words,
        } => check_binding(lookups, text, setting, name, words, findings),
    }
}

/// The same for an assignment.
fn check_assignment(
    lookups: &Lookups<'_>,
    text: &Text,
    setting: Setting,
    name: Word,
    value: Word,
    findings: &mut Findings<'_, '_>,
) -> Result<(), AllocError>
    ensures { OnOk result (findings.new ≡ found_more findings.old (setting_findings setting name.start (shows_in text.now value)
        ++ assignment_findings (known_in lookups.now) (rules_in lookups.now) text.now name value)) }
{
    let count = name.start as usize;
    check_setting(setting, count, shows_in(text, value), findings)?;
    check_assigned(lookups, text, name, findings)?;
    check_unset(lookups, text, count, value, findings)?;
    check_word(lookups, text, value, findings)?;
    check_value(lookups, false, text, value, findings)
}

/// The same for the head of a `for`.
fn check_binding(
    lookups: &Lookups<'_>,
    text: &Text,
    setting: Setting,
    name: Word,
    words: &[Word],
    findings: &mut Findings<'_, '_>,
) -> Result<(), AllocError>
    ensures { OnOk result (findings.new ≡ found_more findings.old (setting_findings setting name.start (list_any (shows_in text.now) words.now)
        ++ binding_findings (known_in lookups.now) (rules_in lookups.now) text.now name words.now)) }
{
    let count = name.start as usize;
    check_setting(setting, count, shows_any(text, words), findings)?;
    check_assigned(lookups, text, name, findings)?;
    check_list(lookups, text, words, findings)
}

/// The same for the list of a `for`.
fn check_list(
    lookups: &Lookups<'_>,
    text: &Text,
    words: &[Word],
    findings: &mut Findings<'_, '_>,
) -> Result<(), AllocError>
    ensures { OnOk result (findings.new ≡ found_more findings.old (list_findings (known_in lookups.now) text.now words.now)) }
{
    check_cuts(lookups, text, words, findings)?;
    check_reserved(lookups, text, words, findings)?;
    check_foreign(lookups, text, words, findings)?;
    check_words(lookups, text, words, findings)?;
    check_values(lookups, false, text, words, findings)
}

/// The same for a simple command.
fn check_call(
    lookups: &Lookups<'_>,
    text: &Text,
    words: &[Word],
    findings: &mut Findings<'_, '_>,
) -> Result<(), AllocError>
    ensures { OnOk result (findings.new ≡ found_more findings.old
        (call_findings (known_in lookups.now) (rules_in lookups.now) text.now words.now)) }
{
    if words.is_empty() {
        return Ok(());
    }
    check_command(lookups, text, words[0], &words[1..], findings)?;
    let called = lookups.called(text, words[0])?;
    check_arguments(lookups, text, &called, &words[1..], findings)?;
    check_exit(
        is_called(&called, b"exit"),
        words[0].start as usize,
        findings,
    )?;
    check_count(words, findings)?;
    check_use(lookups, text, &called, words[0], &words[1..], findings)?;
    check_words(lookups, text, words, findings)?;
    check_values(lookups, true, text, words, findings)
}

/// Adds what is found by the name of a command and its arguments.
fn check_use(
    lookups: &Lookups<'_>,
    text: &Text,
    called: &Option<Vec<u8>>,
    word: Word,
    words: &[Word],
    findings: &mut Findings<'_, '_>,
) -> Result<(), AllocError>
    ensures { OnOk result (findings.new ≡ found_more findings.old
        (use_findings (known_in lookups.now) (rules_in lookups.now) (option_map (λ v. v.items) called.now) text.now word words.now)) }
{
    let count = word.start as usize;
    let misuse = misuse_of(lookups, text, called, words)?;
    check_misuse(count, misuse, findings)?;
    let (runs, tests) = (is_called(called, b"run"), is_called(called, b"test"));
    check_operators(lookups, text, tests, count, words, findings)?;
    check_targets(lookups, text, runs, words, findings)?;
    check_empty(lookups, text, called, words, findings)
}

/// Adds those of the arguments of a command of this name that are written for another shell.
fn check_arguments(
    lookups: &Lookups<'_>,
    text: &Text,
    called: &Option<Vec<u8>>,
    words: &[Word],
    findings: &mut Findings<'_, '_>,
) -> Result<(), AllocError>
    ensures { OnOk result (findings.new ≡ found_more findings.old
        (arguments_foreign (option_map (λ v. v.items) called.now) text.now words.now)) }
{
    if is_free(called) {
        Ok(())
    } else {
        check_foreign(lookups, text, words, findings)
    }
}

/// Whether the arguments of a command of this name may be any: `echo` prints them, and `test` compares with `>`.
fn is_free(called: &Option<Vec<u8>>) -> bool
    ensures { result ≡ is_free (option_map (λ v. v.items) called.now) }
{
    is_called(called, b"echo") || is_called(called, b"test")
}

/// Adds what is found in the arguments of a `test`, if this is one.
fn check_operators(
    lookups: &Lookups<'_>,
    text: &Text,
    tests: bool,
    count: usize,
    words: &[Word],
    findings: &mut Findings<'_, '_>,
) -> Result<(), AllocError>
    ensures { OnOk result (findings.new ≡ found_more findings.old
        (operator_findings lookups.now.rules.shell tests count text.now words.now)) }
{
    if !tests {
        return Ok(());
    }
    let (wrong, broken) = tested(lookups.alloc, lookups.rules.shell, text, words)?;
    check_wrong(lookups.rules.shell, count, broken, wrong, findings)
}

/// Adds the word of a test that is no operator, or that the words are no expression for another reason.
fn check_wrong(
    shell: Shell,
    count: usize,
    broken: bool,
    wrong: Option<Suspect>,
    findings: &mut Findings<'_, '_>,
) -> Result<(), AllocError>
    ensures { OnOk result (findings.new ≡ found_more findings.old
        (wrong_findings shell count broken (option_map suspect_view wrong))) }
{
    match wrong {
        Some(wrong) => findings.add(
            wrong.count,
            FindingKind::TestOperator,
            b"`test` has no operator `",
            &wrong.bytes,
            operator_end(shell),
        ),
        None if broken => check_misuse(count, Some(Misuse::NoExpression), findings),
        None => Ok(()),
    }
}

/// After a word of a test that is no operator.
fn operator_end(shell: Shell) -> &'static [u8]
    ensures { result.now ≡ operator_end shell }
{
    match shell {
        Shell::Strict => b"` here, and is false",
        Shell::Board => b"` here",
    }
}

/// Adds what is found if a value is given to a name.
fn check_assigned(
    lookups: &Lookups<'_>,
    text: &Text,
    word: Word,
    findings: &mut Findings<'_, '_>,
) -> Result<(), AllocError>
    ensures { OnOk result (findings.new ≡ found_more findings.old
        (assigned_findings lookups.now.rules.shell (known_in lookups.now) word.start (literal_of (word_atoms text.now word)))) }
{
    match literal(lookups.alloc, text, word)? {
        Some(name) => check_hidden(lookups, word.start as usize, &name, findings),
        None => Ok(()),
    }
}

/// Adds the name that is assigned, if the environment holds its variable, or a script sets it.
fn check_hidden(
    lookups: &Lookups<'_>,
    count: usize,
    name: &[u8],
    findings: &mut Findings<'_, '_>,
) -> Result<(), AllocError>
    ensures { OnOk result (findings.new ≡ found_more findings.old
        (hidden_findings lookups.now.rules.shell (known_in lookups.now) count name.now)) }
{
    let (shell, kind) = (lookups.rules.shell, FindingKind::HiddenAssignment);
    if lookups.is_defined(name) {
        findings.add(count, kind, b"`", name, refused_end(shell))
    } else if lookups.is_written(name) {
        findings.add(count, kind, b"a script sets `", name, written_end(shell))
    } else {
        Ok(())
    }
}

/// After the name of such a variable.
fn refused_end(shell: Shell) -> &'static [u8]
    ensures { result.now ≡ refused_end shell }
{
    match shell {
        Shell::Strict => b"` is an environment variable, so it can not be assigned",
        Shell::Board => b"` is an environment variable, which hides what is assigned",
    }
}

/// What is said of one that a script sets.
fn written_end(shell: Shell) -> &'static [u8]
    ensures { result.now ≡ written_end shell }
{
    match shell {
        Shell::Strict => b"` in the environment, where it can not be assigned",
        Shell::Board => b"` in the environment, which hides what is assigned",
    }
}
