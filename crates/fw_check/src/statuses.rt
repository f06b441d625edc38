//! Statuses that shells leave in different ways, where they are asked for.
ghost use Rattle.std.specs.Prelude.{◌≡◌, ◌&&◌, OnOk};
ghost use Rattle.std.specs.List.{list_any};
ghost use Rattle.hush_words.specs.Parts.{word_atoms};
ghost use Rattle.fw_check.specs.Findings.{begun_by, found_if, setting_findings, shows_in};
ghost use Rattle.fw_check.specs.Found.{found_more};

use crate::findings::Findings;
use crate::literals::has_status;
use crate::settings::Setting;
use finding_kinds::FindingKind;
use hush_syntax::{Text, Word};
use std::alloc::AllocError;

/// What is said behind an operator that isn't the first one of its chain.
const MIXED: &[u8] = b"a board skips the rest of a chain once a command of it is skipped";

/// What is said of an `if`.
const BRANCHLESS: &[u8] = b"shells differ in the status of an `if` without `else`";

/// What is said of a loop.
const LOOP: &[u8] = b"shells differ in the status of a `while` or `until`";

/// What is said of a `$?` before any command.
const STALE: &[u8] = b"shells differ in the `$?` with which a text or a turn of `for` begins";

/// Adds what is found by the setting of a simple command.
pub(crate) fn check_begun(
    text: &Text,
    setting: Setting,
    words: &[Word],
    findings: &mut Findings<'_, '_>,
) -> Result<(), AllocError>
    ensures { OnOk result (findings.new ≡ found_more findings.old (begun_by text.now setting words.now)) }
{
    if words.is_empty() {
        return Ok(());
    }
    let count = words[0].start as usize;
    check_setting(setting, count, shows_any(text, words), findings)
}

/// The same of a command at this place; `shows`: it has a `$?`.
pub(crate) fn check_setting(
    setting: Setting,
    count: usize,
    shows: bool,
    findings: &mut Findings<'_, '_>,
) -> Result<(), AllocError>
    ensures { OnOk result (findings.new ≡ found_more findings.old (setting_findings setting count shows)) }
{
    add_if(setting.mixes, count, FindingKind::AndOr, MIXED, findings)?;
    add_if(
        setting.branchless,
        count,
        FindingKind::IfStatus,
        BRANCHLESS,
        findings,
    )?;
    add_if(
        setting.loops,
        count,
        FindingKind::LoopStatus,
        LOOP,
        findings,
    )?;
    add_if(
        is_stale(setting, shows),
        count,
        FindingKind::StaleStatus,
        STALE,
        findings,
    )
}

/// Whether it is the first of a text, or of a turn of `for`, and shows a status.
fn is_stale(setting: Setting, shows: bool) -> bool
    ensures { result ≡ (setting.begins && shows) }
{
    setting.begins && shows
}

/// Adds a finding, if it is one.
fn add_if(
    found: bool,
    count: usize,
    kind: FindingKind,
    sentence: &[u8],
    findings: &mut Findings<'_, '_>,
) -> Result<(), AllocError>
    ensures { OnOk result (findings.new ≡ found_more findings.old (found_if found count kind sentence.now)) }
{
    if found {
        findings.add(count, kind, b"", b"", sentence)
    } else {
        Ok(())
    }
}

/// Whether one of these words has a `$?`.
pub(crate) fn shows_any(text: &Text, words: &[Word]) -> bool
    ensures { result ≡ list_any (shows_in text.now) words.now }
{
    for word in words {
        if shows_in(text, *word) {
            return true;
        }
    }
    false
}

/// Whether a word has a `$?`.
pub(crate) fn shows_in(text: &Text, word: Word) -> bool
    ensures { result ≡ shows_in text.now word }
{
    has_status(text, word)
}
