//! The scripts whose statuses are asked for.
ghost use Rattle.std.specs.Prelude.{◌≡◌, ◌-◌, [], true, false, OnOk, length, map, take, if◌then◌else◌};
ghost use Rattle.std.specs.List.{flat_map};
ghost use Rattle.hush_syntax.specs.Scripts.{source_of, tree_of};
ghost use Rattle.hush_syntax.specs.Trees.{words_in};
ghost use Rattle.fw_check.specs.Checking.{AreAsked, AreFollowed, script_in};
ghost use Rattle.fw_check.specs.FileChecks.{script_texts, scripts_view};
ghost use Rattle.fw_check.specs.Following.{follow_fronts};
ghost use Rattle.fw_check.specs.Literals.{front_of};
ghost use Rattle.fw_check.specs.Looking.{rules_in};
ghost use Rattle.fw_check.specs.Naming.{asked_by, asked_fronts, asked_in, asked_words};
ghost use Rattle.fw_check.specs.Settings.{shows_status};
ghost use Rattle.fw_check.specs.Statements.{of_script, statement_of};

use crate::file_checks::FileScript;
use crate::following::Followed;
use crate::items::{Item, items_of};
use crate::literals::is_called;
use crate::lookups::Lookups;
use crate::menu::script;
use crate::run_names::follow_words;
use crate::settings::Setting;
use crate::text_names::no_script;
use envvars_core::Vars;
use hush_run::bodies_of;
use hush_syntax::{Script, Text, Word};
use std::alloc::AllocError;

/// Follows those scripts whose statuses these scripts of files and those of these names ask for, and those for whose
/// statuses the ends of these ask.
pub(crate) fn follow_asked(
    lookups: &Lookups<'_>,
    vars: &Vars,
    scripts: &[FileScript<'_>],
    visited: &[Vec<u8>],
    asked: &mut Followed<'_, '_>,
) -> Result<(), AllocError>
    requires { asked.old ≡ record { env = vars.now.env; names = [] } }
    ensures { OnOk result (AreAsked (rules_in lookups.now) vars.now.env
        (script_texts (scripts_view scripts.now)) (map (λ n. n.items) visited.now) asked.new.names) }
{
    ask_in_files(lookups, scripts, asked)?;
    ask_in_all(lookups, vars, visited, asked)?;
    ask_at_ends(lookups, vars, asked)
}

/// Follows what the scripts of files ask for; their own statuses aren't asked for.
fn ask_in_files(
    lookups: &Lookups<'_>,
    scripts: &[FileScript<'_>],
    asked: &mut Followed<'_, '_>,
) -> Result<(), AllocError>
    ensures { OnOk result (asked.new ≡ follow_fronts asked.old
        (flat_map (asked_in (rules_in lookups.now) false) (script_texts (scripts_view scripts.now)))) }
{
    for script in scripts {
        ask_in_text(lookups, false, &script.text, asked)?;
    }
    Ok(())
}

/// Follows what the scripts of these names ask for; their own statuses aren't asked for.
fn ask_in_all(
    lookups: &Lookups<'_>,
    vars: &Vars,
    visited: &[Vec<u8>],
    asked: &mut Followed<'_, '_>,
) -> Result<(), AllocError>
    ensures { OnOk result (asked.new ≡ follow_fronts asked.old (flat_map
        (λ name. asked_in (rules_in lookups.now) false (script_in vars.now.env name)) (map (λ n. n.items) visited.now))) }
{
    for name in visited {
        ask_in(lookups, vars, false, name, asked)?;
    }
    Ok(())
}

/// Follows what the scripts of all these names ask for if their own statuses are asked for.
fn ask_at_ends(
    lookups: &Lookups<'_>,
    vars: &Vars,
    asked: &mut Followed<'_, '_>,
) -> Result<(), AllocError>
    requires { asked.old.env ≡ vars.now.env }
    ensures { OnOk result (AreFollowed (asked_in (rules_in lookups.now) true) asked.old 0 asked.new.names) }
{
    let mut index = 0;
    while let Some(name) = asked.copy(lookups.alloc, index)? {
        ask_in(lookups, vars, true, &name, asked)?;
        index += 1;
    }
    Ok(())
}

/// Follows what the script of a variable asks for; `ends`: its own status is asked for.
fn ask_in(
    lookups: &Lookups<'_>,
    vars: &Vars,
    ends: bool,
    name: &[u8],
    asked: &mut Followed<'_, '_>,
) -> Result<(), AllocError>
    ensures { OnOk result
        (asked.new ≡ follow_fronts asked.old (asked_in (rules_in lookups.now) ends (script_in vars.now.env name.now))) }
{
    let text = script(lookups.alloc, vars, name)?;
    ask_in_text(lookups, ends, &text, asked)
}

/// The same of a text.
fn ask_in_text(
    lookups: &Lookups<'_>,
    ends: bool,
    text: &[u8],
    asked: &mut Followed<'_, '_>,
) -> Result<(), AllocError>
    ensures { OnOk result (asked.new ≡ follow_fronts asked.old (asked_in (rules_in lookups.now) ends text.now)) }
{
    let source = Vec::from_slice(lookups.alloc, text)?;
    match Script::parse_in(lookups.alloc, source, bodies_of(lookups.rules.shell)) {
        Ok(script) => ask_in_script(lookups, ends, &script, asked),
        Err(fault) => no_script(fault),
    }
}

/// The same of a script.
fn ask_in_script(
    lookups: &Lookups<'_>,
    ends: bool,
    script: &Script,
    asked: &mut Followed<'_, '_>,
) -> Result<(), AllocError>
    ensures { OnOk result (asked.new ≡ follow_fronts asked.old (flat_map (asked_fronts (rules_in lookups.now))
        (of_script (shows_status (source_of script.now)) ends (tree_of script.now)))) }
{
    let items = items_of(lookups.alloc, script, ends)?;
    ask_in_items(lookups, script.text(), &items, asked)
}

/// The same of items.
fn ask_in_items(
    lookups: &Lookups<'_>,
    text: &Text,
    items: &[Item<'_>],
    asked: &mut Followed<'_, '_>,
) -> Result<(), AllocError>
    ensures { OnOk result (asked.new ≡ follow_fronts asked.old
        (flat_map (asked_fronts (rules_in lookups.now)) (map (statement_of text.now) items.now))) }
{
    for item in items {
        ask_in_item(lookups, text, *item, asked)?;
    }
    Ok(())
}

/// The same of one item.
fn ask_in_item(
    lookups: &Lookups<'_>,
    text: &Text,
    item: Item<'_>,
    asked: &mut Followed<'_, '_>,
) -> Result<(), AllocError>
    ensures { OnOk result
        (asked.new ≡ follow_fronts asked.old (asked_fronts (rules_in lookups.now) (statement_of text.now item.entry))) }
{
    match item {
        Item::Call(setting, words) => ask_in_call(lookups, text, setting, words, asked),
        Item::Assignment { .. } => Ok(()),
        Item::Binding { .. } => Ok(()),
    }
}

/// The same of a simple command.
fn ask_in_call(
    lookups: &Lookups<'_>,
    text: &Text,
    setting: Setting,
    words: &[Word],
    asked: &mut Followed<'_, '_>,
) -> Result<(), AllocError>
    ensures { OnOk result
        (asked.new ≡ follow_fronts asked.old (asked_by (rules_in lookups.now) setting (words_in text.now words.now))) }
{
    if words.is_empty() {
        return Ok(());
    }
    let called = lookups.called(text, words[0])?;
    if !is_called(&called, b"run") {
        return Ok(());
    }
    follow_asked_words(lookups, text, setting, &words[1..], asked)
}

/// Follows those of the arguments of `run` that are asked for.
fn follow_asked_words(
    lookups: &Lookups<'_>,
    text: &Text,
    setting: Setting,
    words: &[Word],
    asked: &mut Followed<'_, '_>,
) -> Result<(), AllocError>
    ensures { OnOk result
        (asked.new ≡ follow_fronts asked.old (map front_of (asked_words setting (words_in text.now words.now)))) }
{
    follow_words(lookups.alloc, text, words_asked(setting, words), asked)
}

/// Those of the arguments of `run` whose statuses it asks for, or what is around it does.
fn words_asked(setting: Setting, words: &[Word]) -> &[Word]
    ensures { result.now ≡ (if setting.asked then words.now else take (length words.now - 1) words.now) }
{
    if setting.asked || words.is_empty() {
        words
    } else {
        &words[..words.len() - 1]
    }
}
