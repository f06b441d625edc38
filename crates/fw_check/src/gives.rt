//! The names that a script gives to something, those that it foresees, and those whose variables it writes.
ghost use Rattle.std.specs.Prelude.{◌≡◌, OnOk, map, option_map};
ghost use Rattle.std.specs.List.{flat_map};
ghost use Rattle.hush_syntax.specs.Trees.{name_in, words_in};
ghost use Rattle.hush_words.specs.Parts.{word_atoms};
ghost use Rattle.fw_check.specs.Looking.{rules_in};
ghost use Rattle.fw_check.specs.NameSets.{also, set_of, with_all};
ghost use Rattle.fw_check.specs.Naming.{argument_names, foreseen_by, foreseen_names, given_by, given_names, given_or, written_by, written_names};
ghost use Rattle.fw_check.specs.Statements.{statement_of};

use crate::foreseen::foresee;
use crate::items::Item;
use crate::literals::{is_called, literal, name_in};
use crate::lookups::Lookups;
use crate::name_set::{NameSet, ScriptNames};
use crate::substitutions::gather_substitutions;
use crate::written::write_names;
use hush_syntax::{Text, Word};
use std::alloc::{AllocError, Global};

/// Adds the names that these items give, foresee and write.
pub(crate) fn gather_items(
    lookups: &Lookups<'_>,
    text: &Text,
    items: &[Item<'_>],
    names: &mut ScriptNames,
) -> Result<(), AllocError>
    ensures given { OnOk result (set_of names.new.given ≡ with_all (set_of names.old.given)
        (flat_map (given_names (rules_in lookups.now)) (map (statement_of text.now) items.now))) }
    ensures foreseen { OnOk result (set_of names.new.foreseen ≡ with_all (set_of names.old.foreseen)
        (flat_map (foreseen_names (rules_in lookups.now)) (map (statement_of text.now) items.now))) }
    ensures written { OnOk result (set_of names.new.written ≡ with_all (set_of names.old.written)
        (flat_map (written_names (rules_in lookups.now)) (map (statement_of text.now) items.now))) }
{
    for item in items {
        gather_item(lookups, text, *item, names)?;
    }
    Ok(())
}

/// Adds those of one item.
fn gather_item(
    lookups: &Lookups<'_>,
    text: &Text,
    item: Item<'_>,
    names: &mut ScriptNames,
) -> Result<(), AllocError>
    ensures given { OnOk result (set_of names.new.given ≡ with_all (set_of names.old.given)
        (given_names (rules_in lookups.now) (statement_of text.now item.entry))) }
    ensures foreseen { OnOk result (set_of names.new.foreseen ≡ with_all (set_of names.old.foreseen)
        (foreseen_names (rules_in lookups.now) (statement_of text.now item.entry))) }
    ensures written { OnOk result (set_of names.new.written ≡ with_all (set_of names.old.written)
        (written_names (rules_in lookups.now) (statement_of text.now item.entry))) }
{
    match item {
        Item::Call(_, words) => gather_call(lookups, text, words, names),
        Item::Assignment { name, .. } => add_name(lookups.alloc, text, name, &mut names.given),
        Item::Binding { name, .. } => add_name(lookups.alloc, text, name, &mut names.given),
    }
}

/// Adds the name that a word is.
fn add_name(alloc: Global, text: &Text, word: Word, given: &mut NameSet) -> Result<(), AllocError>
    ensures { OnOk result (set_of given.new ≡ also (set_of given.old) (name_in text.now word)) }
{
    let name = name_in(alloc, text, word)?;
    given.add(alloc, &name)
}

/// Adds those of a simple command.
fn gather_call(
    lookups: &Lookups<'_>,
    text: &Text,
    words: &[Word],
    names: &mut ScriptNames,
) -> Result<(), AllocError>
    ensures given { OnOk result (set_of names.new.given ≡ with_all (set_of names.old.given)
        (given_by (rules_in lookups.now) (words_in text.now words.now))) }
    ensures foreseen { OnOk result (set_of names.new.foreseen ≡ with_all (set_of names.old.foreseen)
        (foreseen_by (rules_in lookups.now) (words_in text.now words.now))) }
    ensures written { OnOk result (set_of names.new.written ≡ with_all (set_of names.old.written)
        (written_by (rules_in lookups.now) (words_in text.now words.now))) }
{
    if words.is_empty() {
        return Ok(());
    }
    let called = lookups.called(text, words[0])?;
    let tests = is_called(&called, b"test");
    gather_words(lookups.alloc, text, tests, &words[1..], &mut names.given)?;
    foresee(lookups, text, &called, &words[1..], &mut names.foreseen)?;
    write_names(lookups, text, &called, &words[1..], &mut names.written)
}

/// Adds the names that its arguments give.
fn gather_words(
    alloc: Global,
    text: &Text,
    tests: bool,
    words: &[Word],
    given: &mut NameSet,
) -> Result<(), AllocError>
    ensures { OnOk result (set_of given.new ≡ with_all (set_of given.old)
        (flat_map (argument_names tests) (words_in text.now words.now))) }
{
    for word in words {
        let name = literal(alloc, text, *word)?;
        gather_word(alloc, text, tests, *word, name, given)?;
    }
    Ok(())
}

/// Adds those that an argument gives, which is this name if it is without a substitution.
fn gather_word(
    alloc: Global,
    text: &Text,
    tests: bool,
    word: Word,
    name: Option<Vec<u8>>,
    given: &mut NameSet,
) -> Result<(), AllocError>
    ensures { OnOk result (set_of given.new ≡ with_all (set_of given.old)
        (given_or tests (word_atoms text.now word) (option_map (λ v. v.items) name))) }
{
    match name {
        Some(name) => given.add(alloc, &name),
        None if tests => gather_substitutions(alloc, text, word, given),
        None => Ok(()),
    }
}
