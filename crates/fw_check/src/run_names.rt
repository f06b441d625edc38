//! What the commands of a script run.
ghost use Rattle.std.specs.Prelude.{◌≡◌, OnOk, map};
ghost use Rattle.std.specs.List.{flat_map};
ghost use Rattle.hush_syntax.specs.Trees.{words_in};
ghost use Rattle.fw_check.specs.Following.{follow_fronts};
ghost use Rattle.fw_check.specs.Literals.{front_of};
ghost use Rattle.fw_check.specs.Looking.{rules_in};
ghost use Rattle.fw_check.specs.Naming.{run_by, run_fronts};
ghost use Rattle.fw_check.specs.Statements.{statement_of};

use crate::following::Followed;
use crate::items::Item;
use crate::literals::{front_of, is_called};
use crate::lookups::Lookups;
use hush_syntax::{Text, Word};
use std::alloc::{AllocError, Global};

/// Follows what these items run.
pub(crate) fn follow_items(
    lookups: &Lookups<'_>,
    text: &Text,
    items: &[Item<'_>],
    names: &mut Followed<'_, '_>,
) -> Result<(), AllocError>
    ensures { OnOk result (names.new ≡ follow_fronts names.old
        (flat_map (run_fronts (rules_in lookups.now)) (map (statement_of text.now) items.now))) }
{
    for item in items {
        follow_item(lookups, text, *item, names)?;
    }
    Ok(())
}

/// Follows what one item runs.
fn follow_item(
    lookups: &Lookups<'_>,
    text: &Text,
    item: Item<'_>,
    names: &mut Followed<'_, '_>,
) -> Result<(), AllocError>
    ensures { OnOk result
        (names.new ≡ follow_fronts names.old (run_fronts (rules_in lookups.now) (statement_of text.now item.entry))) }
{
    match item {
        Item::Call(_, words) => follow_call(lookups, text, words, names),
        Item::Assignment { .. } => Ok(()),
        Item::Binding { .. } => Ok(()),
    }
}

/// Follows what a simple command runs.
fn follow_call(
    lookups: &Lookups<'_>,
    text: &Text,
    words: &[Word],
    names: &mut Followed<'_, '_>,
) -> Result<(), AllocError>
    ensures { OnOk result
        (names.new ≡ follow_fronts names.old (run_by (rules_in lookups.now) (words_in text.now words.now))) }
{
    if words.is_empty() {
        return Ok(());
    }
    let called = lookups.called(text, words[0])?;
    if !is_called(&called, b"run") {
        return Ok(());
    }
    follow_words(lookups.alloc, text, &words[1..], names)
}

/// Follows what these words name.
pub(crate) fn follow_words(
    alloc: Global,
    text: &Text,
    words: &[Word],
    names: &mut Followed<'_, '_>,
) -> Result<(), AllocError>
    ensures { OnOk result
        (names.new ≡ follow_fronts names.old (map front_of (words_in text.now words.now))) }
{
    for word in words {
        let front = front_of(alloc, text, *word)?;
        names.follow_front(alloc, &front)?;
    }
    Ok(())
}
