//! The names whose variables a command sets to a value.
ghost use Rattle.std.specs.Prelude.{◌≡◌, OnOk, option_map, option_to_list};
ghost use Rattle.hush_syntax.specs.Trees.{words_in};
ghost use Rattle.hush_words.specs.Parts.{word_atoms};
ghost use Rattle.fw_check.specs.Literals.{literal_of};
ghost use Rattle.fw_check.specs.NameSets.{set_of, with_all};
ghost use Rattle.fw_check.specs.Naming.{first_of_several, written_as, written_by_env, written_by_set};

use crate::foreseen::is_calculation;
use crate::literals::{is_called, literal};
use crate::lookups::Lookups;
use crate::name_set::NameSet;
use crate::operands::after_force;
use hush_syntax::{Text, Word};
use std::alloc::{AllocError, Global};

/// Adds the names that a command of this name writes by its arguments.
pub(crate) fn write_names(
    lookups: &Lookups<'_>,
    text: &Text,
    called: &Option<Vec<u8>>,
    words: &[Word],
    written: &mut NameSet,
) -> Result<(), AllocError>
    ensures { OnOk result (set_of written.new ≡ with_all (set_of written.old)
        (written_as lookups.now.rules.shell (option_map (λ v. v.items) called.now) (words_in text.now words.now))) }
{
    if is_called(called, b"setenv") {
        write_set(lookups.alloc, text, words, written)
    } else if is_called(called, b"env") {
        write_env(lookups, text, words, written)
    } else if is_calculation(called) {
        write_first(lookups.alloc, text, words, written)
    } else {
        Ok(())
    }
}

/// Adds the name that `env` with these arguments writes.
fn write_env(
    lookups: &Lookups<'_>,
    text: &Text,
    words: &[Word],
    written: &mut NameSet,
) -> Result<(), AllocError>
    ensures { OnOk result (set_of written.new ≡ with_all (set_of written.old)
        (written_by_env lookups.now.rules.shell (words_in text.now words.now))) }
{
    if words.is_empty() {
        return Ok(());
    }
    let first = literal(lookups.alloc, text, words[0])?;
    if lookups.is_after_env(2, b"set", &first) {
        return write_set(lookups.alloc, text, &words[1..], written);
    }
    Ok(())
}

/// Adds the name that `setenv` with these arguments writes.
fn write_set(
    alloc: Global,
    text: &Text,
    words: &[Word],
    written: &mut NameSet,
) -> Result<(), AllocError>
    ensures { OnOk result (set_of written.new ≡ with_all (set_of written.old)
        (written_by_set (words_in text.now words.now))) }
{
    let rest = after_force(alloc, text, words)?;
    write_first(alloc, text, rest, written)
}

/// Adds the first of these words, if there is a second and it is without a substitution.
fn write_first(
    alloc: Global,
    text: &Text,
    words: &[Word],
    written: &mut NameSet,
) -> Result<(), AllocError>
    ensures { OnOk result (set_of written.new ≡ with_all (set_of written.old)
        (first_of_several (words_in text.now words.now))) }
{
    match words {
        [name, _value, ..] => write_name(alloc, text, *name, written),
        _ => Ok(()),
    }
}

/// Adds a word, if it is without a substitution.
fn write_name(
    alloc: Global,
    text: &Text,
    word: Word,
    written: &mut NameSet,
) -> Result<(), AllocError>
    ensures { OnOk result (set_of written.new ≡ with_all (set_of written.old)
        (option_to_list (literal_of (word_atoms text.now word)))) }
{
    match literal(alloc, text, word)? {
        Some(name) => written.add(alloc, &name),
        None => Ok(()),
    }
}
