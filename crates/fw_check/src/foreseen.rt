//! The names that a command foresees: it sets their variables, tests them, or asks for them.
ghost use Rattle.std.specs.Prelude.{◌≡◌, OnOk, option_map};
ghost use Rattle.std.specs.List.{flat_map};
ghost use Rattle.hush_syntax.specs.Trees.{words_in};
ghost use Rattle.fw_check.specs.Literals.{substituted};
ghost use Rattle.fw_check.specs.NameSets.{set_of, with_all};
ghost use Rattle.fw_check.specs.Naming.{first_name, foreseen_as, foreseen_by_env, is_calculation, set_by};

use crate::literals::{is_called, is_word_of, literal};
use crate::lookups::Lookups;
use crate::name_set::NameSet;
use crate::operands::after_force;
use crate::substitutions::gather_substitutions;
use hush_syntax::{Text, Word};
use std::alloc::{AllocError, Global};

/// The names of `setexpr`, by how much memory an address reads.
const CALCULATIONS: [&[u8]; 5] = [
    b"setexpr",
    b"setexpr.b",
    b"setexpr.w",
    b"setexpr.l",
    b"setexpr.q",
];

/// Adds the names that a command of this name foresees by its arguments.
pub(crate) fn foresee(
    lookups: &Lookups<'_>,
    text: &Text,
    called: &Option<Vec<u8>>,
    words: &[Word],
    foreseen: &mut NameSet,
) -> Result<(), AllocError>
    ensures { OnOk result (set_of foreseen.new ≡ with_all (set_of foreseen.old)
        (foreseen_as lookups.now.rules.shell (option_map (λ v. v.items) called.now) (words_in text.now words.now))) }
{
    if is_called(called, b"test") {
        foresee_tested(lookups.alloc, text, words, foreseen)
    } else if is_called(called, b"setenv") {
        foresee_set(lookups.alloc, text, words, foreseen)
    } else if is_called(called, b"env") {
        foresee_env(lookups, text, words, foreseen)
    } else if is_calculation(called) {
        foresee_first(lookups.alloc, text, words, foreseen)
    } else {
        Ok(())
    }
}

/// Whether a command is `setexpr`.
pub(crate) fn is_calculation(called: &Option<Vec<u8>>) -> bool
    ensures { result ≡ is_calculation (option_map (λ v. v.items) called.now) }
{
    match called {
        Some(name) => is_word_of(&CALCULATIONS, name),
        None => false,
    }
}

/// Adds the names of the substitutions of these words.
fn foresee_tested(
    alloc: Global,
    text: &Text,
    words: &[Word],
    foreseen: &mut NameSet,
) -> Result<(), AllocError>
    ensures { OnOk result (set_of foreseen.new ≡ with_all (set_of foreseen.old)
        (flat_map substituted (words_in text.now words.now))) }
{
    for word in words {
        gather_substitutions(alloc, text, *word, foreseen)?;
    }
    Ok(())
}

/// Adds the name that `env` with these arguments sets, or asks for.
fn foresee_env(
    lookups: &Lookups<'_>,
    text: &Text,
    words: &[Word],
    foreseen: &mut NameSet,
) -> Result<(), AllocError>
    ensures { OnOk result (set_of foreseen.new ≡ with_all (set_of foreseen.old)
        (foreseen_by_env lookups.now.rules.shell (words_in text.now words.now))) }
{
    if words.is_empty() {
        return Ok(());
    }
    let first = literal(lookups.alloc, text, words[0])?;
    if lookups.is_after_env(2, b"set", &first) {
        return foresee_set(lookups.alloc, text, &words[1..], foreseen);
    }
    if lookups.is_after_env(3, b"exists", &first) {
        return foresee_first(lookups.alloc, text, &words[1..], foreseen);
    }
    Ok(())
}

/// Adds the name that `setenv` with these arguments sets.
fn foresee_set(
    alloc: Global,
    text: &Text,
    words: &[Word],
    foreseen: &mut NameSet,
) -> Result<(), AllocError>
    ensures { OnOk result (set_of foreseen.new ≡ with_all (set_of foreseen.old)
        (set_by (words_in text.now words.now))) }
{
    let rest = after_force(alloc, text, words)?;
    foresee_first(alloc, text, rest, foreseen)
}

/// Adds the first of these words, if there is one and it is without a substitution.
fn foresee_first(
    alloc: Global,
    text: &Text,
    words: &[Word],
    foreseen: &mut NameSet,
) -> Result<(), AllocError>
    ensures { OnOk result (set_of foreseen.new ≡ with_all (set_of foreseen.old)
        (first_name (words_in text.now words.now))) }
{
    if words.is_empty() {
        return Ok(());
    }
    match literal(alloc, text, words[0])? {
        Some(name) => foreseen.add(alloc, &name),
        None => Ok(()),
    }
}
