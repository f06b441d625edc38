//! The names in words that have substitutions.
ghost use Rattle.std.specs.Prelude.{◌≡◌, ◌++◌, IfOk, OnOk, map};
ghost use Rattle.hush_words.specs.Parts.{part_atoms, word_atoms};
ghost use Rattle.hush_words.specs.Ranges.{Fits};
ghost use Rattle.fw_check.specs.Literals.{substituted};
ghost use Rattle.fw_check.specs.NameSets.{set_of, with_all};

use crate::name_set::NameSet;
use hush_syntax::{Part, Text, Word};
use std::alloc::{AllocError, Global};

/// The names of a word's substitutions, in the order of its text.
pub(crate) fn substituted(alloc: Global, text: &Text, word: Word) -> Result<Vec<&[u8]>, AllocError>
    ensures { IfOk result (λ names. map (λ n. n.now) names.items ≡ substituted (word_atoms text.now word)) }
{
    let mut names = Vec::new(alloc);
    let mut left = text.parts(word);
    while let Some(part) = left.next_part() {
        push_name(&mut names, text, part)?;
    }
    Ok(names)
}

/// Appends the name in a part, if the part is the substitution of one.
fn push_name<'t>(names: &mut Vec<&'t [u8]>, text: &'t Text, part: Part) -> Result<(), AllocError>
    requires { Fits text.now.source part }
    ensures { OnOk result (map (λ n. n.now) names.new.items
        ≡ map (λ n. n.now) names.old.items ++ substituted (part_atoms text.now.source part)) }
{
    match part {
        Part::Value(span, _) => {
            names.push(text.bytes(span))?;
            Ok(())
        }
        Part::Plain(_) => Ok(()),
        Part::Quoted(_) => Ok(()),
        Part::Mark => Ok(()),
        Part::Status(_) => Ok(()),
    }
}

/// Adds the names of a word's substitutions.
pub(crate) fn gather_substitutions(
    alloc: Global,
    text: &Text,
    word: Word,
    set: &mut NameSet,
) -> Result<(), AllocError>
    ensures { OnOk result
        (set_of set.new ≡ with_all (set_of set.old) (substituted (word_atoms text.now word))) }
{
    let names = substituted(alloc, text, word)?;
    for name in names.as_slice() {
        set.add(alloc, name)?;
    }
    Ok(())
}
