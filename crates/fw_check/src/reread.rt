//! Values that a board reads anew where they are substituted (docs/check.md).
ghost use Rattle.std.specs.Prelude.{◌≡◌, ◌++◌, ◌∷◌, [], IfOk, OnOk, map, true, if◌then◌else◌};
ghost use Rattle.std.specs.FinMap.{entries};
ghost use Rattle.std.specs.List.{flat_map, list_any};
ghost use Rattle.hush_words.specs.Parts.{part_atoms, word_atoms};
ghost use Rattle.hush_words.specs.Ranges.{Fits};
ghost use Rattle.fw_check.specs.Findings.{reread_findings, reread_if};
ghost use Rattle.fw_check.specs.Following.{is_among};
ghost use Rattle.fw_check.specs.Found.{found_more};
ghost use Rattle.fw_check.specs.Knowing.{has_comment, is_double_quote, is_recut, is_reread, names_by, reread_names, rereads};
ghost use Rattle.fw_check.specs.Looking.{known_in};
ghost use Rattle.fw_check.specs.NameSets.{set_of, with_all};

use crate::constants::is_in_field;
use crate::findings::Findings;
use crate::lookups::Lookups;
use crate::name_set::NameSet;
use envvars_core::Vars;
use finding_kinds::FindingKind;
use hush_syntax::{Part, Text, Word};
use std::alloc::{AllocError, Global};

/// The variables of an environment whose values a board reads anew.
#[derive(Drop)]
pub(crate) struct RereadNames {
    /// Those that it reads anew in quotes too.
    pub(crate) reread: NameSet,
    /// Those that it reads anew where it cuts words.
    pub(crate) recut: NameSet,
}

impl RereadNames {
    /// Those of an environment.
    pub(crate) fn of(alloc: Global, vars: &Vars) -> Result<RereadNames, AllocError>
        ensures reread { IfOk result (λ names. set_of names.reread ≡ is_among (names_by (list_any rereads) (entries vars.now.env))) }
        ensures recut { IfOk result (λ names. set_of names.recut ≡ is_among (names_by is_recut (entries vars.now.env))) }
    {
        let mut reread = NameSet::new(alloc);
        let mut recut = NameSet::new(alloc);
        for (name, value) in vars.iter() {
            add_if(alloc, any_rereads(value), name, &mut reread)?;
            add_if(alloc, is_recut(value), name, &mut recut)?;
        }
        Ok(RereadNames { reread, recut })
    }
}

/// Adds a name to a set, if it belongs there.
fn add_if(alloc: Global, belongs: bool, name: &[u8], set: &mut NameSet) -> Result<(), AllocError>
    ensures { OnOk result (set_of set.new ≡ with_all (set_of set.old) (if belongs then name.now ∷ [] else [])) }
{
    if belongs {
        set.add(alloc, name)
    } else {
        Ok(())
    }
}

fn any_rereads(value: &[u8]) -> bool
    ensures { result ≡ list_any rereads value.now }
{
    value.iter().any(|b| rereads(*b))
}

/// Whether a board reads a byte of a value anew in quotes too.
fn rereads(b: u8) -> bool
    ensures { result ≡ rereads b }
{
    b == b'\'' || b == b'\\' || b == b'\n'
}

/// Whether a board reads bytes of a value anew where it cuts words.
fn is_recut(value: &[u8]) -> bool
    ensures { result ≡ is_recut value.now }
{
    any_double_quote(value) || has_comment(value)
}

fn any_double_quote(value: &[u8]) -> bool
    ensures { result ≡ list_any is_double_quote value.now }
{
    value.iter().any(|b| is_double_quote(*b))
}

fn is_double_quote(b: u8) -> bool
    ensures { result ≡ is_double_quote b }
{
    b == b'"'
}

/// Whether a value has a `#` where a word may begin.
fn has_comment(value: &[u8]) -> bool
    ensures { result ≡ has_comment true value.now }
{
    let mut begins = true;
    for byte in value {
        if begins && *byte == b'#' {
            return true;
        }
        begins = !is_in_field(*byte);
    }
    false
}

/// Adds those of these words in which the value of a variable is read anew; `cut`: they are a simple command's.
pub(crate) fn check_values(
    lookups: &Lookups<'_>,
    cut: bool,
    text: &Text,
    words: &[Word],
    findings: &mut Findings<'_, '_>,
) -> Result<(), AllocError>
    ensures { OnOk result (findings.new ≡ found_more findings.old
        (flat_map (reread_findings (known_in lookups.now) cut text.now) words.now)) }
{
    for word in words {
        check_value(lookups, cut, text, *word, findings)?;
    }
    Ok(())
}

/// The same for one word.
pub(crate) fn check_value(
    lookups: &Lookups<'_>,
    cut: bool,
    text: &Text,
    word: Word,
    findings: &mut Findings<'_, '_>,
) -> Result<(), AllocError>
    ensures { OnOk result (findings.new ≡ found_more findings.old (reread_findings (known_in lookups.now) cut text.now word)) }
{
    let names = reread_names(lookups, cut, text, word)?;
    add_first(word.start as usize, &names, findings)
}

/// Adds the first of these names, if there is one.
fn add_first(
    count: usize,
    names: &[&[u8]],
    findings: &mut Findings<'_, '_>,
) -> Result<(), AllocError>
    ensures { OnOk result (findings.new ≡ found_more findings.old (reread_if count (map (λ n. n.now) names.now))) }
{
    match names {
        [] => Ok(()),
        [name, ..] => findings.add(
            count,
            FindingKind::RereadValue,
            b"a board reads quotes, backslashes, newlines and ` #` in the value of `",
            name,
            b"` anew",
        ),
    }
}

/// The names in a word whose values are read anew.
fn reread_names<'t>(
    lookups: &Lookups<'_>,
    cut: bool,
    text: &'t Text,
    word: Word,
) -> Result<Vec<&'t [u8]>, AllocError>
    ensures { IfOk result (λ names. map (λ n. n.now) names.items ≡ reread_names (known_in lookups.now) cut (word_atoms text.now word)) }
{
    let mut names = Vec::new(lookups.alloc);
    let mut left = text.parts(word);
    while let Some(part) = left.next_part() {
        push_name(lookups, cut, &mut names, text, part)?;
    }
    Ok(names)
}

/// Appends the name in a part, if its value is read anew.
fn push_name<'t>(
    lookups: &Lookups<'_>,
    cut: bool,
    names: &mut Vec<&'t [u8]>,
    text: &'t Text,
    part: Part,
) -> Result<(), AllocError>
    requires { Fits text.now.source part }
    ensures { OnOk result (map (λ n. n.now) names.new.items
        ≡ map (λ n. n.now) names.old.items ++ reread_names (known_in lookups.now) cut (part_atoms text.now.source part)) }
{
    match part {
        Part::Value(span, quoted) => push_if(
            lookups.is_reread(cut && !quoted, text.bytes(span)),
            names,
            text.bytes(span),
        ),
        Part::Plain(_) => Ok(()),
        Part::Quoted(_) => Ok(()),
        Part::Mark => Ok(()),
        Part::Status(_) => Ok(()),
    }
}

/// Appends a name, if it belongs there.
fn push_if<'t>(belongs: bool, names: &mut Vec<&'t [u8]>, name: &'t [u8]) -> Result<(), AllocError>
    ensures { OnOk result (map (λ n. n.now) names.new.items
        ≡ map (λ n. n.now) names.old.items ++ (if belongs then name.now ∷ [] else [])) }
{
    if belongs {
        names.push(name)?;
    }
    Ok(())
}
