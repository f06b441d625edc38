//! Words that are written for another shell.
ghost use Rattle.std.specs.Prelude.{◌≡◌, IfOk, OnOk, option_map};
ghost use Rattle.std.specs.List.{flat_map, list_any};
ghost use Rattle.hush_words.specs.Parts.{part_atoms, word_atoms};
ghost use Rattle.hush_words.specs.Ranges.{Fits};
ghost use Rattle.fw_check.specs.CommandFindings.{foreign_findings};
ghost use Rattle.fw_check.specs.Foreign.{begins_redirection, foreign_of, foreign_sentence, is_backquote, is_braced, plain_of};
ghost use Rattle.fw_check.specs.Found.{found_more};

use crate::findings::Findings;
use crate::lookups::Lookups;
use finding_kinds::FindingKind;
use hush_syntax::{Part, Text, Word};
use std::alloc::{AllocError, Global};

/// What another shell would make of a word.
#[derive(Clone, Copy, Debug, PartialEq, Eq)]
pub(crate) enum Foreign {
    /// The output of a command.
    Backquotes,
    /// A list or a range of words.
    Braces,
    /// The name of a file for the output, or what precedes one.
    Redirection,
}

impl Foreign {
    /// What is said of it.
    fn sentence(self) -> &'static [u8]
        ensures { result.now ≡ foreign_sentence self }
    {
        match self {
            Foreign::Backquotes => b"this shell runs nothing in backquotes",
            Foreign::Braces => b"these braces are a part of the word: write `${NAME}` for a value",
            Foreign::Redirection => b"this shell redirects nothing",
        }
    }
}

/// Adds those of these words that are written for another shell.
pub(crate) fn check_foreign(
    lookups: &Lookups<'_>,
    text: &Text,
    words: &[Word],
    findings: &mut Findings<'_, '_>,
) -> Result<(), AllocError>
    ensures { OnOk result (findings.new ≡ found_more findings.old (flat_map (foreign_findings text.now) words.now)) }
{
    for word in words {
        check_word(lookups, text, *word, findings)?;
    }
    Ok(())
}

/// Adds a word, if it is written so.
fn check_word(
    lookups: &Lookups<'_>,
    text: &Text,
    word: Word,
    findings: &mut Findings<'_, '_>,
) -> Result<(), AllocError>
    ensures { OnOk result (findings.new ≡ found_more findings.old (foreign_findings text.now word)) }
{
    let plain = plain_of(lookups.alloc, text, word)?;
    match foreign_of(&plain) {
        Some(foreign) => findings.add(
            word.start as usize,
            FindingKind::OtherShell,
            foreign.sentence(),
            b"",
            b"",
        ),
        None => Ok(()),
    }
}

/// The bytes of a word that are in no quotes and of no substitution.
pub(crate) fn plain_of(alloc: Global, text: &Text, word: Word) -> Result<Vec<u8>, AllocError>
    ensures { IfOk result (λ plain. plain.items ≡ plain_of (word_atoms text.now word)) }
{
    let mut plain = Vec::new(alloc);
    let mut left = text.parts(word);
    while let Some(part) = left.next_part() {
        plain.extend_from_slice(plain_part(text, part))?;
    }
    Ok(plain)
}

/// Those of a part.
fn plain_part(text: &Text, part: Part) -> &[u8]
    requires { Fits text.now.source part }
    ensures { result.now ≡ plain_of (part_atoms text.now.source part) }
{
    match part {
        Part::Plain(span) => text.bytes(span),
        Part::Quoted(_) => b"",
        Part::Mark => b"",
        Part::Value(_, _) => b"",
        Part::Status(_) => b"",
    }
}

/// What another shell would make of a word with these plain bytes.
fn foreign_of(plain: &[u8]) -> Option<Foreign>
    ensures { result ≡ foreign_of plain.now }
{
    if has_backquote(plain) {
        Some(Foreign::Backquotes)
    } else if is_braced(plain) {
        Some(Foreign::Braces)
    } else if begins_redirection(plain) {
        Some(Foreign::Redirection)
    } else {
        None
    }
}

fn has_backquote(plain: &[u8]) -> bool
    ensures { result ≡ list_any is_backquote plain.now }
{
    plain.iter().any(|b| is_backquote(*b))
}

fn is_backquote(b: u8) -> bool
    ensures { result ≡ is_backquote b }
{
    b == b'`'
}

/// Whether it is `{`, something, and `}`.
fn is_braced(plain: &[u8]) -> bool
    ensures { result ≡ is_braced plain.now }
{
    match plain {
        [first, rest @ ..] => *first == b'{' && rest.len() != 1 && rest.ends_with(b"}"),
        _ => false,
    }
}

fn begins_redirection(plain: &[u8]) -> bool
    ensures { result ≡ begins_redirection plain.now }
{
    match plain {
        [first, ..] => *first == b'>',
        _ => false,
    }
}
