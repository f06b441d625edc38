//! What boards do in different ways (docs/differences.md).
ghost use Rattle.std.specs.Prelude.{◌≡◌, OnOk, option_map};
ghost use Rattle.std.specs.List.{flat_map, list_any};
ghost use Rattle.fw_check.specs.CommandFindings.{exit_if, many_findings};
ghost use Rattle.fw_check.specs.Findings.{cut_findings, is_cut, is_cut_in, is_literal_cut, is_reserved, reserved_findings, unset_findings};
ghost use Rattle.hush_words.specs.Parts.{word_atoms};
ghost use Rattle.fw_check.specs.Found.{found_more};
ghost use Rattle.fw_check.specs.Literals.{literal_of};

use crate::findings::Findings;
use crate::literals::{has_mark, is_called, is_word_of, literal};
use crate::lookups::Lookups;
use finding_kinds::FindingKind;
use hush_syntax::{Text, Word};
use std::alloc::AllocError;

/// What is said of an `exit`.
const EXIT: &[u8] = b"U-Boot before 2025 ignores `exit` and goes on";

/// Adds an `exit`, if this is one.
pub(crate) fn check_exit(
    exits: bool,
    count: usize,
    findings: &mut Findings<'_, '_>,
) -> Result<(), AllocError>
    ensures { OnOk result (findings.new ≡ found_more findings.old (exit_if exits count)) }
{
    if exits {
        findings.add(count, FindingKind::Exit, EXIT, b"", b"")
    } else {
        Ok(())
    }
}

/// How many words of a command a U-Boot before 2025 takes.
const MOST_WORDS: usize = 16;

/// What is said of a command with more words.
const MANY: &[u8] = b"U-Boot before 2025 takes 16 words of a command at most";

/// Adds the first word of a command that is too many, if there is one.
pub(crate) fn check_count(words: &[Word], findings: &mut Findings<'_, '_>) -> Result<(), AllocError>
    ensures { OnOk result (findings.new ≡ found_more findings.old (many_findings words.now)) }
{
    match words.get(MOST_WORDS) {
        Some(word) => findings.add(word.start as usize, FindingKind::ManyWords, MANY, b"", b""),
        None => Ok(()),
    }
}

/// What is said of an assignment of nothing.
const UNSET: &[u8] = b"U-Boot before 2025 leaves the old value, if there is one";

/// Adds an assignment, if its value is nothing.
pub(crate) fn check_unset(
    lookups: &Lookups<'_>,
    text: &Text,
    count: usize,
    value: Word,
    findings: &mut Findings<'_, '_>,
) -> Result<(), AllocError>
    ensures { OnOk result (findings.new ≡ found_more findings.old (unset_findings count (literal_of (word_atoms text.now value)))) }
{
    let bytes = literal(lookups.alloc, text, value)?;
    if is_called(&bytes, b"") {
        findings.add(count, FindingKind::EmptyAssignment, UNSET, b"", b"")
    } else {
        Ok(())
    }
}

/// The words with which a board refuses a `for`, in quotes too.
const RESERVED: [&[u8]; 11] = [
    b"if", b"then", b"elif", b"else", b"fi", b"for", b"while", b"until", b"do", b"done", b"in",
];

/// What is said of one of them.
const REFUSED: &[u8] = b"a board refuses a reserved word in the list of a `for`";

/// Adds those of the words of a `for` with which a board refuses it.
pub(crate) fn check_reserved(
    lookups: &Lookups<'_>,
    text: &Text,
    words: &[Word],
    findings: &mut Findings<'_, '_>,
) -> Result<(), AllocError>
    ensures { OnOk result (findings.new ≡ found_more findings.old (flat_map (reserved_findings text.now) words.now)) }
{
    for word in words {
        check_reserved_word(lookups, text, *word, findings)?;
    }
    Ok(())
}

/// Adds a word, if a board refuses a `for` with it.
fn check_reserved_word(
    lookups: &Lookups<'_>,
    text: &Text,
    word: Word,
    findings: &mut Findings<'_, '_>,
) -> Result<(), AllocError>
    ensures { OnOk result (findings.new ≡ found_more findings.old (reserved_findings text.now word)) }
{
    let bytes = literal(lookups.alloc, text, word)?;
    if is_reserved(&bytes) {
        findings.add(
            word.start as usize,
            FindingKind::ReservedWordsOfFor,
            REFUSED,
            b"",
            b"",
        )
    } else {
        Ok(())
    }
}

fn is_reserved(word: &Option<Vec<u8>>) -> bool
    ensures { result ≡ is_reserved (option_map (λ v. v.items) word.now) }
{
    match word {
        Some(word) => is_word_of(&RESERVED, word),
        None => false,
    }
}

/// What is said of a word of a `for` that a board cuts.
const CUT: &[u8] = b"a board cuts this word of a `for` at its blanks, in quotes too";

/// Adds those of these words that a board cuts.
pub(crate) fn check_cuts(
    lookups: &Lookups<'_>,
    text: &Text,
    words: &[Word],
    findings: &mut Findings<'_, '_>,
) -> Result<(), AllocError>
    ensures { OnOk result (findings.new ≡ found_more findings.old (flat_map (cut_findings text.now) words.now)) }
{
    for word in words {
        check_cut(lookups, text, *word, findings)?;
    }
    Ok(())
}

/// Adds a word, if a board cuts it.
fn check_cut(
    lookups: &Lookups<'_>,
    text: &Text,
    word: Word,
    findings: &mut Findings<'_, '_>,
) -> Result<(), AllocError>
    ensures { OnOk result (findings.new ≡ found_more findings.old (cut_findings text.now word)) }
{
    let bytes = literal(lookups.alloc, text, word)?;
    if is_cut_in(text, word, &bytes) {
        findings.add(word.start as usize, FindingKind::QuotedFor, CUT, b"", b"")?;
    }
    Ok(())
}

/// Whether a board cuts a word, which is these bytes if it is without a substitution.
fn is_cut_in(text: &Text, word: Word, bytes: &Option<Vec<u8>>) -> bool
    ensures { result ≡ is_cut_in (word_atoms text.now word) (option_map (λ v. v.items) bytes.now) }
{
    match bytes {
        Some(bytes) => is_literal_cut(bytes),
        None => has_mark(text, word),
    }
}

/// Whether it cuts these bytes of a word, or takes it for none.
fn is_literal_cut(bytes: &[u8]) -> bool
    ensures { result ≡ is_literal_cut bytes.now }
{
    bytes.is_empty() || has_cut(bytes)
}

/// Whether it cuts a text.
fn has_cut(text: &[u8]) -> bool
    ensures { result ≡ list_any is_cut text.now }
{
    text.iter().any(|b| is_cut(*b))
}

/// Whether it cuts at a byte.
fn is_cut(b: u8) -> bool
    ensures { result ≡ is_cut b }
{
    b == b' ' || b == b'\n'
}
