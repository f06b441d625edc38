//! Quotes, backslashes, names and line ends of a script that a board reads in another way (docs/check.md, "Quoting").
ghost use Rattle.std.specs.Prelude.{◌≡◌, OnOk};
ghost use Rattle.fw_check.specs.Found.{found_more};
ghost use Rattle.fw_check.specs.Quoting.{after, after_double, after_gap, after_plain, is_space, odd_after_backslash, odd_after_dollar, odd_at, odd_finding, odd_if, odd_kind, odd_place, odd_sentence, quoting_findings};

use crate::findings::Findings;
use finding_kinds::FindingKind;
use std::alloc::AllocError;

/// What a byte of a script is in. `loose`: only blanks, comments and joined lines are between an operator and it.
#[derive(Clone, Copy, Debug, PartialEq, Eq)]
pub(crate) enum Inside {
    /// What is between words.
    Gap { loose: bool },
    /// The same, behind a backslash.
    GapEscape { loose: bool },
    /// A comment.
    Comment { loose: bool },
    /// A word, outside of quotes.
    Plain,
    /// The same, behind a backslash.
    Escape,
    /// The same, behind a `$`.
    Dollar,
    /// `'..'`
    Single,
    /// `".."`
    Double,
    /// The same, behind a backslash.
    DoubleEscape,
    /// The same, behind a `$`.
    DoubleDollar,
}

/// What a board reads in another way.
#[derive(Clone, Copy, Debug, PartialEq, Eq)]
pub(crate) enum Odd {
    /// A backslash before a newline.
    Joined,
    /// A newline behind an operator.
    Loose,
    /// A `'` in double quotes.
    Apostrophe,
    /// A backslash in single quotes.
    Dropped,
    /// A backslash in double quotes, before a byte that it makes stand for itself.
    Kept,
    /// A `$` before a `_`.
    Underscored,
}

/// Adds what a board reads in another way in a text.
pub(crate) fn check_quoting(text: &[u8], findings: &mut Findings<'_, '_>) -> Result<(), AllocError>
    ensures { OnOk result (findings.new ≡ found_more findings.old (quoting_findings text.now)) }
{
    let mut inside = Inside::Gap { loose: false };
    let mut count = 0;
    while count < text.len() {
        let byte = text[count];
        add_odd(count, inside.odd_at(byte), findings)?;
        inside = inside.after(byte);
        count += 1;
    }
    Ok(())
}

/// Adds what a board reads in another way at a byte, if it does.
fn add_odd(
    count: usize,
    odd: Option<Odd>,
    findings: &mut Findings<'_, '_>,
) -> Result<(), AllocError>
    ensures { OnOk result (findings.new ≡ found_more findings.old (odd_finding count odd)) }
{
    match odd {
        Some(odd) => findings.add(odd.place(count), odd.kind(), odd.sentence(), b"", b""),
        None => Ok(()),
    }
}

impl Inside {
    /// What the byte behind this one is in.
    fn after(self, byte: u8) -> Inside
        ensures { result ≡ after self byte }
    {
        match self {
            Inside::Gap { loose } => after_gap(loose, byte),
            Inside::GapEscape { loose } => {
                if byte == b'\n' {
                    Inside::Gap { loose }
                } else {
                    Inside::Plain
                }
            }
            Inside::Comment { loose } => {
                if byte == b'\n' {
                    Inside::Gap { loose: false }
                } else {
                    Inside::Comment { loose }
                }
            }
            Inside::Plain => after_plain(byte),
            Inside::Escape => Inside::Plain,
            Inside::Dollar => after_plain(byte),
            Inside::Single => {
                if byte == b'\'' {
                    Inside::Plain
                } else {
                    Inside::Single
                }
            }
            Inside::Double => after_double(byte),
            Inside::DoubleEscape => Inside::Double,
            Inside::DoubleDollar => after_double(byte),
        }
    }

    /// What a board reads in another way at this byte, or at the one before it.
    fn odd_at(self, byte: u8) -> Option<Odd>
        ensures { result ≡ odd_at self byte }
    {
        match self {
            Inside::Gap { loose } => odd_if(loose && byte == b'\n', Odd::Loose),
            Inside::GapEscape { .. } => odd_if(byte == b'\n', Odd::Joined),
            Inside::Comment { loose } => odd_if(loose && byte == b'\n', Odd::Loose),
            Inside::Plain => None,
            Inside::Escape => odd_if(byte == b'\n', Odd::Joined),
            Inside::Dollar => odd_if(byte == b'_', Odd::Underscored),
            Inside::Single => odd_if(byte == b'\\', Odd::Dropped),
            Inside::Double => odd_if(byte == b'\'', Odd::Apostrophe),
            Inside::DoubleEscape => odd_after_backslash(byte),
            Inside::DoubleDollar => odd_after_dollar(byte),
        }
    }
}

impl Odd {
    /// The kind of its finding.
    fn kind(self) -> FindingKind
        ensures { result ≡ odd_kind self }
    {
        match self {
            Odd::Joined => FindingKind::JoinedLines,
            Odd::Loose => FindingKind::LooseOperators,
            Odd::Apostrophe => FindingKind::Apostrophes,
            Odd::Dropped => FindingKind::BackslashesInQuotes,
            Odd::Kept => FindingKind::BackslashesInQuotes,
            Odd::Underscored => FindingKind::UnderscoredNames,
        }
    }

    /// What is said of it.
    fn sentence(self) -> &'static [u8]
        ensures { result.now ≡ odd_sentence self }
    {
        match self {
            Odd::Joined => b"a board takes this newline into a word, and does not join the lines",
            Odd::Loose => b"a board runs the next line whatever the status here is",
            Odd::Apostrophe => b"a board takes this `'` for the beginning or the end of a quote",
            Odd::Dropped => b"a board drops this backslash",
            Odd::Kept => b"a board keeps this backslash",
            Odd::Underscored => b"a board substitutes a name that begins with `_` in braces only",
        }
    }

    /// Where it is, if so many bytes are before the one at which it is seen.
    fn place(self, count: usize) -> usize
        ensures { result ≡ odd_place self count }
    {
        match self {
            Odd::Joined => count.saturating_sub(1),
            Odd::Loose => count,
            Odd::Apostrophe => count,
            Odd::Dropped => count,
            Odd::Kept => count.saturating_sub(1),
            Odd::Underscored => count.saturating_sub(1),
        }
    }
}

fn odd_if(here: bool, odd: Odd) -> Option<Odd>
    ensures { result ≡ odd_if here odd }
{
    if here { Some(odd) } else { None }
}

/// What a board reads in another way at the byte behind a backslash in double quotes.
fn odd_after_backslash(byte: u8) -> Option<Odd>
    ensures { result ≡ odd_after_backslash byte }
{
    if byte == b'\n' {
        Some(Odd::Joined)
    } else if byte == b'\'' {
        Some(Odd::Apostrophe)
    } else {
        odd_if(byte == b'"' || byte == b'$' || byte == b'\\', Odd::Kept)
    }
}

/// The same behind a `$`.
fn odd_after_dollar(byte: u8) -> Option<Odd>
    ensures { result ≡ odd_after_dollar byte }
{
    if byte == b'_' {
        Some(Odd::Underscored)
    } else {
        odd_if(byte == b'\'', Odd::Apostrophe)
    }
}

/// What is behind a byte between words.
fn after_gap(loose: bool, byte: u8) -> Inside
    ensures { result ≡ after_gap loose byte }
{
    if byte == b'\\' {
        Inside::GapEscape { loose }
    } else if byte == b'#' {
        Inside::Comment { loose }
    } else if is_space(byte) {
        Inside::Gap { loose }
    } else {
        after_plain(byte)
    }
}

/// What is behind a byte of a word, outside of quotes.
fn after_plain(byte: u8) -> Inside
    ensures { result ≡ after_plain byte }
{
    if byte == b'\\' {
        Inside::Escape
    } else if byte == b'\'' {
        Inside::Single
    } else if byte == b'"' {
        Inside::Double
    } else if byte == b'$' {
        Inside::Dollar
    } else if is_space(byte) || byte == b'\n' || byte == b';' {
        Inside::Gap { loose: false }
    } else if byte == b'&' || byte == b'|' {
        Inside::Gap { loose: true }
    } else {
        Inside::Plain
    }
}

/// What is behind a byte in double quotes.
fn after_double(byte: u8) -> Inside
    ensures { result ≡ after_double byte }
{
    if byte == b'"' {
        Inside::Plain
    } else if byte == b'\\' {
        Inside::DoubleEscape
    } else if byte == b'$' {
        Inside::DoubleDollar
    } else {
        Inside::Double
    }
}

fn is_space(byte: u8) -> bool
    ensures { result ≡ is_space byte }
{
    byte == b' ' || byte == b'\t'
}
