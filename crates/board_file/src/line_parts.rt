//! The parts of a line: its words, and what is before and behind `->`.
ghost use Rattle.std.specs.Prelude.{◌≡◌, if◌then◌else◌, [], ◌∷◌, None, MatchOption, option_map};
ghost use Rattle.text_parts.specs.Bytes.{is_blank};
ghost use Rattle.hush_commands.specs.StandInLines.{words_of};
ghost use Rattle.board_file.specs.Answers.{trimmed};
ghost use Rattle.board_file.specs.BoardLines.{behind_arrow, cut_at_arrow, ends_here};

use memchr::memchr2;
use text_parts::without_blanks;

/// The first word of a text, and what follows it.
pub(crate) fn next_word(text: &[u8]) -> Option<(&[u8], &[u8])>
    ensures { MatchOption result (words_of text.now ≡ [])
        (λ found. words_of text.now ≡ found.0.now ∷ words_of found.1.now) }
{
    let rest = without_blanks(text);
    if rest.is_empty() {
        return None;
    }
    match memchr2(b' ', b'\t', rest) {
        Some(at) => Some((&rest[..at], &rest[at + 1..])),
        None => Some((rest, &[])),
    }
}

/// The text without the blanks at both ends.
pub(crate) fn trimmed(text: &[u8]) -> &[u8]
    ensures { result.now ≡ trimmed text.now }
{
    let mut rest = without_blanks(text);
    while let Some((last, front)) = rest.split_last() {
        if !is_blank(*last) {
            return rest;
        }
        rest = front;
    }
    rest
}

/// What is before the first word `->` of a line, and what is behind it.
pub(crate) fn cut_at_arrow(line: &[u8]) -> Option<(&[u8], &[u8])>
    ensures { option_map (λ parts. (parts.0.now, parts.1.now)) result ≡ cut_at_arrow line.now }
{
    let mut rest = line;
    let mut begins = true;
    let mut at = 0;
    while let Some((byte, others)) = rest.split_first() {
        match arrow_at(begins, rest) {
            Some(behind) => return Some((&line[..at], behind)),
            None => {
                begins = is_blank(*byte);
                rest = others;
                at += 1;
            }
        }
    }
    None
}

/// What is behind a word `->`, if a text begins with it and a word may begin there.
fn arrow_at(begins: bool, text: &[u8]) -> Option<&[u8]>
    ensures { option_map (λ behind. behind.now) result ≡ (if begins then behind_arrow text.now else None) }
{
    if begins { behind_arrow(text) } else { None }
}

/// What is behind a word `->`, if a text begins with it.
fn behind_arrow(text: &[u8]) -> Option<&[u8]>
    ensures { option_map (λ behind. behind.now) result ≡ behind_arrow text.now }
{
    match text {
        [b'-', b'>', behind @ ..] if ends_here(behind) => Some(behind),
        _ => None,
    }
}

/// Whether a word that is before this text ends here.
fn ends_here(text: &[u8]) -> bool
    ensures { result ≡ ends_here text.now }
{
    match text.split_first() {
        Some((byte, _others)) => is_blank(*byte),
        None => true,
    }
}

/// Whether a byte is a space or a tab.
fn is_blank(byte: u8) -> bool
    ensures { result ≡ is_blank byte }
{
    byte == b' ' || byte == b'\t'
}
