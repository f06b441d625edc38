//! The line of a script in which something is found, and a caret below it.
ghost use Rattle.std.specs.Prelude.{◌≡◌, ◌≤◌, ◌++◌, OnOk, length, map, not, option_map, replicate};
ghost use Rattle.fw_check.specs.Excerpts.{dots, ends_line, excerpt_at, excerpt_of, is_cut_before, shown_byte, shown_from, shown_line, shown_to, caret_line, spot_view};

use std::alloc::AllocError;

/// A place in a text.
#[derive(Clone, Copy, Debug)]
pub(crate) struct Spot<'t> {
    pub(crate) text: &'t [u8],
    /// How many of its bytes are before it.
    pub(crate) count: usize,
}

/// How many bytes of the line are shown at most before a place.
const MOST_BEFORE: usize = 30;

/// How many are shown at most from it on.
const MOST_BEHIND: usize = 40;

/// What stands for those that are not shown.
const DOTS: &[u8] = b"...";

/// Appends the line in which a place is, and below it a caret, if there is a place.
pub(crate) fn push_excerpt(text: &mut Vec<u8>, spot: Option<Spot<'_>>) -> Result<(), AllocError>
    ensures { OnOk result (text.new.items ≡ text.old.items ++ excerpt_of (option_map spot_view spot.entry)) }
{
    match spot {
        Some(spot) => push_at(text, spot.text, spot.count.min(spot.text.len())),
        None => Ok(()),
    }
}

/// Appends the line in which a place of a source is, and below it a caret.
#[tactic(auto, unfolding(crate::specs::Excerpts::excerpt_at))]
fn push_at(text: &mut Vec<u8>, source: &[u8], at: usize) -> Result<(), AllocError>
    requires { at ≤ length source.now }
    ensures { OnOk result (text.new.items ≡ text.old.items ++ excerpt_at source.now at) }
{
    let from = shown_from(source, at);
    push_line(text, source, from, shown_to(source, at))?;
    push_caret(text, source, from, at)
}

/// Appends a line of a source as far as it is shown.
fn push_line(text: &mut Vec<u8>, source: &[u8], from: usize, to: usize) -> Result<(), AllocError>
    requires order { from ≤ to }
    requires inside { to ≤ length source.now }
    ensures { OnOk result (text.new.items ≡ text.old.items ++ shown_line source.now from to) }
{
    text.extend_from_slice(dots(is_cut_before(source, from)))?;
    push_shown(text, &source[from..to])?;
    text.extend_from_slice(dots(!ends_line(source, to)))?;
    text.extend_from_slice(b"\n")
}

/// Appends a caret below a place of a line that is shown from another one on.
fn push_caret(text: &mut Vec<u8>, source: &[u8], from: usize, at: usize) -> Result<(), AllocError>
    requires order { from ≤ at }
    requires inside { at ≤ length source.now }
    ensures { OnOk result (text.new.items ≡ text.old.items ++ caret_line source.now from at) }
{
    push_spaces(text, dots(is_cut_before(source, from)).len())?;
    push_spaces(text, at - from)?;
    text.extend_from_slice(b"^\n")
}

/// Appends so many spaces.
fn push_spaces(text: &mut Vec<u8>, count: usize) -> Result<(), AllocError>
    ensures { OnOk result (text.new.items ≡ text.old.items ++ replicate count 32) }
{
    for _ in 0..count {
        text.push(b' ')?;
    }
    Ok(())
}

/// Appends bytes of a line.
fn push_shown(text: &mut Vec<u8>, bytes: &[u8]) -> Result<(), AllocError>
    ensures { OnOk result (text.new.items ≡ text.old.items ++ map shown_byte bytes.now) }
{
    for byte in bytes {
        text.push(shown_byte(*byte))?;
    }
    Ok(())
}

/// As what a byte is shown.
fn shown_byte(byte: u8) -> u8
    ensures { result ≡ shown_byte byte }
{
    if byte == b'\t' {
        b' '
    } else if byte < 32 || 126 < byte {
        b'?'
    } else {
        byte
    }
}

/// Where what is shown begins before a place.
fn shown_from(source: &[u8], at: usize) -> usize
    requires { at ≤ length source.now }
    ensures from { result ≡ shown_from 30 source.now at }
    ensures before { result ≤ at }
{
    let (mut from, mut left) = (at, MOST_BEFORE);
    while left > 0 && is_cut_before(source, from) {
        from -= 1;
        left -= 1;
    }
    from
}

/// Where it ends behind a place.
fn shown_to(source: &[u8], at: usize) -> usize
    requires { at ≤ length source.now }
    ensures to { result ≡ shown_to 40 source.now at }
    ensures behind { at ≤ result }
    ensures inside { result ≤ length source.now }
{
    let (mut to, mut left) = (at, MOST_BEHIND);
    while left > 0 && !ends_line(source, to) {
        to += 1;
        left -= 1;
    }
    to
}

/// Whether something of the line is before a place.
fn is_cut_before(source: &[u8], at: usize) -> bool
    ensures { result ≡ is_cut_before source.now at }
{
    at > 0 && !ends_line(source, at - 1)
}

/// Whether a line ends here.
fn ends_line(source: &[u8], at: usize) -> bool
    ensures { result ≡ ends_line source.now at }
{
    match source.get(at) {
        Some(byte) => *byte == b'\n',
        None => true,
    }
}

/// The dots of a line that is cut, if it is.
fn dots(cut: bool) -> &'static [u8]
    ensures { result.now ≡ dots cut }
{
    if cut { DOTS } else { b"" }
}
