//! The words of a graph: texts in quotes, names of nodes, and how they look. docs/boot.md has the form.
ghost use Rattle.std.specs.Prelude.{◌≡◌, ◌<◌, ◌++◌, OnOk, slice_get};
ghost use Rattle.std.specs.List.{flat_map};
ghost use Rattle.boot_search.specs.DotText.{end_node, end_style, hex_byte, hex_digit, is_unset, label_text, mark_by, mark_style, node_name, note_text, quoted, quoted_byte};

use crate::board::End;
use crate::way_text::push_all;
use itoa::Buffer;
use std::alloc::AllocError;

/// What is said of a stored environment.
#[derive(Clone, Copy, Debug, PartialEq, Eq)]
pub(crate) enum Mark {
    /// Nothing.
    Plain,
    /// It boots only if a limit isn't met.
    Doubtful,
    /// It never boots again.
    Lost,
}

/// The mark of a stored environment, if all is listed.
pub(crate) fn mark_by(complete: bool, lost: bool, doubtful: bool) -> Mark
    ensures { result ≡ mark_by complete lost doubtful }
{
    match (complete, lost, doubtful) {
        (true, true, _) => Mark::Lost,
        (true, false, true) => Mark::Doubtful,
        (_, _, _) => Mark::Plain,
    }
}

/// Whether a mark is there and isn't set.
pub(crate) fn is_unset(marks: &[bool], place: usize) -> bool
    ensures { result ≡ is_unset (slice_get marks.now place) }
{
    match marks.get(place) {
        Some(mark) => !*mark,
        None => false,
    }
}

/// What is said of it, as a line.
pub(crate) fn note_text(mark: Mark) -> &'static [u8]
    ensures { result.now ≡ note_text mark }
{
    match mark {
        Mark::Plain => b"",
        Mark::Doubtful => b"boots only if a limit of the run isn't met\n",
        Mark::Lost => b"never boots again\n",
    }
}

/// How its node looks.
pub(crate) fn mark_style(mark: Mark) -> &'static [u8]
    ensures { result.now ≡ mark_style mark }
{
    match mark {
        Mark::Plain => b" shape=box",
        Mark::Doubtful => b" shape=box color=orange penwidth=2",
        Mark::Lost => b" shape=box color=red penwidth=2",
    }
}

/// Appends the name of a stored environment's node.
pub(crate) fn push_node_name(text: &mut Vec<u8>, place: usize) -> Result<(), AllocError>
    ensures { OnOk result (text.new.items ≡ text.old.items ++ node_name place) }
{
    let mut digits = Buffer::new();
    let number = place as u128 + 1;
    push_all(text, &[b"s", digits.format(number).as_bytes()])
}

/// Appends the name of the node to which a way leads that leaves what is stored as it is.
pub(crate) fn push_end_node(text: &mut Vec<u8>, end: End, to: usize) -> Result<(), AllocError>
    ensures { OnOk result (text.new.items ≡ text.old.items ++ end_node end to) }
{
    match end {
        End::Boots => push_all(text, &[b"boots"]),
        End::Resets => push_node_name(text, to),
        End::GivesUp => push_all(text, &[b"\"gives up\""]),
        End::Unknown => push_all(text, &[b"unknown"]),
    }
}

/// How the edge of a way looks.
pub(crate) fn end_style(end: End) -> &'static [u8]
    ensures { result.now ≡ end_style end }
{
    match end {
        End::Boots => b" color=darkgreen",
        End::Resets => b"",
        End::GivesUp => b" color=red",
        End::Unknown => b" color=orange",
    }
}

/// Appends what is written in a node or at an edge, and how that looks.
pub(crate) fn push_label(text: &mut Vec<u8>, label: &[u8], style: &[u8]) -> Result<(), AllocError>
    ensures { OnOk result (text.new.items ≡ text.old.items ++ label_text label.now style.now) }
{
    push_all(text, &[b" [label="])?;
    push_quoted(text, label)?;
    push_all(text, &[style, b"];\n"])
}

/// Appends a text in quotes.
pub(crate) fn push_quoted(text: &mut Vec<u8>, words: &[u8]) -> Result<(), AllocError>
    ensures { OnOk result (text.new.items ≡ text.old.items ++ quoted words.now) }
{
    push_all(text, &[b"\""])?;
    push_quoted_bytes(text, words)?;
    push_all(text, &[b"\""])
}

/// Appends the bytes of a text in quotes.
fn push_quoted_bytes(text: &mut Vec<u8>, words: &[u8]) -> Result<(), AllocError>
    ensures { OnOk result (text.new.items ≡ text.old.items ++ flat_map quoted_byte words.now) }
{
    for byte in words {
        push_quoted_byte(text, *byte)?;
    }
    Ok(())
}

/// Appends a byte of a text in quotes.
fn push_quoted_byte(text: &mut Vec<u8>, byte: u8) -> Result<(), AllocError>
    ensures { OnOk result (text.new.items ≡ text.old.items ++ quoted_byte byte) }
{
    match byte {
        b'\n' => push_all(text, &[b"\\l"]),
        b'"' => push_all(text, &[b"\\\""]),
        b'\\' => push_all(text, &[b"\\\\"]),
        b'&' => push_all(text, &[b"&amp;"]),
        b' '..=b'~' => push_all(text, &[&[byte]]),
        _ => push_hex(text, byte),
    }
}

/// Appends a byte by its number.
fn push_hex(text: &mut Vec<u8>, byte: u8) -> Result<(), AllocError>
    ensures { OnOk result (text.new.items ≡ text.old.items ++ hex_byte byte) }
{
    let digits = [hex_digit(byte / 16), hex_digit(byte % 16)];
    push_all(text, &[b"\\\\x", &digits])
}

/// A digit of a hexadecimal number.
fn hex_digit(digit: u8) -> u8
    requires { digit < 16 }
    ensures { result ≡ hex_digit digit }
{
    b"0123456789abcdef"[digit as usize]
}
