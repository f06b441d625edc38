//! The lines of a source.
ghost use Rattle.std.specs.Prelude.{◌≡◌, ◌≤◌, length, option_copied, option_map};
ghost use Rattle.std.specs.List.{position_or_len};
ghost use Rattle.text_parts.specs.Bytes.{begins};
ghost use Rattle.env_source.specs.SourceLines.{appended, before_plus, cut_at_equals, defined, ends_name, fault_of, is_marker, is_name, is_octal, line_view, numbered, opens_comment, read_line, written};

use crate::source_fault::Flaw;
use memchr::memchr2;
use text_parts::{Base, begins_with_byte, contains_byte, digits_in_front, without_blanks};

/// What a line of a source says.
#[derive(Clone, Copy, Debug)]
pub(crate) enum SourceLine<'a> {
    /// Nothing.
    Skipped,
    /// The value before it goes on with this text.
    GoesOn(&'a [u8]),
    /// A variable begins, and its value with this text.
    Sets(&'a [u8], &'a [u8]),
    /// The same, and what the variable has so far is before this text.
    Appends(&'a [u8], &'a [u8]),
}

/// Reads a line.
pub(crate) fn read_line(line: &[u8]) -> Result<SourceLine<'_>, Flaw>
    ensures { line_view result ≡ read_line line.now }
{
    if contains_byte(0, line) {
        return Err(Flaw::Nul);
    }
    if contains_byte(b'\r', line) {
        return Err(Flaw::CarriageReturn);
    }
    if is_marker(line) {
        return Ok(SourceLine::Skipped);
    }
    written(line)
}

/// Reads a line that the preprocessor didn't write.
fn written(line: &[u8]) -> Result<SourceLine<'_>, Flaw>
    ensures { line_view result ≡ written line.now }
{
    let text = without_blanks(line);
    if text.is_empty() {
        return Ok(SourceLine::Skipped);
    }
    match fault_of(text) {
        Some(flaw) => Err(flaw),
        None => match cut_at_equals(line) {
            Some((name, value)) => defined(name, value),
            None => Ok(SourceLine::GoesOn(text)),
        },
    }
}

/// Whether the preprocessor wrote the line: `# 12 "board.env"`, from which line of which file what follows it comes.
fn is_marker(line: &[u8]) -> bool
    ensures { result ≡ is_marker line.now }
{
    match line {
        [b'#', b' ', rest @ ..] => numbered(rest),
        _ => false,
    }
}

/// Whether a text has a number, a space and a quote at its front.
fn numbered(text: &[u8]) -> bool
    ensures { result ≡ numbered text.now }
{
    let digits = digits_in_front(Base::Decimal, text);
    if digits.is_empty() {
        return false;
    }
    match &text[digits.len()..] {
        [b' ', b'"', ..] => true,
        _ => false,
    }
}

/// What is wrong with a text that has no blanks at its front, whatever line it is in.
fn fault_of(text: &[u8]) -> Option<Flaw>
    ensures { result ≡ fault_of text.now }
{
    if begins_with_byte(b'#', text) {
        return Some(Flaw::Directive);
    }
    if opens_comment(text) {
        return Some(Flaw::Comment);
    }
    if contains_byte(b'\\', text) {
        return Some(Flaw::Backslash);
    }
    None
}

/// Whether a comment for the preprocessor is at the front of a text.
fn opens_comment(text: &[u8]) -> bool
    ensures { result ≡ opens_comment text.now }
{
    match text {
        [b'/', b'*', ..] => true,
        _ => false,
    }
}

/// The name and what is behind it, if the line defines a variable: bytes other than spaces and `=`, the first of which isn't a
/// tab, and behind them `=`.
fn cut_at_equals(line: &[u8]) -> Option<(&[u8], &[u8])>
    ensures { option_map (λ parts. (parts.0.now, parts.1.now)) result ≡ cut_at_equals line.now }
{
    let (name, behind) = line.split_at(name_len(line));
    match behind.split_first() {
        Some((byte, value)) if *byte == b'=' && is_name(name) => Some((name, value)),
        _ => None,
    }
}

/// How many bytes are before the first space or `=`.
fn name_len(line: &[u8]) -> usize
    ensures value { result ≡ position_or_len ends_name line.now }
    ensures within { result ≤ length line.now }
{
    memchr2(b' ', b'=', line).unwrap_or(line.len())
}

/// Whether a name may have these bytes.
fn is_name(name: &[u8]) -> bool
    ensures { result ≡ is_name name.now }
{
    !name.is_empty() && !begins_with_byte(b'\t', name)
}

/// The beginning of a variable with this name, to which `+` may belong, and of its value.
fn defined<'a>(name: &'a [u8], value: &'a [u8]) -> Result<SourceLine<'a>, Flaw>
    ensures { line_view result ≡ defined name.now value.now }
{
    if contains_byte(b'\t', name) {
        return Err(Flaw::Tab);
    }
    if begins_with_digit(name) {
        return Err(Flaw::Digit);
    }
    match before_plus(name) {
        Some(stem) => appended(stem, value),
        None => Ok(SourceLine::Sets(name, value)),
    }
}

/// Whether a name begins with a digit that the C compiler would add to the `\0` before it.
fn begins_with_digit(name: &[u8]) -> bool
    ensures { result ≡ begins is_octal name.now }
{
    !digits_in_front(Base::Octal, name).is_empty()
}

/// What is before a `+` at the end of a name.
fn before_plus(name: &[u8]) -> Option<&[u8]>
    ensures { option_copied result ≡ before_plus name.now }
{
    match name.split_last() {
        Some((last, stem)) if *last == b'+' => Some(stem),
        _ => None,
    }
}

/// What is added to the value of a name.
fn appended<'a>(name: &'a [u8], value: &'a [u8]) -> Result<SourceLine<'a>, Flaw>
    ensures { line_view result ≡ appended name.now value.now }
{
    if name.is_empty() {
        return Err(Flaw::NoName);
    }
    if value.is_empty() {
        return Err(Flaw::NoAddition);
    }
    Ok(SourceLine::Appends(name, value))
}
