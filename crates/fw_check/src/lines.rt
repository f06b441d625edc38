//! Lines of a check, in each format.
ghost use Rattle.std.specs.Prelude.{◌≡◌, ◌++◌, Some, map, OnOk};
ghost use Rattle.finding_kinds.specs.declared.choice.Format.TheVariants as formats;
ghost use Rattle.fw_check.specs.JsonLines.{line_in};
ghost use Rattle.fw_check.specs.Lines.{code_text, head_text, line_text, line_view, plain_byte, said_of, severity_name, severity_text, subject_text, subject_view};

use crate::excerpts::{Spot, push_excerpt};
use crate::findings::push_three;
use crate::json_lines::push_json;
use finding_kinds::{FindingKind, Format, Severity};
use fw_engines::Place;
use itoa::Buffer;
use std::alloc::{AllocError, Global};

/// What a line is about.
#[derive(Clone, Copy, Debug)]
pub(crate) enum Subject<'s> {
    /// The file of this path.
    File(&'s [u8]),
    /// The variable of this name.
    Variable(&'s [u8]),
    /// In the file of this path the entry of this name.
    Entry(&'s [u8], &'s [u8]),
    /// The check as a whole.
    Whole,
}

/// A finding, as it is told, with a sentence in three parts.
#[derive(Clone, Copy, Debug)]
pub(crate) struct Line<'l> {
    pub(crate) subject: Subject<'l>,
    pub(crate) place: Option<Place>,
    pub(crate) kind: FindingKind,
    pub(crate) before: &'l [u8],
    pub(crate) name: &'l [u8],
    pub(crate) after: &'l [u8],
    /// Where it is in a script.
    pub(crate) spot: Option<Spot<'l>>,
}

/// Appends a line in a format.
pub(crate) fn push_line(
    alloc: Global,
    format: Format,
    text: &mut Vec<u8>,
    line: &Line<'_>,
) -> Result<(), AllocError>
    ensures { OnOk result (text.new.items ≡ text.old.items ++ line_in format (line_view line.now)) }
{
    match format {
        Format::Text => push_as_text(text, line),
        Format::Gcc => push_as_compilers(alloc, text, line),
        Format::Json => push_json(alloc, text, line),
    }
}

/// The same as text.
fn push_as_text(text: &mut Vec<u8>, line: &Line<'_>) -> Result<(), AllocError>
    ensures { OnOk result
        (text.new.items ≡ text.old.items ++ line_in formats.Text (line_view line.now)) }
{
    push_whole(text, line)?;
    text.extend_from_slice(b"\n")?;
    push_excerpt(text, line.spot)
}

/// The same as compilers print it.
fn push_as_compilers(alloc: Global, text: &mut Vec<u8>, line: &Line<'_>) -> Result<(), AllocError>
    ensures { OnOk result
        (text.new.items ≡ text.old.items ++ line_in formats.Gcc (line_view line.now)) }
{
    let mut whole = Vec::new(alloc);
    push_whole(&mut whole, line)?;
    push_plain(text, &whole)?;
    text.extend_from_slice(b"\n")
}

/// Appends bytes of one line.
fn push_plain(text: &mut Vec<u8>, bytes: &[u8]) -> Result<(), AllocError>
    ensures { OnOk result (text.new.items ≡ text.old.items ++ map plain_byte bytes.now) }
{
    for byte in bytes {
        text.push(plain_byte(*byte))?;
    }
    Ok(())
}

/// A byte in such a line.
fn plain_byte(byte: u8) -> u8
    ensures { result ≡ plain_byte byte }
{
    if byte < 32 || byte == 127 { b'?' } else { byte }
}

/// Appends a line without its end.
fn push_whole(text: &mut Vec<u8>, line: &Line<'_>) -> Result<(), AllocError>
    ensures { OnOk result (text.new.items ≡ text.old.items ++ line_text (line_view line.now)) }
{
    push_head(text, subject_text(line.subject), line.place)?;
    push_said(text, line.kind, line.before, line.name, line.after)
}

/// What a line begins with.
fn subject_text<'s>(subject: Subject<'s>) -> &'s [u8]
    ensures { result.now ≡ subject_text (subject_view subject.entry) }
{
    match subject {
        Subject::File(path) => path,
        Subject::Variable(name) => name,
        Subject::Entry(path, _) => path,
        Subject::Whole => b"check",
    }
}

/// Appends a name, and a place if there is one.
fn push_head(text: &mut Vec<u8>, name: &[u8], place: Option<Place>) -> Result<(), AllocError>
    ensures { OnOk result (text.new.items ≡ text.old.items ++ head_text name.now place) }
{
    match place {
        None => text.extend_from_slice(name),
        Some(place) => push_place(text, name, place),
    }
}

/// Appends a name and a place.
fn push_place(text: &mut Vec<u8>, name: &[u8], place: Place) -> Result<(), AllocError>
    ensures { OnOk result (text.new.items ≡ text.old.items ++ head_text name.now (Some place)) }
{
    let mut line = Buffer::new();
    let mut column = Buffer::new();
    push_three(text, name, b":", line.format(place.line).as_bytes())?;
    text.extend_from_slice(b":")?;
    text.extend_from_slice(column.format(place.column).as_bytes())
}

/// Appends what a line has after its place or its name.
fn push_said(
    text: &mut Vec<u8>,
    kind: FindingKind,
    before: &[u8],
    name: &[u8],
    after: &[u8],
) -> Result<(), AllocError>
    ensures { OnOk result
        (text.new.items ≡ text.old.items ++ said_of kind (before.now ++ name.now ++ after.now)) }
{
    push_severity(text, kind)?;
    push_three(text, before, name, after)?;
    push_code(text, kind)
}

/// Appends how severe it is.
fn push_severity(text: &mut Vec<u8>, kind: FindingKind) -> Result<(), AllocError>
    ensures { OnOk result (text.new.items ≡ text.old.items ++ severity_text kind) }
{
    let name = severity_name(kind.severity());
    push_three(text, b": ", name.as_bytes(), b": ")
}

/// Appends the code of a kind.
fn push_code(text: &mut Vec<u8>, kind: FindingKind) -> Result<(), AllocError>
    ensures { OnOk result (text.new.items ≡ text.old.items ++ code_text kind) }
{
    push_three(text, b" [", kind.code().as_bytes(), b"]")
}

/// The name of a severity.
pub(crate) fn severity_name(severity: Severity) -> &'static str
    ensures { result.now ≡ severity_name severity }
{
    match severity {
        Severity::Error => "error",
        Severity::Warning => "warning",
        Severity::Note => "note",
    }
}
