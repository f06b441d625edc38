//! Lines of a check as JSON.
ghost use Rattle.std.specs.Prelude.{◌≡◌, ◌++◌, [], ◌∷◌, IfOk, OnOk, decimal, string_bytes};
ghost use Rattle.fw_check.specs.JsonLines.{code_member, column_member, file_member, first_members, json_text, last_members, line_member, message_member, place_members, second_members, severity_member, text_json, told_members, variable_member};
ghost use Rattle.fw_check.specs.Lines.{line_view, subject_view};

use crate::findings::push_three;
use crate::lines::{Line, Subject, severity_name};
use finding_kinds::FindingKind;
use fw_engines::Place;
use itoa::Buffer;
use serde_json::Value;
use std::alloc::{AllocError, Global};

/// Appends a line as JSON.
pub(crate) fn push_json(
    alloc: Global,
    text: &mut Vec<u8>,
    line: &Line<'_>,
) -> Result<(), AllocError>
    ensures { OnOk result (text.new.items ≡ text.old.items ++ json_text (line_view line.now) ++ 10 ∷ []) }
{
    push_place_members(alloc, text, line)?;
    push_told_members(alloc, text, line)?;
    text.extend_from_slice(b"\n")
}

/// Appends its code, and where it is.
fn push_place_members(alloc: Global, text: &mut Vec<u8>, line: &Line<'_>) -> Result<(), AllocError>
    ensures { OnOk result (text.new.items ≡ text.old.items ++ place_members (line_view line.now)) }
{
    push_code_and_column(text, line)?;
    push_file_and_row(alloc, text, line)
}

/// Appends its code and its column.
fn push_code_and_column(text: &mut Vec<u8>, line: &Line<'_>) -> Result<(), AllocError>
    ensures { OnOk result (text.new.items ≡ text.old.items ++ first_members (line_view line.now)) }
{
    push_code(text, line.kind)?;
    push_column(text, line.place)
}

/// Appends its file and its line.
fn push_file_and_row(alloc: Global, text: &mut Vec<u8>, line: &Line<'_>) -> Result<(), AllocError>
    ensures { OnOk result (text.new.items ≡ text.old.items ++ second_members (line_view line.now)) }
{
    push_file(alloc, text, line.subject)?;
    push_row(text, line.place)
}

/// Appends the other members.
fn push_told_members(alloc: Global, text: &mut Vec<u8>, line: &Line<'_>) -> Result<(), AllocError>
    ensures { OnOk result (text.new.items ≡ text.old.items ++ told_members (line_view line.now)) }
{
    push_message(alloc, text, line)?;
    push_last(alloc, text, line)
}

/// Appends its severity and its variable.
fn push_last(alloc: Global, text: &mut Vec<u8>, line: &Line<'_>) -> Result<(), AllocError>
    ensures { OnOk result (text.new.items ≡ text.old.items ++ last_members (line_view line.now)) }
{
    push_severity(text, line.kind)?;
    push_variable(alloc, text, line.subject)
}

/// Appends the code, and the name of the next member.
fn push_code(text: &mut Vec<u8>, kind: FindingKind) -> Result<(), AllocError>
    ensures { OnOk result (text.new.items ≡ text.old.items ++ code_member kind) }
{
    push_three(
        text,
        b"{\"code\":\"",
        kind.code().as_bytes(),
        b"\",\"column\":",
    )
}

/// The same for the column.
fn push_column(text: &mut Vec<u8>, place: Option<Place>) -> Result<(), AllocError>
    ensures { OnOk result (text.new.items ≡ text.old.items ++ column_member place) }
{
    match place {
        None => text.extend_from_slice(b"null,\"file\":"),
        Some(place) => push_number(text, place.column, b",\"file\":"),
    }
}

/// The same for the file.
fn push_file(alloc: Global, text: &mut Vec<u8>, subject: Subject<'_>) -> Result<(), AllocError>
    ensures { OnOk result (text.new.items ≡ text.old.items ++ file_member (subject_view subject.entry)) }
{
    match subject {
        Subject::File(path) => push_text(alloc, text, path, b",\"line\":"),
        Subject::Entry(path, _) => push_text(alloc, text, path, b",\"line\":"),
        Subject::Variable(_) => text.extend_from_slice(b"null,\"line\":"),
        Subject::Whole => text.extend_from_slice(b"null,\"line\":"),
    }
}

/// The same for the line.
fn push_row(text: &mut Vec<u8>, place: Option<Place>) -> Result<(), AllocError>
    ensures { OnOk result (text.new.items ≡ text.old.items ++ line_member place) }
{
    match place {
        None => text.extend_from_slice(b"null,\"message\":"),
        Some(place) => push_number(text, place.line, b",\"message\":"),
    }
}

/// The same for the sentence.
fn push_message(alloc: Global, text: &mut Vec<u8>, line: &Line<'_>) -> Result<(), AllocError>
    ensures { OnOk result
        (text.new.items ≡ text.old.items ++ message_member (line_view line.now).sentence) }
{
    let mut sentence = Vec::new(alloc);
    push_three(&mut sentence, line.before, line.name, line.after)?;
    push_text(alloc, text, &sentence, b",\"severity\":\"")
}

/// The same for the severity.
fn push_severity(text: &mut Vec<u8>, kind: FindingKind) -> Result<(), AllocError>
    ensures { OnOk result (text.new.items ≡ text.old.items ++ severity_member kind) }
{
    let name = severity_name(kind.severity());
    push_three(text, name.as_bytes(), b"\",\"variable\":", b"")
}

/// Appends the variable, and the end of the object.
fn push_variable(alloc: Global, text: &mut Vec<u8>, subject: Subject<'_>) -> Result<(), AllocError>
    ensures { OnOk result
        (text.new.items ≡ text.old.items ++ variable_member (subject_view subject.entry)) }
{
    match subject {
        Subject::Variable(name) => push_text(alloc, text, name, b"}"),
        Subject::Entry(_, name) => push_text(alloc, text, name, b"}"),
        Subject::File(_) => text.extend_from_slice(b"null}"),
        Subject::Whole => text.extend_from_slice(b"null}"),
    }
}

/// Appends a text as JSON, and what follows it.
fn push_text(
    alloc: Global,
    text: &mut Vec<u8>,
    bytes: &[u8],
    after: &[u8],
) -> Result<(), AllocError>
    ensures { OnOk result (text.new.items ≡ text.old.items ++ text_json bytes.now ++ after.now) }
{
    let json = text_json(alloc, bytes)?;
    push_three(text, json.as_bytes(), after, b"")
}

/// A text as JSON.
fn text_json(alloc: Global, bytes: &[u8]) -> Result<String, AllocError>
    ensures { IfOk result (λ s. string_bytes s ≡ text_json bytes.now) }
{
    let text = String::from_utf8_lossy(alloc, bytes)?;
    Value::String(text).to_string(alloc)
}

/// Appends a number, and what follows it.
fn push_number(text: &mut Vec<u8>, number: usize, after: &[u8]) -> Result<(), AllocError>
    ensures { OnOk result (text.new.items ≡ text.old.items ++ decimal number ++ after.now) }
{
    let mut digits = Buffer::new();
    push_three(text, digits.format(number).as_bytes(), after, b"")
}
