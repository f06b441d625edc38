//! Text for export.
ghost use Rattle.std.specs.Prelude.{◌≡◌, ◌++◌, ◌≤◌, ◌+◌, ◌↔◌, IfSome, IsTrue, OnOk, OnErr, IsErrOf, length, vec_len, vec_capacity};
ghost use Rattle.envimg_core.specs.Environment.{is_name, is_value};
ghost use Rattle.text_parts.specs.Bytes.{begins};
ghost use Rattle.envcfg_core.specs.Import.{is_skipped};
ghost use Rattle.envcfg_core.specs.Export.{exported, escaped, is_unreadable};

use memchr::memchr2;
use text_parts::contains_byte;
use thiserror::Error;

/// Why a variable isn't exported.
#[derive(Clone, Copy, Debug, PartialEq, Eq, Error)]
pub enum ExportFault {
    /// An import would not read the name back: it begins with a space, a tab or `#`, or holds a newline.
    #[error("Name")]
    Name,
    /// A growth was refused.
    #[error("Memory")]
    Memory,
}

/// Appends a variable as text for import: the name, `=`, the value with `\` before each `\` and each newline,
/// and a newline (docs/texts.md, "Text for import and export").
///
/// `Name` if an import would not read the name back; `Memory` if a growth was refused. A refusal leaves
/// the output as it was. The name and the value have the forms of docs/images.md, "Names and values".
pub fn export_entry(name: &[u8], value: &[u8], output: &mut Vec<u8>) -> Result<(), ExportFault>
    requires name { IsTrue (is_name name.now) }
    requires value { IsTrue (is_value value.now) }
    ensures appended { OnOk result (output.new.items ≡ output.old.items ++ exported name.now value.now) }
    ensures named { IsErrOf result ExportFault.Name ↔ IsTrue (is_unreadable name.now) }
    ensures unchanged { OnErr result (output.new.items ≡ output.old.items) }
{
    if is_unreadable(name) {
        return Err(ExportFault::Name);
    }
    let Some(most) = most_exported(name, value) else {
        return Err(ExportFault::Memory);
    };
    if output.reserve(most).is_err() {
        return Err(ExportFault::Memory);
    }
    append(output, name);
    append(output, b"=");
    append_escaped(output, value);
    append(output, b"\n");
    Ok(())
}

/// Whether an import would not read the name back.
fn is_unreadable(name: &[u8]) -> bool
    ensures { result ≡ is_unreadable name.now }
{
    begins_skipped(name) || contains_byte(b'\n', name)
}

/// Whether the name begins with what an import skips: a blank, a newline, or a comment.
fn begins_skipped(name: &[u8]) -> bool
    ensures { result ≡ begins is_skipped name.now }
{
    match name.split_first() {
        Some((first, _)) => *first == b' ' || *first == b'\t' || *first == b'\n' || *first == b'#',
        None => false,
    }
}

/// At least as many bytes as the variable's text has, if that many can be counted: each byte of the value may be escaped.
fn most_exported(name: &[u8], value: &[u8]) -> Option<usize>
    ensures { IfSome result (λ most. length (exported name.now value.now) ≤ most) }
{
    let escaped = value.len().checked_mul(2)?;
    escaped.checked_add(name.len())?.checked_add(2)
}

/// Appends bytes for which there is room.
fn append(output: &mut Vec<u8>, bytes: &[u8])
    requires { vec_len output.old + length bytes.now ≤ vec_capacity output.old }
    ensures items { output.new.items ≡ output.old.items ++ bytes.now }
    ensures len { vec_len output.new ≡ vec_len output.old + length bytes.now }
    ensures room { vec_capacity output.old ≤ vec_capacity output.new }
{
    output.extend_from_slice(bytes).unwrap();
}

/// Appends a value with `\` before each `\` and each newline; there is room for that.
fn append_escaped(output: &mut Vec<u8>, value: &[u8])
    requires { vec_len output.old + length (escaped value.now) ≤ vec_capacity output.old }
    ensures items { output.new.items ≡ output.old.items ++ escaped value.now }
    ensures len { vec_len output.new ≡ vec_len output.old + length (escaped value.now) }
    ensures room { vec_capacity output.old ≤ vec_capacity output.new }
{
    let mut rest = value;
    while let Some(at) = memchr2(b'\\', b'\n', rest) {
        let (plain, marked) = rest.split_at(at);
        append(output, plain);
        let (escaped, others) = marked.split_at(1);
        append(output, b"\\");
        append(output, escaped);
        rest = others;
    }
    append(output, rest);
}
