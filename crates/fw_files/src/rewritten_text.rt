//! Texts that are rewritten before they are read as texts for import.
ghost use Rattle.std.specs.Prelude.{◌≡◌, ◌++◌, false, IfOk};
ghost use Rattle.std.specs.List.{flat_map};
ghost use Rattle.fw_files.specs.Source.{closed_lines, closing_byte, escaped_byte, is_escape};

use std::alloc::{AllocError, Global};

/// A text with each backslash escaped.
pub(crate) fn escaped(alloc: Global, text: &[u8]) -> Result<Vec<u8>, AllocError>
    ensures { IfOk result (λ e. e.items ≡ flat_map escaped_byte text.now) }
{
    let mut escaped = Vec::new(alloc);
    for byte in text {
        push_escaped(&mut escaped, *byte)?;
    }
    Ok(escaped)
}

/// One byte of it.
fn push_escaped(escaped: &mut Vec<u8>, byte: u8) -> Result<(), AllocError>
    ensures { IfOk result (λ _. escaped.new.items ≡ escaped.old.items ++ escaped_byte byte) }
{
    if byte == b'\\' {
        escaped.push(byte)?;
    }
    escaped.push(byte)?;
    Ok(())
}

/// A text whose lines all end: a backslash that would make the newline after it literal has one more before it.
#[tactic(auto, unfolding(crate::specs::Source::closed_lines))]
pub(crate) fn closed(alloc: Global, text: &[u8]) -> Result<Vec<u8>, AllocError>
    ensures { IfOk result (λ c. c.items ≡ closed_lines false text.now) }
{
    let mut closed = Vec::new(alloc);
    let mut escaped = false;
    for byte in text {
        push_closing(&mut closed, escaped, *byte)?;
        escaped = is_escape(escaped, *byte);
    }
    Ok(closed)
}

/// One byte of it, by whether a backslash makes it literal.
fn push_closing(closed: &mut Vec<u8>, escaped: bool, byte: u8) -> Result<(), AllocError>
    ensures { IfOk result (λ _. closed.new.items ≡ closed.old.items ++ closing_byte escaped byte) }
{
    if escaped && byte == b'\n' {
        closed.push(b'\\')?;
    }
    closed.push(byte)?;
    Ok(())
}

/// Whether a byte makes the next one literal.
fn is_escape(escaped: bool, byte: u8) -> bool
    ensures { result ≡ is_escape escaped byte }
{
    byte == b'\\' && !escaped
}
