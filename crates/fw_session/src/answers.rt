//! Answers: a text is written whole, and counted.
ghost use Rattle.std.specs.Prelude.{◌++◌};
ghost use Rattle.env_requests.specs.Requests.{listing};
ghost use Rattle.fw_session.specs.Streams.{Writes};

use env_session::Session;
use std::io::Write;

/// Writes a text in as many writes as it takes; false if the writer fails or takes nothing, with a prefix of
/// the text written. Counts what was written.
pub(crate) fn write_text<W: Write>(writer: &mut W, text: &[u8], written: &mut u64) -> bool
    ensures { Writes (W.contents writer.old) (W.contents writer.new) written.old written.new text.now result }
{
    let mut rest = text;
    while !rest.is_empty() {
        match writer.write(rest) {
            Ok(0) | Err(_) => return false,
            Ok(count) => {
                *written = written.saturating_add(count as u64);
                rest = &rest[count..];
            }
        }
    }
    true
}

/// Writes every variable, line by line.
pub(crate) fn write_lines<W: Write>(session: &Session, output: &mut W, written: &mut u64) -> bool
    ensures { Writes (W.contents output.old) (W.contents output.new) written.old written.new (listing session.now.now.env) result }
{
    for line in session.vars().lines() {
        if !write_both(output, line, b"\n", written) {
            return false;
        }
    }
    true
}

/// Writes one text and then another.
pub(crate) fn write_both<W: Write>(
    output: &mut W,
    first: &[u8],
    second: &[u8],
    written: &mut u64,
) -> bool
    ensures { Writes (W.contents output.old) (W.contents output.new) written.old written.new (first.now ++ second.now) result }
{
    write_text(output, first, written) && write_text(output, second, written)
}
