//! Reading to a limit, and writing whole texts.
ghost use Rattle.std.specs.Prelude.{◌≡◌, ◌≤◌, ◌++◌, ℕ, List, MatchBool, MatchResult, map};
ghost use Rattle.std.specs.List.{concat};
ghost use Rattle.std.specs.Fmt.{decimal};
ghost use Rattle.std.specs.Io.KnownBytes.{Appends};
ghost use Rattle.fw_engines.specs.Streams.{AppendsFront, AppendsPart, Gave, GaveAll};
ghost use Rattle.fw_engines.specs.Tool.{IsEarly};

use crate::tool_end::StreamFault;
use std::alloc::Global;
use std::io::{Read, Write};

/// How many bytes one read asks for at most.
const BLOCK: usize = 4_096;

/// Reads until the reader ends or `limit` bytes are there. A read that fails is not tried again.
pub fn read_up_to<R: Read>(
    alloc: Global,
    reader: &mut R,
    limit: usize,
) -> Result<Vec<u8>, StreamFault>
    ensures { MatchResult result (λ bytes. GaveAll (R.remaining reader.old) (R.remaining reader.new) limit bytes.items)
        (λ fault. IsEarly fault
        × ((bytes : List ℕ) × Gave (R.remaining reader.old) (R.remaining reader.new) limit bytes)) }
{
    let mut block = [0u8; BLOCK];
    let mut bytes = Vec::new(alloc);
    while bytes.len() < limit {
        let most = (limit - bytes.len()).min(BLOCK);
        match reader.read(&mut block[..most]) {
            Err(_) => return Err(StreamFault::Read),
            Ok(0) => return Ok(bytes),
            Ok(count) => {
                if bytes.extend_from_slice(&block[..count]).is_err() {
                    return Err(StreamFault::Memory);
                }
            }
        }
    }
    Ok(bytes)
}

/// Writes a text in as many writes as it takes; false if the writer fails or takes nothing, with a prefix of the
/// text written and something of it left.
pub fn write_text<W: Write>(writer: &mut W, text: &[u8]) -> bool
    ensures { MatchBool result (Appends (W.contents writer.old) (W.contents writer.new) text.now)
        (AppendsPart (W.contents writer.old) (W.contents writer.new) text.now) }
{
    let mut rest = text;
    while !rest.is_empty() {
        match writer.write(rest) {
            Ok(0) | Err(_) => return false,
            Ok(count) => rest = &rest[count..],
        }
    }
    true
}

/// Writes a text in two parts.
pub fn write_two<W: Write>(writer: &mut W, first: &[u8], second: &[u8]) -> bool
    ensures { MatchBool result (Appends (W.contents writer.old) (W.contents writer.new) (first.now ++ second.now))
        (AppendsPart (W.contents writer.old) (W.contents writer.new) (first.now ++ second.now)) }
{
    if !write_text(writer, first) {
        return false;
    }
    write_text(writer, second)
}

/// Writes a text in three parts.
pub fn write_three<W: Write>(writer: &mut W, first: &[u8], second: &[u8], third: &[u8]) -> bool
    ensures { MatchBool result
        (Appends (W.contents writer.old) (W.contents writer.new) (first.now ++ second.now ++ third.now))
        (AppendsPart (W.contents writer.old) (W.contents writer.new) (first.now ++ second.now ++ third.now)) }
{
    if !write_two(writer, first, second) {
        return false;
    }
    write_text(writer, third)
}

/// Writes a text in parts.
pub fn write_parts<W: Write>(writer: &mut W, parts: &[&[u8]]) -> bool
    ensures { MatchBool result
        (Appends (W.contents writer.old) (W.contents writer.new) (concat (map (λ p. p.now) parts.now)))
        (AppendsPart (W.contents writer.old) (W.contents writer.new) (concat (map (λ p. p.now) parts.now))) }
{
    for part in parts {
        if !write_text(writer, part) {
            return false;
        }
    }
    true
}

/// Writes a number in decimal digits. It allocates no memory: the digits before the last are written first.
pub fn write_decimal<W: Write>(writer: &mut W, number: usize) -> bool
    ensures { MatchBool result (Appends (W.contents writer.old) (W.contents writer.new) (decimal number))
        (AppendsPart (W.contents writer.old) (W.contents writer.new) (decimal number)) }
{
    let digit = b'0' + (number % 10) as u8;
    if number < 10 {
        return write_text(writer, &[digit]);
    }
    if !write_decimal(writer, number / 10) {
        return false;
    }
    write_text(writer, &[digit])
}

/// Writes a text as far as the writer takes it: if that fails, there is nowhere left to report it.
pub fn say<E: Write>(errors: &mut E, text: &[u8])
    ensures { AppendsFront (E.contents errors.old) (E.contents errors.new) text.now }
{
    let _ = write_text(errors, text);
}
