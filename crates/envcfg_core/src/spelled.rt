//! A value as the text for import spells it.
ghost use Rattle.std.specs.Prelude.{◌≡◌, ◌+◌, ◌≤◌, length, if◌then◌else◌, IfOk, false, true};
ghost use Rattle.text_parts.specs.Bytes.{begins, is_newline};
ghost use Rattle.envcfg_core.specs.Bytes.{is_marked};
ghost use Rattle.envcfg_core.specs.Import.{spelled, behind_name};
ghost use Rattle.envcfg_core.specs.ImportSteps.{onto, value_view, stop_view, StopIsWithin};

use memchr::memchr2;
use std::alloc::{AllocError, Global};

/// What is after a name.
#[derive(Drop)]
pub(crate) struct ValueText<'a> {
    /// The bytes that the value's text stands for.
    pub(crate) bytes: Vec<u8>,
    /// How many newlines the text holds, with the one that ends it.
    pub(crate) newlines: usize,
    /// What follows the text.
    pub(crate) rest: &'a [u8],
}

/// What ends the bytes of a value that stand for themselves.
#[derive(Clone, Copy)]
pub(crate) enum Stop<'a> {
    /// The text.
    End,
    /// A newline, and what follows it.
    Newline(&'a [u8]),
    /// An escape: the byte that it makes literal, and what follows it.
    Literal(u8, &'a [u8]),
}

/// Reads what is after a name: after `=` a value, else nothing up to the end of the line.
pub(crate) fn read_behind_name<'a>(
    alloc: Global,
    text: &'a [u8],
) -> Result<ValueText<'a>, AllocError>
    ensures value { IfOk result (λ value. value_view value ≡ behind_name text.entry.now) }
    ensures within { IfOk result (λ value. value.newlines + length value.rest.now ≤ length text.entry.now) }
{
    let Some((first, rest)) = text.split_first() else {
        return Ok(ValueText {
            bytes: Vec::new(alloc),
            newlines: 0,
            rest: &[],
        });
    };
    if *first == b'=' {
        return read_value(alloc, rest);
    }
    Ok(ValueText {
        bytes: Vec::new(alloc),
        newlines: 1,
        rest,
    })
}

/// Reads a value's text, up to the newline that ends it.
fn read_value<'a>(alloc: Global, text: &'a [u8]) -> Result<ValueText<'a>, AllocError>
    ensures value { IfOk result (λ value. value_view value ≡ spelled false text.entry.now) }
    ensures within { IfOk result (λ value. value.newlines + length value.rest.now ≤ length text.entry.now) }
{
    let mut bytes = Vec::new(alloc);
    let mut newlines = 0;
    let mut rest = text;
    loop {
        let (plain, stop) = cut_plain(rest);
        bytes.extend_from_slice(plain)?;
        match stop {
            Stop::End => return Ok(ValueText {
                bytes,
                newlines,
                rest: &[],
            }),
            Stop::Newline(next) => {
                return Ok(ValueText {
                    bytes,
                    newlines: newlines + 1,
                    rest: next,
                });
            }
            Stop::Literal(literal, next) => {
                bytes.push(literal)?;
                newlines += newlines_in(literal);
                rest = next;
            }
        }
    }
}

/// Cuts off the bytes before the first `\` or newline.
fn cut_plain(text: &[u8]) -> (&[u8], Stop<'_>)
    ensures value { spelled false text.now ≡ onto result.0.now 0 (stop_view result.1) }
    ensures within { StopIsWithin (length text.now) result.1 }
{
    let Some(at) = memchr2(b'\\', b'\n', text) else {
        return (text, Stop::End);
    };
    let (plain, marked) = text.split_at(at);
    (plain, stop_at(marked))
}

/// What a text that begins with `\` or a newline begins with.
fn stop_at(marked: &[u8]) -> Stop<'_>
    requires { begins is_marked marked.now ≡ true }
    ensures value { stop_view result ≡ spelled false marked.now }
    ensures within { StopIsWithin (length marked.now) result }
{
    match marked {
        [b'\n', rest @ ..] => Stop::Newline(rest),
        [_, literal, rest @ ..] => Stop::Literal(*literal, rest),
        _ => Stop::Literal(b'\\', &[]),
    }
}

/// How many newlines one byte is.
fn newlines_in(byte: u8) -> usize
    ensures count { result ≡ (if is_newline byte then 1 else 0) }
    ensures few { result ≤ 1 }
{
    usize::from(byte == b'\n')
}
