//! Words of which all is known: their substitutions are of variables that nothing sets but the environment.
ghost use Rattle.std.specs.Prelude.{◌≡◌, ◌≤◌, IfOk, Some, length, option_map};
ghost use Rattle.std.specs.List.{prefix_len};
ghost use Rattle.hush_words.specs.Parts.{part_atoms, word_atoms};
ghost use Rattle.hush_words.specs.Ranges.{Fits};
ghost use Rattle.fw_check.specs.Knowing.{constant, field_in, field_of, first_field, is_in_field, text_of};
ghost use Rattle.fw_check.specs.Looking.{known_in};

use crate::lookups::Lookups;
use hush_syntax::{Part, Text, Word};
use std::alloc::{AllocError, Global};

/// The first field of a word of which all is known, if it has one.
pub(crate) fn field_of(
    lookups: &Lookups<'_>,
    text: &Text,
    word: Word,
) -> Result<Option<Vec<u8>>, AllocError>
    ensures { IfOk result (λ field. option_map (λ v. v.items) field ≡ field_of (known_in lookups.now) (word_atoms text.now word)) }
{
    let known = text_of(lookups, text, word)?;
    field_in(lookups.alloc, known)
}

fn field_in(alloc: Global, known: Option<Vec<u8>>) -> Result<Option<Vec<u8>>, AllocError>
    ensures { IfOk result (λ field. option_map (λ v. v.items) field ≡ field_in (option_map (λ v. v.items) known)) }
{
    match known {
        Some(bytes) => {
            let field = first_field(&bytes);
            if field.is_empty() {
                Ok(None)
            } else {
                Ok(Some(Vec::from_slice(alloc, field)?))
            }
        }
        None => Ok(None),
    }
}

/// What is before the first blank or newline.
fn first_field(bytes: &[u8]) -> &[u8]
    ensures { result.now ≡ first_field bytes.now }
{
    &bytes[..field_len(bytes)]
}

fn field_len(bytes: &[u8]) -> usize
    ensures field { result ≡ prefix_len is_in_field bytes.now }
    ensures within { result ≤ length bytes.now }
{
    bytes.iter().take_while(|b| is_in_field(**b)).count()
}

/// Whether a byte belongs to a field: it is no blank.
pub(crate) fn is_in_field(b: u8) -> bool
    ensures { result ≡ is_in_field b }
{
    !(b == b' ' || b == b'\t' || b == b'\n')
}

/// The text of a word of which all is known; `None` for another.
fn text_of(lookups: &Lookups<'_>, text: &Text, word: Word) -> Result<Option<Vec<u8>>, AllocError>
    ensures { IfOk result (λ bytes. option_map (λ v. v.items) bytes ≡ text_of (known_in lookups.now) (word_atoms text.now word)) }
{
    let mut bytes = Vec::new(lookups.alloc);
    let mut left = text.parts(word);
    while let Some(part) = left.next_part() {
        match known_part(lookups, text, part)? {
            Some(more) => bytes.extend_from_slice(&more)?,
            None => return Ok(None),
        }
    }
    Ok(Some(bytes))
}

/// The text of a part.
fn known_part(lookups: &Lookups<'_>, text: &Text, part: Part) -> Result<Option<Vec<u8>>, AllocError>
    requires { Fits text.now.source part }
    ensures { IfOk result
        (λ bytes. option_map (λ v. v.items) bytes ≡ text_of (known_in lookups.now) (part_atoms text.now.source part)) }
{
    match part {
        Part::Plain(span) => copied(lookups.alloc, text.bytes(span)),
        Part::Quoted(span) => copied(lookups.alloc, text.bytes(span)),
        Part::Mark => copied(lookups.alloc, b""),
        Part::Value(span, _) => value_of(lookups, text.bytes(span)),
        Part::Status(_) => Ok(None),
    }
}

fn copied(alloc: Global, bytes: &[u8]) -> Result<Option<Vec<u8>>, AllocError>
    ensures { IfOk result (λ copy. option_map (λ v. v.items) copy ≡ Some bytes.now) }
{
    Ok(Some(Vec::from_slice(alloc, bytes)?))
}

/// The value of a variable that nothing sets but the environment.
fn value_of(lookups: &Lookups<'_>, name: &[u8]) -> Result<Option<Vec<u8>>, AllocError>
    ensures { IfOk result (λ value. option_map (λ v. v.items) value ≡ constant (known_in lookups.now) name.now) }
{
    match lookups.constant(name) {
        Some(value) => copied(lookups.alloc, value),
        None => Ok(None),
    }
}
