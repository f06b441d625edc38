//! The fields of a command, lent one after the other.
ghost use Rattle.std.specs.Prelude.{◌≡◌, ℕ, List, IfOk};
ghost use Rattle.std.specs.Iterator.{YieldsFirstBy, item_count};
ghost use Rattle.std.specs.Str.{bytes_eq};
ghost use Rattle.text_parts.specs.Words.{spaced};
ghost use Rattle.hush_calc.specs.Fields.{pieces, field_view, split_option};

use std::alloc::{AllocError, Global};
use std::marker::Model;
use text_parts::joined;

/// The fields of a command that are left. They are one after the other in a text; each has its length.
#[derive(Drop)]
pub struct Fields<'a> {
    bytes: &'a [u8],
    lengths: &'a [usize],
}

impl<'a> Model for Fields<'a> {
    ghost Value = { List (List ℕ) };

    ghost view = { λ a. pieces a.bytes.now a.lengths.now };
}

impl<'a> Fields<'a> {
    /// The fields of these lengths in `bytes`, one after the other.
    ///
    /// If the bytes end before the lengths do, a field has what is left for it, perhaps nothing.
    pub fn new(bytes: &'a [u8], lengths: &'a [usize]) -> Fields<'a>
        ensures { result ≡ pieces bytes.now lengths.now }
    {
        Fields { bytes, lengths }
    }

    /// The same fields once more.
    pub fn again(&self) -> Fields<'a>
        ensures { result ≡ self.now }
    {
        Fields {
            bytes: self.bytes,
            lengths: self.lengths,
        }
    }

    /// The bytes in which the fields are, and their lengths: what [`Fields::new`] makes these fields of.
    pub fn parts(&self) -> (&'a [u8], &'a [usize])
        ensures { pieces result.0.now result.1.now ≡ self.now }
    {
        (self.bytes, self.lengths)
    }

    /// The fields joined by one space, in memory of their own.
    pub fn joined(self, alloc: Global) -> Result<Vec<u8>, AllocError>
        ensures { IfOk result (λ text. text.items ≡ spaced self.entry) }
    {
        joined(alloc, self)
    }

    /// Whether the first field is this option, and the fields without it.
    pub fn split_option(self, option: &[u8]) -> (bool, Fields<'a>)
        ensures { result ≡ split_option option.now self.entry }
    {
        let mut rest = self.again();
        match rest.next() {
            Some(first) if is_text(first, option) => (true, rest),
            _ => (false, self),
        }
    }
}

impl<'a> Iterator for Fields<'a> {
    type Item = &'a [u8];

    ghost next_gives = { YieldsFirstBy field_view (λ s. s) };

    ghost remaining = { item_count (λ s. s) };

    fn next(&mut self) -> Option<&'a [u8]> {
        let (length, lengths) = self.lengths.split_first()?;
        let (field, bytes) = self.bytes.split_at((*length).min(self.bytes.len()));
        self.lengths = lengths;
        self.bytes = bytes;
        Some(field)
    }
}

/// Whether a field is this text.
pub fn is_text(field: &[u8], text: &[u8]) -> bool
    ensures { result ≡ bytes_eq text.now field.now }
{
    text == field
}
