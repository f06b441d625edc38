//! Fields that are taken one after the other.
ghost use Rattle.std.specs.Prelude.{◌≡◌, ◌==◌, [], ◌∷◌, length, drop, IfOk};
ghost use Rattle.hush_commands.specs.Shells.{cut_words, list_by};

use crate::field_buffer::FieldBuffer;
use crate::shell::Shell;
use hush_calc::Fields;
use std::alloc::{AllocError, Global};
use std::marker::Model;

/// The fields of a command that are left to be done, one after the other. It owns their bytes.
#[derive(Drop)]
pub struct FieldQueue {
    pub(crate) bytes: Vec<u8>,
    pub(crate) lengths: Vec<usize>,
    pub(crate) start: usize,
    pub(crate) done: usize,
}

impl Model for FieldQueue {
    ghost use Rattle.std.specs.Prelude.{ℕ, List, length, ◌≤◌};
    ghost use Rattle.hush_commands.specs.Buffers.{left_of};

    ghost Value = { List (List ℕ) };

    ghost view = { λ a. left_of a.bytes.items a.lengths.items a.start a.done };

    ghost invariant = { λ a. (a.start ≤ length a.bytes.items) × (a.done ≤ length a.lengths.items) };
}

impl FieldQueue {
    /// These fields, in memory of their own.
    pub(crate) fn of(alloc: Global, fields: &Fields<'_>) -> Result<FieldQueue, AllocError>
        ensures { IfOk result (λ queue. queue ≡ fields.now) }
    {
        let (bytes, lengths) = fields.parts();
        let bytes = Vec::from_slice(alloc, bytes)?;
        let lengths = Vec::from_slice(alloc, lengths)?;
        Ok(FieldQueue {
            bytes,
            lengths,
            start: 0,
            done: 0,
        })
    }

    /// A word and these fields behind it, in memory of their own.
    pub(crate) fn behind(
        alloc: Global,
        word: &[u8],
        fields: &Fields<'_>,
    ) -> Result<FieldQueue, AllocError>
        ensures { IfOk result (λ queue. queue ≡ word.now ∷ fields.now) }
    {
        let (more, others) = fields.parts();
        let mut bytes = Vec::from_slice(alloc, word)?;
        bytes.extend_from_slice(more)?;
        let mut lengths = Vec::new(alloc);
        lengths.push(word.len())?;
        lengths.extend_from_slice(others)?;
        Ok(FieldQueue {
            bytes,
            lengths,
            start: 0,
            done: 0,
        })
    }

    /// No fields. It takes no memory.
    pub fn none(alloc: Global) -> FieldQueue
        ensures { result ≡ [] }
    {
        FieldQueue {
            bytes: Vec::new(alloc),
            lengths: Vec::new(alloc),
            start: 0,
            done: 0,
        }
    }

    /// The words of the list of a `for`, as that list.
    pub fn list_by(self, alloc: Global, shell: Shell) -> Result<FieldQueue, AllocError>
        ensures { IfOk result (λ queue. queue ≡ list_by shell self) }
    {
        match shell {
            Shell::Strict => Ok(self),
            Shell::Board => cut_words(alloc, self.fields()),
        }
    }

    /// The fields that are left.
    pub fn fields(&self) -> Fields<'_>
        ensures { result ≡ self.now }
    {
        Fields::new(&self.bytes[self.start..], &self.lengths[self.done..])
    }

    /// Whether no field is left.
    pub fn is_empty(&self) -> bool
        ensures { result ≡ (length self.now == 0) }
    {
        self.fields().next().is_none()
    }

    /// Passes the first field, if one is left.
    pub fn advance(&mut self)
        ensures { self.new ≡ drop 1 self.old }
    {
        if self.done < self.lengths.len() {
            let len = self.lengths[self.done];
            self.start += len.min(self.bytes.len() - self.start);
            self.done += 1;
        }
    }
}

/// Each of these words cut at its spaces and newlines, without the empty pieces, in memory of their own.
fn cut_words(alloc: Global, words: Fields<'_>) -> Result<FieldQueue, AllocError>
    ensures { IfOk result (λ queue. queue ≡ cut_words words.entry) }
{
    let mut buffer = FieldBuffer::new(alloc);
    let mut rest = words;
    while let Some(word) = rest.next() {
        buffer.add_list_word(word)?;
        buffer.end()?;
    }
    Ok(buffer.take(alloc))
}
