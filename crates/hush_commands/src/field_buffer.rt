//! Fields in one buffer.
ghost use Rattle.std.specs.Prelude.{◌≡◌, [], map, OnOk, OnErr};
ghost use Rattle.hush_commands.specs.Expansion.{Byte};
ghost use Rattle.hush_commands.specs.Buffers.{whole, with_bytes, with_items, ended};

use crate::field_queue::FieldQueue;
use hush_calc::Fields;
use std::alloc::{AllocError, Global};
use std::marker::Model;
use std::mem;

/// The fields of a command: their bytes in one buffer, the length of each, and whether one more is begun.
///
/// A command leaves its memory to the next one.
#[derive(Drop)]
pub struct FieldBuffer {
    bytes: Vec<u8>,
    lengths: Vec<usize>,
    start: usize,
    begun: bool,
}

impl Model for FieldBuffer {
    ghost use Rattle.hush_commands.specs.Buffers.{Made, made, IsBuffer};

    ghost Value = { Made };

    ghost view = { λ a. made a.bytes.items a.lengths.items a.start a.begun };

    ghost invariant = { λ a. IsBuffer a.bytes.items a.lengths.items a.start a.begun };
}

impl FieldBuffer {
    /// No fields. It takes no memory.
    pub fn new(alloc: Global) -> FieldBuffer
        ensures { result ≡ whole [] }
    {
        FieldBuffer {
            bytes: Vec::new(alloc),
            lengths: Vec::new(alloc),
            start: 0,
            begun: false,
        }
    }

    /// The fields that are done, one after the other.
    pub fn fields(&self) -> Fields<'_>
        ensures { result ≡ self.now.done }
    {
        Fields::new(self.bytes.as_slice(), self.lengths.as_slice())
    }

    /// Hands out the fields, and their memory with them.
    pub fn take(&mut self, alloc: Global) -> FieldQueue
        ensures fields { result ≡ self.old.done }
        ensures left { self.new ≡ whole [] }
    {
        let bytes = mem::replace(&mut self.bytes, Vec::new(alloc));
        let lengths = mem::replace(&mut self.lengths, Vec::new(alloc));
        self.start = 0;
        self.begun = false;
        FieldQueue {
            bytes,
            lengths,
            start: 0,
            done: 0,
        }
    }

    /// Forgets the fields, and keeps their memory.
    pub(crate) fn clear(&mut self)
        ensures { self.new ≡ whole [] }
    {
        self.bytes.clear();
        self.lengths.clear();
        self.start = 0;
        self.begun = false;
    }

    /// Appends bytes to the field that is begun, or begins one with them; no bytes begin none.
    #[inline(always)]
    pub(crate) fn append(&mut self, bytes: &[u8]) -> Result<(), AllocError>
        ensures ok { OnOk result (self.new ≡ with_items self.old (map Byte bytes.now)) }
        ensures err { OnErr result (self.new ≡ self.old) }
    {
        if bytes.is_empty() {
            return Ok(());
        }
        match self.bytes.extend_from_slice(bytes) {
            Ok(()) => {
                self.begun = true;
                Ok(())
            }
            Err(refused) => Err(refused),
        }
    }

    /// Begins a field if none is begun.
    pub(crate) fn begin(&mut self)
        ensures { self.new ≡ with_bytes self.old [] }
    {
        self.begun = true;
    }

    /// Ends the field that is begun, if one is.
    #[inline(always)]
    pub(crate) fn end(&mut self) -> Result<(), AllocError>
        ensures ok { OnOk result (self.new ≡ ended self.old) }
        ensures err { OnErr result (self.new ≡ self.old) }
    {
        if !self.begun {
            return Ok(());
        }
        let end = self.bytes.len();
        match self.lengths.push(end - self.start) {
            Ok(()) => {
                self.start = end;
                self.begun = false;
                Ok(())
            }
            Err(_) => Err(AllocError),
        }
    }
}
