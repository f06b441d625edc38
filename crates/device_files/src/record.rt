//! The calls of a device with their answers. Clauses alone read them: no code can, and they take no memory.
ghost use Rattle.std.specs.Prelude.{◌≡◌, [], ◌∷◌};
ghost use Rattle.device_files.specs.Record.{bytes_of, calls_in};

use std::mem;
use std::snapshot::Snapshot;

/// Bytes, one before the others.
#[derive(Drop)]
pub enum Text {
    /// No byte.
    End,
    /// A byte, and those behind it.
    Byte(u8, Snapshot<Text>),
}

/// A call of a device, and its answer.
#[derive(Drop)]
pub enum Call {
    /// It has so many bytes.
    Measured(usize),
    /// From a place on so many bytes were asked for, and these came.
    Read(usize, usize, Snapshot<Vec<u8>>),
    /// These bytes were written from a place on.
    Written(usize, Snapshot<Text>),
    /// What was written became durable.
    Synced,
    /// A call that writes nothing failed.
    Failed,
    /// A write of these bytes from a place on failed.
    WriteFailed(usize, Snapshot<Text>),
}

/// Calls, the last before the others.
#[derive(Drop)]
pub enum Calls {
    /// No call.
    Begun,
    /// A call, and those before it.
    Then(Call, Snapshot<Calls>),
}

/// The calls of a device so far.
#[derive(Drop)]
pub struct Record {
    calls: Snapshot<Calls>,
}

impl Record {
    /// No call so far.
    pub(crate) fn new() -> Self
        ensures { calls_in result ≡ [] }
    {
        Record {
            calls: Snapshot::of(&Calls::Begun),
        }
    }

    /// Notes a call.
    pub(crate) fn note(&mut self, call: Call)
        ensures { calls_in self.new ≡ call ∷ calls_in self.old }
    {
        let before = mem::replace(&mut self.calls, Snapshot::of(&Calls::Begun));
        self.calls = Snapshot::of(&Calls::Then(call, before));
    }
}

/// Bytes as a call keeps them.
pub(crate) fn text_of(bytes: &[u8]) -> Snapshot<Text>
    ensures { bytes_of result.value ≡ bytes.now }
{
    let mut text = Snapshot::of(&Text::End);
    let mut left = bytes.len();
    while left > 0 {
        left -= 1;
        text = Snapshot::of(&Text::Byte(bytes[left], text));
    }
    text
}
