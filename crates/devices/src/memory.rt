//! A device in memory. Each call is done at once, so a crash leaves what is there. It keeps its past contents. One call of it can
//! be made to fail, as the power or a medium does: a write is torn then.
ghost use Rattle.std.specs.Prelude.{◌≡◌, ◌⊎◌, ◌≤◌, ◌<◌, ◌+◌, [], ◌∷◌, ◌++◌, length, take, drop, IfOk, OnOk, OnErr, MatchOption, ⊤};
ghost use Rattle.std.proofs.Common.{inl};
ghost use Rattle.devices.specs.Device.{HasCause, put};
ghost use Rattle.devices.specs.Memory.{faults_of, written_of};
ghost use Rattle.devices.specs.Past.{HadBeen, only_bytes};

use crate::device::{Device, Fault};
use std::alloc::{AllocError, Global};

/// The call of a device in memory that fails.
#[derive(Clone, Copy, Debug, PartialEq, Eq)]
pub struct Cut {
    /// How many calls come before it.
    pub calls: usize,
    /// How many bytes are written if it is a write.
    pub bytes: usize,
}

/// Whether a call fails.
#[derive(Clone, Copy)]
enum Fate {
    /// None does.
    Sound,
    /// This one will.
    FailsAt(Cut),
    /// One did.
    HasFailed,
}

/// A device in memory.
#[derive(Drop)]
pub struct Memory {
    alloc: Global,
    bytes: Vec<u8>,
    past: Vec<Vec<u8>>,
    fate: Fate,
}

impl Memory {
    ghost use Rattle.devices.specs.Memory.{memory_bytes};

    /// A device with these bytes, all of them durable.
    pub fn new(alloc: Global, bytes: Vec<u8>) -> Self
        ensures { memory_bytes result ≡ bytes.items }
    {
        Memory::with_fate(alloc, bytes, Fate::Sound)
    }

    /// The same, of which one call fails.
    pub fn failing(alloc: Global, bytes: Vec<u8>, cut: Cut) -> Self
        ensures { memory_bytes result ≡ bytes.items }
    {
        Memory::with_fate(alloc, bytes, Fate::FailsAt(cut))
    }

    /// The same with this fate.
    fn with_fate(alloc: Global, bytes: Vec<u8>, fate: Fate) -> Self
        ensures { memory_bytes result ≡ bytes.items }
    {
        Memory {
            alloc,
            bytes,
            past: Vec::new(alloc),
            fate,
        }
    }

    /// Its bytes.
    pub fn bytes(&self) -> &[u8]
        ensures { result.now ≡ memory_bytes self.now }
    {
        &self.bytes
    }
}

/// Counts a call. If it fails, this is how many bytes it writes.
fn fails_now(fate: &mut Fate) -> Option<usize>
    ensures { MatchOption result (faults_of fate.new ≡ faults_of fate.old)
        (λ _. faults_of fate.old < faults_of fate.new) }
{
    match *fate {
        Fate::Sound | Fate::HasFailed => None,
        Fate::FailsAt(Cut { calls, bytes }) => {
            if calls == 0 {
                *fate = Fate::HasFailed;
                return Some(bytes);
            }
            *fate = Fate::FailsAt(Cut {
                calls: calls - 1,
                bytes,
            });
            None
        }
    }
}

/// Counts a call that writes nothing.
fn go_on(fate: &mut Fate) -> Result<(), Fault>
    ensures { HasCause (faults_of fate.old) (faults_of fate.new) result }
{
    match fails_now(fate) {
        None => Ok(()),
        Some(_) => Err(Fault::Failed),
    }
}

/// What is written: all bytes, or so many of them if the write fails.
fn written_of(cut: Option<usize>, bytes: &[u8]) -> &[u8]
    ensures { result.now ≡ written_of cut bytes.now }
{
    match cut {
        Some(count) if count < bytes.len() => &bytes[..count],
        _ => bytes,
    }
}

/// Puts other bytes in the place of those that are there, which it keeps.
fn replace(
    alloc: Global,
    bytes: &mut Vec<u8>,
    past: &mut Vec<Vec<u8>>,
    next: Vec<u8>,
) -> Result<(), AllocError>
    ensures ok { OnOk result (bytes.new.items ≡ next.items) }
    ensures err { OnErr result (bytes.new.items ≡ bytes.old.items) }
    ensures past { OnOk result ((v : _) ×
        (v.items ≡ bytes.old.items) × (past.new.items ≡ past.old.items ++ v ∷ [])) }
    ensures past_err { OnErr result (past.new.items ≡ past.old.items) }
{
    past.push(bytes.to_vec(alloc)?)?;
    *bytes = next;
    Ok(())
}

/// These bytes with others put over them.
fn with_put(alloc: Global, bytes: &[u8], at: usize, over: &[u8]) -> Result<Vec<u8>, AllocError>
    requires { at + length over.now ≤ length bytes.now }
    ensures { IfOk result (λ v. v.items ≡ put at over.now bytes.now) }
{
    let mut next = bytes[..at].to_vec(alloc)?;
    next.extend_from_slice(over)?;
    next.extend_from_slice(&bytes[at + over.len()..])?;
    Ok(next)
}

/// The bytes from `at` on, at most `len` of them.
fn part(bytes: &[u8], at: usize, len: usize) -> &[u8]
    ensures { result.now ≡ take len (drop at bytes.now) }
{
    if at >= bytes.len() {
        return &[];
    }
    let rest = &bytes[at..];
    if len >= rest.len() {
        rest
    } else {
        &rest[..len]
    }
}

impl Device for Memory {
    ghost is_honest = { λ _. ⊤ };

    ghost seen = { λ m. m.bytes.items };

    ghost may_leave = { λ m c. c ≡ m.bytes.items };

    ghost moment = { λ m. length m.past.items };

    ghost left_since = { λ m t c. (c ≡ m.bytes.items) ⊎ HadBeen (drop t m.past.items) c };

    ghost faults = { λ m. faults_of m.fate };

    ghost counts_now = { λ m t c honest le now. inl now };

    ghost only_now = { λ m c honest left. only_bytes m.past.items m.bytes.items c left };

    fn length(&mut self) -> Result<usize, Fault> {
        go_on(&mut self.fate)?;
        Ok(self.bytes.len())
    }

    fn read_at(&mut self, alloc: Global, at: usize, len: usize) -> Result<Vec<u8>, Fault> {
        go_on(&mut self.fate)?;
        Ok(part(&self.bytes, at, len).to_vec(alloc)?)
    }

    fn write_at(&mut self, at: usize, bytes: &[u8]) -> Result<(), Fault> {
        let cut = fails_now(&mut self.fate);
        let next = with_put(self.alloc, &self.bytes, at, written_of(cut, bytes))?;
        replace(self.alloc, &mut self.bytes, &mut self.past, next)?;
        match cut {
            None => Ok(()),
            Some(_) => Err(Fault::Failed),
        }
    }

    fn sync(&mut self) -> Result<(), Fault> {
        go_on(&mut self.fate)
    }
}
