//! One variable that owns its bytes.
ghost use Rattle.std.specs.Prelude.{◌≡◌, IfOk, IsTrue};
ghost use Rattle.envimg_core.specs.Environment.{is_name, is_value, IsVariable, entry_text};

use envimg_core::EQUALS;
use smallvec::SmallVec;
use std::alloc::{AllocError, Global};
use std::marker::Model;

/// How many bytes of name, `=` and value are in the variable itself. Only a longer text takes memory.
const INLINE: usize = 16;

/// One variable that owns its bytes: name, `=` and value in one text. A short text is next to its neighbours' among the
/// variables, where a search compares it without another read of memory far away.
/// Contracts see the pair of the name and the value.
#[derive(Drop)]
pub struct OwnedVariable {
    bytes: SmallVec<u8, INLINE>,
    middle: u32,
}

impl Model for OwnedVariable {
    ghost use Rattle.std.specs.Prelude.{◌+◌, take, drop};
    ghost use Rattle.envimg_core.specs.Environment.{Pair};

    ghost Value = { Pair };

    ghost use Rattle.envvars_store.specs.Laying.{IsOwned};

    ghost view = { λ t. (take t.middle t.bytes.items, drop (t.middle + 1) t.bytes.items) };

    ghost invariant = { λ t. IsOwned t.bytes.items t.middle };
}

impl OwnedVariable {
    /// The variable `name` with the value `value`; docs/images.md says which bytes each may have.
    /// The only error is that memory ran out, which a name of 4 GiB always meets.
    pub fn new(alloc: Global, name: &[u8], value: &[u8]) -> Result<OwnedVariable, AllocError>
        requires name_form { IsTrue (is_name name.now) }
        requires value_form { IsTrue (is_value value.now) }
        ensures { IfOk result (λ t. t ≡ (name.now, value.now)) }
    {
        let Ok(middle) = u32::try_from(name.len()) else {
            return Err(AllocError);
        };
        let length = (name.len() + 1).saturating_add(value.len());
        let mut bytes = SmallVec::with_capacity(alloc, length)?;
        bytes.extend_from_slice(name)?;
        bytes.push(EQUALS)?;
        bytes.extend_from_slice(value)?;
        Ok(OwnedVariable { bytes, middle })
    }

    /// Its name.
    pub fn name(&self) -> &[u8]
        ensures name { result.now ≡ self.now.0 }
        ensures form { IsVariable self.now }
    {
        &self.bytes[..self.middle as usize]
    }

    /// Its value.
    pub fn value(&self) -> &[u8]
        ensures { result.now ≡ self.now.1 }
    {
        &self.bytes[self.middle as usize + 1..]
    }

    /// Name, `=` and value in one piece.
    pub fn line(&self) -> &[u8]
        ensures line { result.now ≡ entry_text self.now }
        ensures form { IsVariable self.now }
    {
        self.bytes.as_slice()
    }

    /// The same variable with bytes of its own.
    pub fn try_clone(&self, alloc: Global) -> Result<OwnedVariable, AllocError>
        ensures { IfOk result (λ t. t ≡ self.now) }
    {
        Ok(OwnedVariable {
            bytes: SmallVec::from_slice(alloc, &self.bytes)?,
            middle: self.middle,
        })
    }
}
