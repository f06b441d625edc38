//! One variable: an extent of the loaded area, or owned.
ghost use Rattle.std.specs.Prelude.{◌≡◌, IfOk};
ghost use Rattle.envvars_store.specs.Laying.{pair_of, LiesIn};
ghost use Rattle.envimg_core.specs.Environment.{entry_text};

use crate::owned_variable::OwnedVariable;
use std::alloc::{AllocError, Global};

/// Where a variable lies in the area: its name begins at `start`, the `=` is at `middle`, the value ends before
/// `end`.
#[derive(Clone, Copy)]
pub(crate) struct Extent {
    pub(crate) start: u32,
    pub(crate) middle: u32,
    pub(crate) end: u32,
}

/// One variable.
#[derive(Drop)]
pub(crate) enum Variable {
    /// As it was loaded.
    Loaded(Extent),
    /// As it was written.
    Written(OwnedVariable),
}

impl Variable {
    /// Its name.
    pub(crate) fn name<'a>(&'a self, area: &'a [u8]) -> &'a [u8]
        requires { LiesIn area.now self.now }
        ensures { result.now ≡ (pair_of area.now self.now).0 }
    {
        match self {
            Variable::Loaded(extent) => &area[extent.start as usize..extent.middle as usize],
            Variable::Written(owned) => owned.name(),
        }
    }

    /// Its value.
    pub(crate) fn value<'a>(&'a self, area: &'a [u8]) -> &'a [u8]
        requires { LiesIn area.now self.now }
        ensures { result.now ≡ (pair_of area.now self.now).1 }
    {
        match self {
            Variable::Loaded(extent) => &area[extent.middle as usize + 1..extent.end as usize],
            Variable::Written(owned) => owned.value(),
        }
    }

    /// Name, `=` and value in one piece.
    pub(crate) fn line<'a>(&'a self, area: &'a [u8]) -> &'a [u8]
        requires { LiesIn area.now self.now }
        ensures { result.now ≡ entry_text (pair_of area.now self.now) }
    {
        match self {
            Variable::Loaded(extent) => &area[extent.start as usize..extent.end as usize],
            Variable::Written(owned) => owned.line(),
        }
    }

    /// The same variable; an owned one gets bytes of its own.
    pub(crate) fn try_clone(&self, alloc: Global) -> Result<Variable, AllocError>
        ensures { IfOk result (λ s. s ≡ self.now) }
    {
        match self {
            Variable::Loaded(extent) => Ok(Variable::Loaded(*extent)),
            Variable::Written(owned) => Ok(Variable::Written(owned.try_clone(alloc)?)),
        }
    }
}
