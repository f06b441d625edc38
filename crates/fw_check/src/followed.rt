//! Names in the order in which they were met.
ghost use Rattle.std.specs.Prelude.{◌≡◌, ◌<◌, [], ◌∷◌, ◌++◌, IfOk, OnErr, OnOk, OnSome, map, slice_get, option_map, if◌then◌else◌};
ghost use Rattle.fw_check.specs.Following.{is_among, with_name};

use crate::name_set::NameSet;
use envvars_core::Vars;
use std::alloc::{AllocError, Global};
use std::marker::Model;

/// Names in the order in which they were met, each once.
#[derive(Drop)]
pub(crate) struct Names {
    order: Vec<Vec<u8>>,
    /// The same in the order of their bytes.
    met: NameSet,
}

impl Model for Names {
    ghost use Rattle.std.specs.Prelude.{ℕ, List, map};
    ghost use Rattle.fw_check.specs.NameSets.{AreSame, set_of};

    ghost Value = { List (List ℕ) };

    ghost view = { λ a. map (λ n. n.items) a.order.items };

    ghost invariant = { λ a. AreSame (set_of a.met) (map (λ n. n.items) a.order.items) };
}

impl Names {
    /// No names. It allocates no memory.
    pub(crate) fn new(alloc: Global) -> Names
        ensures { result ≡ [] }
    {
        Names {
            order: Vec::new(alloc),
            met: NameSet::new(alloc),
        }
    }

    /// All of them.
    pub(crate) fn all(&self) -> &[Vec<u8>]
        ensures { map (λ n. n.items) result.now ≡ self.now }
    {
        self.order.as_slice()
    }

    /// Whether a name is one of them.
    pub(crate) fn has(&self, name: &[u8]) -> bool
        ensures { result ≡ is_among self.now name.now }
    {
        self.met.has(name)
    }

    /// A copy of the name at this index, if there is one.
    pub(crate) fn copy(&self, alloc: Global, index: usize) -> Result<Option<Vec<u8>>, AllocError>
        ensures name { IfOk result (λ name. option_map (λ v. v.items) name ≡ slice_get self.now index) }
        ensures few { IfOk result (λ name. OnSome name (index < usize.MAX)) }
    {
        match self.order.get(index) {
            Some(name) => Ok(Some(Vec::from_slice(alloc, name)?)),
            None => Ok(None),
        }
    }

    /// Adds a name after the others, if it is defined and not one of them.
    pub(crate) fn follow(
        &mut self,
        alloc: Global,
        vars: &Vars,
        name: &[u8],
    ) -> Result<(), AllocError>
        ensures added { OnOk result (self.new ≡ with_name vars.now.env self.old name.now) }
        ensures kept { OnErr result (self.new ≡ self.old) }
    {
        if vars.get(name).is_some() {
            self.add(alloc, name)?;
        }
        Ok(())
    }

    /// Adds a name after the others, unless it is one of them.
    fn add(&mut self, alloc: Global, name: &[u8]) -> Result<(), AllocError>
        ensures added { OnOk result
            (self.new ≡ (if is_among self.old name.now then self.old else self.old ++ name.now ∷ [])) }
        ensures kept { OnErr result (self.new ≡ self.old) }
    {
        if self.met.has(name) {
            return Ok(());
        }
        let last = Vec::from_slice(alloc, name)?;
        self.order.reserve(1)?;
        self.met.add(alloc, name)?;
        self.order.push_reserved(last);
        Ok(())
    }
}
