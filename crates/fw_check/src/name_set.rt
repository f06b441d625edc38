//! Sets of names.
ghost use Rattle.std.specs.Prelude.{◌≡◌, OnErr, OnOk};
ghost use Rattle.fw_check.specs.NameSets.{also, no_names, set_of};

use std::alloc::{AllocError, Global};
use std::collections::BTreeSet;

/// Names, each once.
#[derive(Drop)]
pub(crate) struct NameSet {
    names: BTreeSet<Vec<u8>>,
}

/// Names in scripts, by what the scripts do with them.
#[derive(Drop)]
pub(crate) struct ScriptNames {
    /// Those that are given to something.
    pub(crate) given: NameSet,
    /// Those whose variables are set, tested or asked for.
    pub(crate) foreseen: NameSet,
    /// Those whose variables are set to a value.
    pub(crate) written: NameSet,
}

impl ScriptNames {
    /// No names. It allocates no memory.
    pub(crate) fn new(alloc: Global) -> ScriptNames
        ensures given { set_of result.given ≡ no_names }
        ensures foreseen { set_of result.foreseen ≡ no_names }
        ensures written { set_of result.written ≡ no_names }
    {
        ScriptNames {
            given: NameSet::new(alloc),
            foreseen: NameSet::new(alloc),
            written: NameSet::new(alloc),
        }
    }
}

impl NameSet {
    /// No names. It allocates no memory.
    pub(crate) fn new(alloc: Global) -> NameSet
        ensures { set_of result ≡ no_names }
    {
        NameSet {
            names: BTreeSet::new(alloc),
        }
    }

    /// Whether a name is one of them.
    pub(crate) fn has(&self, name: &[u8]) -> bool
        ensures { result ≡ set_of self.now name.now }
    {
        self.names.contains(name)
    }

    /// Adds a name, which may be one of them.
    pub(crate) fn add(&mut self, alloc: Global, name: &[u8]) -> Result<(), AllocError>
        ensures added { OnOk result (set_of self.new ≡ also (set_of self.old) name.now) }
        ensures kept { OnErr result (set_of self.new ≡ set_of self.old) }
    {
        let key = Vec::from_slice(alloc, name)?;
        self.names.insert(key)?;
        Ok(())
    }
}
