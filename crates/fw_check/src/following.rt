//! The names whose scripts are checked.
ghost use Rattle.std.specs.Prelude.{◌≡◌, ◌<◌, ◌∷◌, [], IfOk, OnOk, OnSome, option_map, slice_get, map};
ghost use Rattle.fw_check.specs.Following.{follow_entries, follow_front, follow_menu, follow_names, follow_scripts, follow_scripts_of, is_among, names_of, names_with};
ghost use Rattle.fw_check.specs.Looking.{front_view, hardware_in};

use crate::followed::Names;
use crate::literals::Front;
use crate::lookups::Lookups;
use crate::menu::{MENU, is_entry};
use crate::name_set::NameSet;
use crate::script_values::looks_like_script;
use crate::sorted_names::SortedNames;
use envvars_core::Vars;
use std::alloc::{AllocError, Global};
use std::marker::Model;

/// The names that are followed in an environment.
#[derive(Drop)]
pub(crate) struct Followed<'v, 's> {
    vars: &'v Vars,
    /// Those of all its variables.
    sorted: &'s SortedNames<'v>,
    names: Names,
    /// Beginnings, of which every name that begins so was followed.
    begun: NameSet,
}

impl<'v, 's> Model for Followed<'v, 's> {
    ghost use Rattle.fw_check.specs.Following.{Followed, followed_code};
    ghost use Rattle.fw_check.specs.NameSets.{AreBegun, set_of};

    ghost Value = { Followed };

    ghost coded = { followed_code };

    ghost view = { λ a. record { env = a.vars.now.env; names = a.names } };

    ghost invariant = { λ a. AreBegun a.vars.now.env a.sorted.now a.names (set_of a.begun) };
}

impl<'v, 's> Followed<'v, 's> {
    /// None yet. The names are those of all the variables.
    pub(crate) fn new(
        alloc: Global,
        vars: &'v Vars,
        sorted: &'s SortedNames<'v>,
    ) -> Followed<'v, 's>
        requires { sorted.now ≡ names_of vars.now.env }
        ensures { result ≡ record { env = vars.now.env; names = [] } }
    {
        Followed {
            vars,
            sorted,
            names: Names::new(alloc),
            begun: NameSet::new(alloc),
        }
    }

    /// All of them, in the order in which they were met.
    pub(crate) fn all(&self) -> &[Vec<u8>]
        ensures { map (λ n. n.items) result.now ≡ self.now.names }
    {
        self.names.all()
    }

    /// Whether a name is one of them.
    pub(crate) fn has(&self, name: &[u8]) -> bool
        ensures { result ≡ is_among self.now.names name.now }
    {
        self.names.has(name)
    }

    /// A copy of the name at this index, if there is one.
    pub(crate) fn copy(&self, alloc: Global, index: usize) -> Result<Option<Vec<u8>>, AllocError>
        ensures name { IfOk result (λ name. option_map (λ v. v.items) name ≡ slice_get self.now.names index) }
        ensures few { IfOk result (λ name. OnSome name (index < usize.MAX)) }
    {
        self.names.copy(alloc, index)
    }

    /// Follows what an argument of `run` may name.
    pub(crate) fn follow_front(&mut self, alloc: Global, front: &Front) -> Result<(), AllocError>
        ensures { OnOk result (self.new ≡ follow_front self.old (front_view front.now)) }
    {
        if front.is_whole {
            self.follow_name(alloc, &front.bytes)
        } else if front.bytes.is_empty() {
            Ok(())
        } else {
            self.follow_beginning(alloc, &front.bytes)
        }
    }

    /// Follows a name.
    pub(crate) fn follow_name(&mut self, alloc: Global, name: &[u8]) -> Result<(), AllocError>
        ensures { OnOk result (self.new ≡ follow_names self.old (name.now ∷ [])) }
    {
        self.names.follow(alloc, self.vars, name)
    }

    /// Follows the entries of a boot menu that have scripts, in order of names.
    pub(crate) fn follow_entries(&mut self, alloc: Global) -> Result<(), AllocError>
        ensures { OnOk result (self.new ≡ follow_entries self.old) }
    {
        let sorted = self.sorted;
        for name in sorted.beginning(MENU) {
            self.follow_entry(alloc, name)?;
        }
        Ok(())
    }

    /// Follows a name, if it is that of such an entry.
    fn follow_entry(&mut self, alloc: Global, name: &[u8]) -> Result<(), AllocError>
        ensures { OnOk result (self.new ≡ follow_menu self.old (name.now ∷ [])) }
    {
        if is_entry(self.vars, name) {
            self.follow_name(alloc, name)
        } else {
            Ok(())
        }
    }

    /// Follows the variables whose values look like scripts, in order of names.
    pub(crate) fn follow_scripts(&mut self, lookups: &Lookups<'_>) -> Result<(), AllocError>
        ensures { OnOk result (self.new ≡ follow_scripts (hardware_in lookups.now) self.old) }
    {
        let sorted = self.sorted;
        for name in sorted.all() {
            self.follow_script(lookups, name)?;
        }
        Ok(())
    }

    /// Follows a name, if it is that of such a variable.
    fn follow_script(&mut self, lookups: &Lookups<'_>, name: &[u8]) -> Result<(), AllocError>
        ensures { OnOk result (self.new ≡ follow_scripts_of (hardware_in lookups.now) self.old (name.now ∷ [])) }
    {
        if looks_like_script(lookups.rules.hardware, self.vars, name) {
            self.follow_name(lookups.alloc, name)
        } else {
            Ok(())
        }
    }

    /// Follows the names that begin so.
    fn follow_beginning(&mut self, alloc: Global, front: &[u8]) -> Result<(), AllocError>
        ensures { OnOk result (self.new ≡ follow_names self.old (names_with front.now (names_of self.old.env))) }
    {
        if self.begun.has(front) {
            return Ok(());
        }
        self.follow_sorted(alloc, front)?;
        self.begun.add(alloc, front)
    }

    /// The same for a beginning that wasn't followed before.
    fn follow_sorted(&mut self, alloc: Global, front: &[u8]) -> Result<(), AllocError>
        ensures { OnOk result (self.new ≡ follow_names self.old (names_with front.now (names_of self.old.env))) }
    {
        let sorted = self.sorted;
        for name in sorted.beginning(front) {
            self.follow_name(alloc, name)?;
        }
        Ok(())
    }
}
