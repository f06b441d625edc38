//! Writes whose old values are kept, and bringing those back.

ghost use Rattle.std.specs.Prelude.{◌≡◌, ◌≤◌, ◌%◌, ◌^◌, ◌∷◌, [], IfSome, IfNone, IfOk, OnOk, OnErr, IsOk, IsOkUnless, IsTrue, IsSome, not, option_map, option_copied};
ghost use Rattle.std.specs.FinMap as env;
ghost use Rattle.envimg_core.specs.Environment.{used, is_name, is_value};
ghost use Rattle.envimg_core.specs.Pieces.{with_value};
ghost use Rattle.envvars_core.specs.Refusals.{given, after, refusal};
ghost use Rattle.envvars_core.specs.Variables.{size_of};
ghost use Rattle.envvars_core.specs.Kept.{old_value};
ghost use Rattle.envvars_core.specs.Olds.{same_value, kept, kept_by, restored, goes_in_place, RestoredFits};
ghost use Rattle.envvars_core.specs.Steps.{HavePlaces};

use super::{Vars, size_of_all};
use crate::checks::{given, same_value};
use crate::flags::{FLAGS_NAME, Flags};
use crate::olds::{Olds, value_of};
use crate::refusals::{Memory, Refusal};
use envvars_store::{OwnedVariable, Variables};

impl Vars {
    /// Writes a new value, or deletes the variable if there is no value or an empty one, and keeps the old value
    /// if the value changes and the name isn't kept yet.
    ///
    /// A write that is refused has changed nothing, neither here nor in what is kept. It is refused as out of memory
    /// only if no check refuses it and the value changes. Either way `restore` would bring back the same as before it.
    pub fn write_kept(
        &mut self,
        name: &[u8],
        new: Option<&[u8]>,
        force: bool,
        defaults: &Vars,
        olds: &mut Olds,
    ) -> Result<(), Refusal>
        ensures refused { IfSome
            (refusal self.old.env defaults.now.env self.old.room name.now (option_copied new.entry) force)
            (λ r. result ≡ Err r) }
        ensures accepted { IfNone
            (refusal self.old.env defaults.now.env self.old.room name.now (option_copied new.entry) force)
            (IsOkUnless result Refusal.Memory) }
        ensures idle { IfNone
            (refusal self.old.env defaults.now.env self.old.room name.now (option_copied new.entry) force)
            (IsTrue (same_value (env.get self.old.env name.now) (given (option_copied new.entry))) → IsOk result) }
        ensures written { OnOk result
            (self.new ≡ record self.old { env = after self.old.env name.now (option_copied new.entry) }) }
        ensures kept { OnOk result
            (olds.new ≡ kept_by self.old.env name.now (option_copied new.entry) olds.old) }
        ensures unchanged { OnErr result (self.new ≡ self.old) }
        ensures olds_unchanged { OnErr result (olds.new ≡ olds.old) }
        ensures brings_back { restored self.new.env olds.new ≡ restored self.old.env olds.old }
        ensures room { self.new.room ≡ self.old.room }
    {
        // for the proof: what is used fits
        prove!(self.used <= self.room);
        let old = self.get(name);
        let size = self.size_left(name, new, force, defaults, old)?;
        let value = given(new);
        if same_value(old, value) {
            return Ok(());
        }
        let added = olds.keep(name, old)?;
        match self.set(name, value, size) {
            Ok(()) => Ok(()),
            Err(Memory) => {
                olds.forget(name, added);
                Err(Refusal::Memory)
            }
        }
    }

    /// Brings back every kept value, and keeps nothing any more. What that leaves fits the room.
    ///
    /// It is refused only when out of memory, and then nothing has changed. It takes no memory if every name kept
    /// with a value is there and `.flags` isn't kept.
    pub fn restore(&mut self, olds: &mut Olds) -> Result<(), Memory>
        requires fits { RestoredFits self.old olds.old }
        ensures restored { OnOk result (self.new ≡ record self.old { env = restored self.old.env olds.old }) }
        ensures emptied { OnOk result (olds.new ≡ env.empty) }
        ensures unchanged { OnErr result (self.new ≡ self.old) }
        ensures olds_unchanged { OnErr result (olds.new ≡ olds.old) }
        ensures refused_only { OnErr result (IsTrue (not (goes_in_place self.old.env olds.old))) }
    {
        if self.goes_in_place(olds) {
            self.swap_in(olds);
            Ok(())
        } else {
            self.build_anew(olds)
        }
    }

    /// Whether what is kept goes back without memory.
    fn goes_in_place(&self, olds: &Olds) -> bool
        ensures { result ≡ goes_in_place self.now.env olds.now }
    {
        !olds.has(FLAGS_NAME) && olds.have_places(&self.variables)
    }

    /// Brings back every kept value in its place, which takes no memory.
    fn swap_in(&mut self, olds: &mut Olds)
        requires in_place { IsTrue (goes_in_place self.old.env olds.old) }
        requires fits { RestoredFits self.old olds.old }
        ensures restored { self.new ≡ record self.old { env = restored self.old.env olds.old } }
        ensures emptied { olds.new ≡ env.empty }
    {
        // for the proof: what is used fits
        prove!(self.used <= self.room);
        let size = swap_all(&mut self.variables, olds, self.used as usize);
        self.used = size as u32;
    }

    /// Brings back every kept value in new variables, which then take the place of the present ones.
    fn build_anew(&mut self, olds: &mut Olds) -> Result<(), Memory>
        requires fits { RestoredFits self.old olds.old }
        ensures restored { OnOk result (self.new ≡ record self.old { env = restored self.old.env olds.old }) }
        ensures emptied { OnOk result (olds.new ≡ env.empty) }
        ensures unchanged { OnErr result (self.new ≡ self.old) }
        ensures olds_unchanged { OnErr result (olds.new ≡ olds.old) }
    {
        let mut variables = self.variables.try_clone(self.alloc)?;
        olds.put_back(&mut variables)?;
        let flags = Flags::of(self.alloc, &variables)?;
        let used = size_of_all(&variables);
        self.variables = variables;
        self.flags = flags;
        self.used = used;
        olds.clear();
        Ok(())
    }
}

/// Swaps every kept value in, or takes away the variable of a name that had none. The size of the variables may pass
/// any number on the way, so it is counted modulo 2^64, in which it comes out right at the end.
fn swap_all(variables: &mut Variables, olds: &mut Olds, mut size: usize) -> usize
    requires places { HavePlaces variables.old (env.entries olds.old) }
    requires sized { size ≡ used variables.old % 2 ^ 64 }
    ensures restored { variables.new ≡ restored variables.old olds.old }
    ensures emptied { olds.new ≡ env.empty }
    ensures sized { result ≡ used (restored variables.old olds.old) % 2 ^ 64 }
{
    'kept: loop {
        match olds.pop() {
            None => return size,
            Some((name, old)) => size = swap_one(variables, &name, old, size),
        }
    }
}

/// Swaps one kept value in, and counts what it takes in place of the present one.
fn swap_one(
    variables: &mut Variables,
    name: &[u8],
    old: Option<OwnedVariable>,
    size: usize,
) -> usize
    requires named { IfSome old (λ p. p.0 ≡ name.now) }
    requires place { IfSome (old_value old) (λ v. IsSome (env.get variables.old name.now)) }
    requires sized { size ≡ used variables.old % 2 ^ 64 }
    ensures swapped { variables.new ≡ with_value variables.old name.now (old_value old) }
    ensures sized { result ≡ used (with_value variables.old name.now (old_value old)) % 2 ^ 64 }
{
    let present = size_of(name, variables.get(name));
    let kept = size_of(name, value_of(&old));
    swap_variable(variables, name, old);
    size.wrapping_sub(present).wrapping_add(kept)
}

/// Swaps one kept value in.
fn swap_variable(variables: &mut Variables, name: &[u8], old: Option<OwnedVariable>)
    requires named { IfSome old (λ p. p.0 ≡ name.now) }
    requires place { IfSome (old_value old) (λ v. IsSome (env.get variables.old name.now)) }
    ensures { variables.new ≡ with_value variables.old name.now (old_value old) }
{
    match old {
        Some(variable) => {
            let _swapped = variables.replace(variable);
        }
        None => variables.remove(name),
    }
}

/// What the variable of a name takes, modulo 2^64.
fn size_of(name: &[u8], value: Option<&[u8]>) -> usize
    ensures { result ≡ size_of name.now (option_copied value.entry) % 2 ^ 64 }
{
    match value {
        Some(value) => name.len().wrapping_add(value.len()).wrapping_add(2),
        None => 0,
    }
}
