//! Writes: each is checked first, and then the one change is made or nothing is.

ghost use Rattle.std.specs.Prelude.{None, Some, List, Option, ℕ, ◌≡◌, ◌≢◌, ◌≤◌, IfSome, IfNone, IfOk, IfErr, OnOk, OnErr, IsOkUnless, IsTrue, [], option_map, option_copied, unwrap_or};
ghost use Rattle.std.specs.Option.{ForSome};
ghost use Rattle.std.specs.FinMap as env;
ghost use Rattle.envimg_core.specs.Environment.{used, is_name, is_value};
ghost use Rattle.envimg_core.specs.Pieces.{with_value};
ghost use Rattle.envvars_core.specs.Attributes.{flags_name};
ghost use Rattle.envvars_core.specs.Refusals.{given, after, access_refusal, refusal, full, answer_of, IsAccepted};
ghost use Rattle.envvars_core.specs.Variables.{IsWas, IsFormedWas};

use super::Vars;
use crate::attributes::Access;
use crate::checks::{attr_refusal, given, has_form, is_nothing};
use crate::flags::{FLAGS_NAME, Flags};
use crate::refusals::{Memory, Refusal};
use envvars_store::Variables;
use std::alloc::{AllocError, Global};

/// A name and the value that it had before a write.
#[derive(Debug, Drop)]
pub struct Was {
    /// The name that was written.
    pub name: Vec<u8>,
    /// Its value before the write, if it had one.
    pub before: Option<Vec<u8>>,
}

impl Vars {
    /// Whether a write is refused, and for what: the first of form, type, access and size that applies.
    /// It takes no memory, and never reports that memory ran out.
    ///
    /// `defaults` is the default environment, and `force` leaves out the check of access and no other.
    pub fn check(
        &self,
        name: &[u8],
        new: Option<&[u8]>,
        force: bool,
        defaults: &Vars,
    ) -> Result<(), Refusal>
        ensures refusal { result
            ≡ answer_of (refusal self.now.env defaults.now.env self.now.room name.now (option_copied new.entry) force) }
        ensures never_memory { result ≢ Err Refusal.Memory }
        ensures accepted { OnOk result (IsAccepted self.now.env self.now.room name.now (option_copied new.entry)) }
    {
        // for the proof: what is used fits
        prove!(self.used <= self.room);
        let old = self.get(name);
        match self.size_left(name, new, force, defaults, old) {
            Ok(_) => Ok(()),
            Err(refusal) => Err(refusal),
        }
    }

    /// Writes a new value, or deletes the variable if there is no value or an empty one.
    /// Hands out the value before the write.
    ///
    /// A write that is refused has changed nothing. It is refused as out of memory only if no check refuses it.
    /// `defaults` is the default environment, and `force` leaves out the check of access and no other.
    pub fn write(
        &mut self,
        name: &[u8],
        new: Option<&[u8]>,
        force: bool,
        defaults: &Vars,
    ) -> Result<Was, Refusal>
        ensures refused { IfSome
            (refusal self.old.env defaults.now.env self.old.room name.now (option_copied new.entry) force)
            (λ r. result ≡ Err r) }
        ensures accepted { IfNone
            (refusal self.old.env defaults.now.env self.old.room name.now (option_copied new.entry) force)
            (IsOkUnless result Refusal.Memory) }
        ensures written { OnOk result
            (self.new ≡ record self.old { env = after self.old.env name.now (option_copied new.entry) }) }
        ensures previous { IfOk result (λ previous. IsWas previous name.now (env.get self.old.env name.now)) }
        ensures formed { IfOk result IsFormedWas }
        ensures unchanged { OnErr result (self.new ≡ self.old) }
    {
        // for the proof: what is used fits
        prove!(self.used <= self.room);
        let before = self.get(name);
        let size = self.size_left(name, new, force, defaults, before)?;
        let was = was_of(self.alloc, name, before)?;
        self.set(name, given(new), size)?;
        Ok(was)
    }

    /// The size that a write leaves, or the first of the checks that refuses it. The old value is given.
    pub(super) fn size_left(
        &self,
        name: &[u8],
        new: Option<&[u8]>,
        force: bool,
        defaults: &Vars,
        old: Option<&[u8]>,
    ) -> Result<u32, Refusal>
        requires { option_copied old ≡ env.get self.now.env name.now }
        ensures size { IfOk result (λ size. size ≡ used (after self.now.env name.now (option_copied new.entry))) }
        ensures accepted { OnOk result
            (refusal self.now.env defaults.now.env self.now.room name.now (option_copied new.entry) force ≡ None) }
        ensures refused { IfErr result
            (λ r.
            refusal self.now.env defaults.now.env self.now.room name.now (option_copied new.entry) force ≡ Some r) }
    {
        if !has_form(name, new) {
            return Err(Refusal::BadForm);
        }
        let value = given(new);
        if is_nothing(old, value) {
            return Ok(self.used);
        }
        let attr = self.attributes(name);
        let default = default_for(attr.access, defaults, name);
        match attr_refusal(force, attr, old, default, value) {
            Some(refusal) => Err(refusal),
            None => self.fitting_size(name, old, value),
        }
    }

    /// The size that a write would leave, if the room holds it.
    fn fitting_size(
        &self,
        name: &[u8],
        old: Option<&[u8]>,
        value: Option<&[u8]>,
    ) -> Result<u32, Refusal>
        requires { option_copied old ≡ env.get self.now.env name.now }
        ensures size { IfOk result
            (λ size. size ≡ used (with_value self.now.env name.now (option_copied value.entry))) }
        ensures fits { OnOk result
            (full self.now.room (with_value self.now.env name.now (option_copied value.entry)) ≡ None) }
        ensures full { IfErr result
            (λ r. full self.now.room (with_value self.now.env name.now (option_copied value.entry)) ≡ Some r) }
    {
        match self.used_after(name, old, value) {
            Some(size) => Ok(size),
            None => Err(Refusal::Full),
        }
    }

    /// Gives a name a value or takes its variable away, which leaves this size.
    pub(super) fn set(&mut self, name: &[u8], value: Option<&[u8]>, size: u32) -> Result<(), Memory>
        requires name_form { IsTrue (is_name name.now) }
        requires value_form { IfSome (option_copied value) (λ v. IsTrue (is_value v)) }
        requires sized { size ≡ used (with_value self.old.env name.now (option_copied value)) }
        requires fits { size ≤ self.old.room }
        ensures ok { OnOk result (self.new
            ≡ record self.old { env = with_value self.old.env name.now (option_copied value.entry) }) }
        ensures err { OnErr result (self.new ≡ self.old) }
    {
        if name == FLAGS_NAME {
            self.set_flags(value, size)
        } else {
            self.set_other(name, value, size)
        }
    }

    /// Gives a name a value or takes its variable away, if the name is not `.flags`.
    fn set_other(&mut self, name: &[u8], value: Option<&[u8]>, size: u32) -> Result<(), Memory>
        requires name_form { IsTrue (is_name name.now) }
        requires value_form { IfSome (option_copied value) (λ v. IsTrue (is_value v)) }
        requires other { name.now ≢ flags_name }
        requires sized { size ≡ used (with_value self.old.env name.now (option_copied value)) }
        requires fits { size ≤ self.old.room }
        ensures ok { OnOk result (self.new
            ≡ record self.old { env = with_value self.old.env name.now (option_copied value.entry) }) }
        ensures err { OnErr result (self.new ≡ self.old) }
    {
        change(&mut self.variables, name, value)?;
        self.used = size;
        Ok(())
    }

    /// Gives `.flags` a value or takes it away.
    fn set_flags(&mut self, value: Option<&[u8]>, size: u32) -> Result<(), Memory>
        requires value_form { IfSome (option_copied value) (λ v. IsTrue (is_value v)) }
        requires sized { size ≡ used (with_value self.old.env flags_name (option_copied value)) }
        requires fits { size ≤ self.old.room }
        ensures ok { OnOk result (self.new
            ≡ record self.old { env = with_value self.old.env flags_name (option_copied value.entry) }) }
        ensures err { OnErr result (self.new ≡ self.old) }
    {
        let flags = Flags::parse(self.alloc, text_of(value))?;
        change(&mut self.variables, FLAGS_NAME, value)?;
        self.flags = flags;
        self.used = size;
        Ok(())
    }
}

/// The value of the default environment, if an access asks for it.
fn default_for<'a>(access: Access, defaults: &'a Vars, name: &[u8]) -> Option<&'a [u8]>
    ensures { (old new : Option (List ℕ)) → access_refusal access old (option_copied result) new
        ≡ access_refusal access old (env.get defaults.now.env name.now) new }
{
    match access {
        Access::ChangeDefault => defaults.get(name),
        Access::Any => None,
        Access::ReadOnly => None,
        Access::WriteOnce => None,
    }
}

/// A name and its value before a write, in memory of their own.
fn was_of(alloc: Global, name: &[u8], before: Option<&[u8]>) -> Result<Was, Memory>
    ensures { IfOk result (λ was. IsWas was name.now (option_copied before.entry)) }
{
    let name = name.to_vec(alloc)?;
    let before = copied(alloc, before)?;
    Ok(Was { name, before })
}

/// A value in memory of its own.
fn copied(alloc: Global, value: Option<&[u8]>) -> Result<Option<Vec<u8>>, AllocError>
    ensures { IfOk result (λ copy. option_map (λ v. v.items) copy ≡ option_copied value.entry) }
{
    match value {
        Some(value) => Ok(Some(value.to_vec(alloc)?)),
        None => Ok(None),
    }
}

/// The change itself: gives a name a value, or takes its variable away.
fn change(variables: &mut Variables, name: &[u8], value: Option<&[u8]>) -> Result<(), AllocError>
    requires name_form { IsTrue (is_name name.now) }
    requires value_form { IfSome (option_copied value) (λ v. IsTrue (is_value v)) }
    ensures ok { OnOk result (variables.new ≡ with_value variables.old name.now (option_copied value.entry)) }
    ensures err { OnErr result (variables.new ≡ variables.old) }
{
    match value {
        Some(value) => variables.insert(name, value),
        None => {
            variables.remove(name);
            Ok(())
        }
    }
}

/// The bytes of a value, none if there is no value.
fn text_of(value: Option<&[u8]>) -> &[u8]
    ensures { result.now ≡ unwrap_or (option_copied value.entry) [] }
{
    match value {
        Some(value) => value,
        None => &[],
    }
}
