//! What is kept of variables that change, so that they can be brought back.

ghost use Rattle.std.specs.Prelude.{◌≡◌, fold, not, if◌then◌else◌, IfOk, OnOk, OnErr, IfSome, IsTrue, MatchOption, All, Some, false, option_copied, option_map};
ghost use Rattle.std.specs.List.{list_all};
ghost use Rattle.std.specs.FinMap as env;
ghost use Rattle.envimg_core.specs.Environment.{is_name, is_value};
ghost use Rattle.envimg_core.specs.Pieces.{with_value, after_entry};
ghost use Rattle.envvars_core.specs.Olds.{kept, restored, has_place};
ghost use Rattle.envvars_core.specs.Kept.{old_value, kept_entries, IsNamed};

use crate::refusals::Memory;
use envvars_store::{OwnedVariable, Variables};
use std::alloc::{AllocError, Global};
use std::collections::BTreeMap;
use std::marker::Model;

/// For each name the variable that it had, or that it had none.
type Values = BTreeMap<Vec<u8>, Option<OwnedVariable>>;

/// For each changed name its first old value, or that it had none.
///
/// An old value is kept as the variable that it was, so that bringing it back takes no memory.
#[derive(Drop)]
pub struct Olds {
    pub(crate) values: Values,
    pub(crate) alloc: Global,
}

impl Model for Olds {
    ghost use Rattle.std.specs.FinMap as env;
    ghost use Rattle.envvars_core.specs.Olds.{OldValues, olds_code};
    ghost use Rattle.envvars_core.specs.Kept.{kept_entries, AreKept};

    ghost Value = { OldValues };

    ghost coded = { olds_code };

    ghost view = { λ a. env.from_sorted (kept_entries a.values.entries) };

    ghost invariant = { λ a. AreKept a.values.entries };
}

impl Olds {
    /// Nothing kept. It takes no memory.
    pub fn new(alloc: Global) -> Olds
        ensures { result ≡ env.empty }
    {
        Olds {
            values: BTreeMap::new(alloc),
            alloc,
        }
    }

    /// How many names are kept.
    pub fn len(&self) -> usize
        ensures { result ≡ env.len self.now }
    {
        // nothing else is kept: a further field would have to be named here
        let Olds { values, alloc: _ } = self;
        values.len()
    }

    /// The old value of a kept name, or that it had none.
    pub fn old(&self, name: &[u8]) -> Option<Option<&[u8]>>
        ensures { option_map (λ old. option_map (λ v. v.now) old) result ≡ env.get self.now name.now }
    {
        match self.values.get(name) {
            None => None,
            Some(old) => Some(value_of(old)),
        }
    }

    /// Whether a name is kept.
    pub(crate) fn has(&self, name: &[u8]) -> bool
        ensures { result ≡ env.contains_key self.now name.now }
    {
        self.old(name).is_some()
    }

    /// Keeps the old value of a name, unless one is kept already, and answers whether it is kept only now.
    /// If memory runs out, nothing has changed.
    pub(crate) fn keep(&mut self, name: &[u8], old: Option<&[u8]>) -> Result<bool, Memory>
        requires name_form { IsTrue (is_name name.now) }
        requires value_form { IfSome (option_copied old) (λ v. IsTrue (is_value v)) }
        ensures kept { OnOk result (self.new ≡ kept self.old name.now (option_copied old.entry)) }
        ensures added { IfOk result (λ added. added ≡ not (env.contains_key self.old name.now)) }
        ensures unchanged { OnErr result (self.new ≡ self.old) }
    {
        if self.has(name) {
            return Ok(false);
        }
        self.add(name, old)?;
        Ok(true)
    }

    /// Stops keeping a name that was kept only now; otherwise it does nothing. It takes no memory.
    pub(crate) fn forget(&mut self, name: &[u8], added: bool)
        ensures { self.new ≡ (if added then env.remove self.old name.now else self.old) }
    {
        if added {
            self.take_out(name);
        }
    }

    /// Keeps nothing any more. It takes no memory.
    pub(crate) fn clear(&mut self)
        ensures { self.new ≡ env.empty }
    {
        self.values.clear();
    }

    /// Takes out one of the kept names, with the variable that it had. It takes no memory.
    pub(crate) fn pop(&mut self) -> Option<(Vec<u8>, Option<OwnedVariable>)>
        ensures taken { MatchOption result ((self.old ≡ env.empty) × (self.new ≡ env.empty))
            (λ e. (env.get self.old e.0.items ≡ Some (old_value e.1)) × (self.new ≡ env.remove self.old e.0.items)) }
        ensures named { IfSome result IsNamed }
    {
        self.values.pop_first()
    }

    /// Whether each kept value has its place among the variables.
    pub(crate) fn have_places(&self, variables: &Variables) -> bool
        ensures { result ≡ list_all (has_place variables.now) (env.entries self.now) }
    {
        have_places(&self.values, variables)
    }

    /// Puts each kept value back among the variables.
    pub(crate) fn put_back(&self, variables: &mut Variables) -> Result<(), Memory>
        ensures { OnOk result (variables.new ≡ restored variables.old self.now) }
    {
        put_back(&self.values, variables)
    }

    /// Keeps the old value of a name that isn't kept yet. If memory runs out, nothing has changed.
    fn add(&mut self, name: &[u8], old: Option<&[u8]>) -> Result<(), Memory>
        requires name_form { IsTrue (is_name name.now) }
        requires value_form { IfSome (option_copied old) (λ v. IsTrue (is_value v)) }
        ensures ok { OnOk result (self.new ≡ env.insert self.old name.now (option_copied old.entry)) }
        ensures err { OnErr result (self.new ≡ self.old) }
    {
        let variable = variable_of(self.alloc, name, old)?;
        let key = Vec::from_slice(self.alloc, name)?;
        let _none = self.values.insert(key, variable)?;
        Ok(())
    }

    /// Takes a kept name out, if it is there.
    fn take_out(&mut self, name: &[u8])
        ensures { self.new ≡ env.remove self.old name.now }
    {
        let _old = self.values.remove(name);
    }
}

/// The variable of a name that had a value, if it had one.
fn variable_of(
    alloc: Global,
    name: &[u8],
    old: Option<&[u8]>,
) -> Result<Option<OwnedVariable>, AllocError>
    requires name_form { IsTrue (is_name name.now) }
    requires value_form { IfSome (option_copied old) (λ v. IsTrue (is_value v)) }
    ensures value { IfOk result (λ variable. old_value variable ≡ option_copied old.entry) }
    ensures named { IfOk result (λ variable. IfSome variable (λ p. p.0 ≡ name.now)) }
{
    match old {
        Some(value) => Ok(Some(OwnedVariable::new(alloc, name, value)?)),
        None => Ok(None),
    }
}

/// The value of a variable, if there is one.
pub(crate) fn value_of(old: &Option<OwnedVariable>) -> Option<&[u8]>
    ensures { option_copied result ≡ old_value old.now }
{
    match old {
        Some(variable) => Some(variable.value()),
        None => None,
    }
}

/// Whether each kept value has its place among the variables.
fn have_places(values: &Values, variables: &Variables) -> bool
    ensures { result ≡ list_all (has_place variables.now) (kept_entries values.now.entries) }
{
    for (name, old) in values {
        if !has_place(variables, name, old) {
            return false;
        }
    }
    true
}

/// Whether a kept value has its place among the variables.
fn has_place(variables: &Variables, name: &[u8], old: &Option<OwnedVariable>) -> bool
    ensures { result ≡ has_place variables.now (name.now, old_value old.now) }
{
    match old {
        None => true,
        Some(_) => variables.get(name).is_some(),
    }
}

/// Puts each kept value back.
fn put_back(values: &Values, variables: &mut Variables) -> Result<(), Memory>
    requires { All IsNamed values.now.entries }
    ensures { OnOk result (variables.new ≡ fold after_entry variables.old (kept_entries values.now.entries)) }
{
    for (name, old) in values {
        put_back_one(variables, name, old)?;
    }
    Ok(())
}

/// Puts one kept value back.
fn put_back_one(
    variables: &mut Variables,
    name: &[u8],
    old: &Option<OwnedVariable>,
) -> Result<(), Memory>
    requires { IfSome old.now (λ p. p.0 ≡ name.now) }
    ensures { OnOk result (variables.new ≡ with_value variables.old name.now (old_value old.now)) }
{
    match old {
        Some(variable) => variables.insert(variable.name(), variable.value())?,
        None => variables.remove(name),
    }
    Ok(())
}
