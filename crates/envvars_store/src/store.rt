//! The variables in the order of their names.
ghost use Rattle.std.specs.Prelude.{◌≡◌, ◌↔◌, map, All, IsTrue, IsOk, IsSome, OnOk, OnErr, IfOk, IfErr, IfSome, MatchResult, option_map};
ghost use Rattle.std.specs.FinMap as env;
ghost use Rattle.std.specs.FinMap.Entries.{put, where_key};
ghost use Rattle.envimg_core.specs.Environment.{bytes_cmp, is_name, is_value, IsVariable, entry_text};
ghost use Rattle.envvars_store.specs.Laying.{pair_of, LiesIn};
ghost use Rattle.envvars_store.specs.Order.{is_other};
ghost use Rattle.envvars_store.specs.Runs.{flat, listed, IsFilled, HoldsVariable, AreInOrder, IsPositionOf, BelongsAt};

use crate::iterators::{Iter, Lines};
use crate::owned_variable::OwnedVariable;
use crate::runs::{FEW, Position, Run, divide, insert_at, is_full, remove_at, replace_at};
use crate::search::locate;
use crate::variable::Variable;
use std::alloc::{AllocError, Global};
use std::marker::Model;

/// The most bytes that are copied at once.
const BLOCK: usize = 2048;

/// The variables of an environment: a finite map from names to values.
///
/// One copy of the loaded area, which never changes, and the variables in the order of their names:
/// each is an extent of the area, or, once it was written, owned.
#[derive(Drop)]
pub struct Variables {
    pub(crate) area: Vec<u8>,
    pub(crate) runs: Vec<Run>,
}

impl Model for Variables {
    ghost use Rattle.std.specs.FinMap as env;
    ghost use Rattle.std.specs.Coded.{coded_list, coded_ℕ};
    ghost use Rattle.envimg_core.specs.Environment.{Environment};
    ghost use Rattle.envvars_store.specs.Runs.{listed, AreInOrder};

    ghost Value = { Environment };

    ghost coded = { env.code (coded_list coded_ℕ) (coded_list coded_ℕ) };

    ghost view = { λ v. env.from_sorted (listed v.area.items v.runs.items) };

    ghost invariant = { λ v. AreInOrder v.area.items v.runs.items };
}

impl Variables {
    /// No variables. It takes no memory.
    pub fn new(alloc: Global) -> Variables
        ensures { result ≡ env.empty }
    {
        Variables {
            area: Vec::new(alloc),
            runs: Vec::new(alloc),
        }
    }

    /// The same variables in memory of their own.
    pub fn try_clone(&self, alloc: Global) -> Result<Variables, AllocError>
        ensures { IfOk result (λ v. v ≡ self.now) }
    {
        Ok(Variables {
            area: copied(alloc, &self.area)?,
            runs: copied_runs(alloc, &self.runs)?,
        })
    }

    /// The value of a name, if it has one.
    pub fn get(&self, name: &[u8]) -> Option<&[u8]>
        ensures value { option_map (λ v. v.now) result ≡ env.get self.now name.now }
        ensures formed { IfSome result (λ v. IsVariable (name.now, v.now)) }
    {
        value_among(&self.area, &self.runs, name)
    }

    /// Gives a name a value. The name is a name and the value a value (docs/images.md).
    /// It is refused only when out of memory, and then nothing has changed.
    pub fn insert(&mut self, name: &[u8], value: &[u8]) -> Result<(), AllocError>
        requires name_form { IsTrue (is_name name.now) }
        requires value_form { IsTrue (is_value value.now) }
        ensures ok { OnOk result (self.new ≡ env.insert self.old name.now value.now) }
        ensures err { OnErr result (self.new ≡ self.old) }
    {
        let alloc = *self.area.allocator();
        let variable = Variable::Written(OwnedVariable::new(alloc, name, value)?);
        set(alloc, &self.area, &mut self.runs, variable)
    }

    /// Takes the variable of a name away, if there is one. It takes no memory.
    pub fn remove(&mut self, name: &[u8])
        ensures { self.new ≡ env.remove self.old name.now }
    {
        forget(&self.area, &mut self.runs, name);
    }

    /// Puts a variable in the place of the one that has its name, which takes no memory.
    /// If none has it, the variable that was given comes back and nothing has changed.
    pub fn replace(&mut self, variable: OwnedVariable) -> Result<(), OwnedVariable>
        ensures present { IsOk result ↔ IsSome (env.get self.old variable.0) }
        ensures ok { OnOk result (self.new ≡ env.insert self.old variable.0 variable.1) }
        ensures err { OnErr result (self.new ≡ self.old) }
        ensures back { IfErr result (λ t. t ≡ variable) }
    {
        match locate(&self.area, &self.runs, variable.name()) {
            Ok(at) => {
                replace_at(&mut self.runs, at, Variable::Written(variable));
                Ok(())
            }
            Err(_) => Err(variable),
        }
    }

    /// The names with their values, in ascending order of the names' bytes.
    pub fn iter(&self) -> Iter<'_>
        ensures entries { result ≡ env.entries self.now }
        ensures formed { All IsVariable (env.entries self.now) }
    {
        Iter::new(&self.area, &self.runs)
    }

    /// Each variable as one text `name=value`, in ascending order of the names' bytes.
    pub fn lines(&self) -> Lines<'_>
        ensures entries { result ≡ map entry_text (env.entries self.now) }
        ensures formed { All IsVariable (env.entries self.now) }
    {
        Lines::new(&self.area, &self.runs)
    }
}

/// The value of a name among variables, if it has one.
fn value_among<'a>(area: &'a [u8], runs: &'a [Run], name: &[u8]) -> Option<&'a [u8]>
    requires { AreInOrder area.now runs.now }
    ensures value { option_map (λ v. v.now) result
        ≡ env.get (env.from_sorted {R = bytes_cmp} (listed area.now runs.now)) name.now }
    ensures formed { IfSome result (λ v. IsVariable (name.now, v.now)) }
{
    match locate(area, runs, name) {
        Ok(at) => {
            let variable = &runs[at.run][at.index];
            Some(variable.value(area))
        }
        Err(_) => None,
    }
}

/// Puts a variable where its name belongs, over the one that has the name.
pub(crate) fn set(
    alloc: Global,
    area: &[u8],
    runs: &mut Vec<Run>,
    variable: Variable,
) -> Result<(), AllocError>
    requires in_order { AreInOrder area.now runs.old.items }
    requires lies { LiesIn area.now variable }
    requires formed { HoldsVariable area.now variable }
    ensures in_order { AreInOrder area.now runs.new.items }
    ensures ok { OnOk result (listed area.now runs.new.items
        ≡ put bytes_cmp (pair_of area.now variable).0 (pair_of area.now variable).1 (listed area.now runs.old.items)) }
    ensures err { OnErr result (listed area.now runs.new.items ≡ listed area.now runs.old.items) }
{
    let found = locate_with_room(area, runs, variable.name(area))?;
    match found {
        Ok(at) => replace_at(runs, at, variable),
        Err(at) => insert_at(alloc, runs, at, variable)?,
    }
    Ok(())
}

/// Where the variable with the name is, or where one would be, in a run that has room for it: a full one is cut.
fn locate_with_room(
    area: &[u8],
    runs: &mut Vec<Run>,
    name: &[u8],
) -> Result<Result<Position, Position>, AllocError>
    requires { AreInOrder area.now runs.old.items }
    ensures in_order { AreInOrder area.now runs.new.items }
    ensures same { listed area.now runs.new.items ≡ listed area.now runs.old.items }
    ensures found { IfOk result (λ found. MatchResult found
        (IsPositionOf name.now area.now runs.new.items) (BelongsAt name.now area.now runs.new.items)) }
{
    match locate(area, runs, name) {
        Err(at) if is_full(runs, at) => {
            divide(runs, at.run)?;
            Ok(locate(area, runs, name))
        }
        found => Ok(found),
    }
}

/// Takes the variable of a name away, if there is one.
pub(crate) fn forget(area: &[u8], runs: &mut Vec<Run>, name: &[u8])
    requires { AreInOrder area.now runs.old.items }
    ensures in_order { AreInOrder area.now runs.new.items }
    ensures gone { listed area.now runs.new.items
        ≡ where_key bytes_cmp (is_other name.now) (listed area.now runs.old.items) }
{
    match locate(area, runs, name) {
        Ok(at) => remove_at(runs, at),
        Err(_) => {}
    }
}

/// The bytes in memory of their own.
pub(crate) fn copied(alloc: Global, bytes: &[u8]) -> Result<Vec<u8>, AllocError>
    ensures { IfOk result (λ v. v.items ≡ bytes.now) }
{
    let mut copy = Vec::with_capacity(alloc, bytes.len())?;
    let mut at = 0;
    'walk: while at < bytes.len() {
        let end = at + (bytes.len() - at).min(BLOCK);
        copy.extend_from_slice(&bytes[at..end])?;
        at = end;
    }
    Ok(copy)
}

/// The runs, each variable in memory of its own.
fn copied_runs(alloc: Global, runs: &[Run]) -> Result<Vec<Run>, AllocError>
    requires { All IsFilled runs.now }
    ensures variables { IfOk result (λ v. flat v.items ≡ flat runs.now) }
    ensures filled { IfOk result (λ v. All IsFilled v.items) }
{
    let mut copy = Vec::with_capacity(alloc, runs.len())?;
    'runs: for run in runs {
        copy.push(copied_run(alloc, run)?)?;
    }
    Ok(copy)
}

/// One run. A short one gets room to take in its neighbour, as each run has it.
fn copied_run(alloc: Global, run: &[Variable]) -> Result<Run, AllocError>
    ensures { IfOk result (λ v. v.items ≡ run.now) }
{
    let mut copy = Vec::with_capacity(alloc, run.len().max(FEW))?;
    'variables: for variable in run {
        copy.push(variable.try_clone(alloc)?)?;
    }
    Ok(copy)
}
