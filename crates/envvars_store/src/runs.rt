//! Variables in runs of a bounded length, so that a write moves one run at most.
ghost use Rattle.std.specs.Prelude.{◌≡◌, ◌+◌, ◌<◌, ◌≤◌, suc, [], ◌∷◌, ◌++◌, length, All, IfOk, IsTrue, OnOk, OnErr};
ghost use Rattle.envvars_store.specs.Runs.{flat, front, rest, later, variables_at, IsFilled};

use crate::variable::Variable;
use std::alloc::{AllocError, Global};
use std::mem::replace;

/// A run of variables, at most `MOST` of them.
pub(crate) type Run = Vec<Variable>;

/// The most variables that a run has. A write moves at most this many.
const MOST: usize = 96;

/// Two neighbouring runs that have no more variables together become one. Each run has room for this many.
pub(crate) const FEW: usize = 48;

/// Where a variable is: the index of its run, and its index in the run.
#[derive(Clone, Copy)]
pub(crate) struct Position {
    pub(crate) run: usize,
    pub(crate) index: usize,
}

/// Puts a variable after those of a run that comes after all others and is not yet among them; a full one goes there
/// first.
#[inline(always)]
pub(crate) fn add(
    alloc: Global,
    runs: &mut Vec<Run>,
    run: &mut Run,
    variable: Variable,
) -> Result<(), AllocError>
    requires { All IsFilled (runs.old.items ++ run.old ∷ []) }
    ensures ok { OnOk result (flat (runs.new.items ++ run.new ∷ [])
        ≡ flat (runs.old.items ++ run.old ∷ []) ++ variable ∷ []) }
    ensures filled { OnOk result (All IsFilled (runs.new.items ++ run.new ∷ [])) }
{
    if run.len() < MOST {
        run.push(variable)?;
        return Ok(());
    }
    let full = replace(run, run_of_one(alloc, variable)?);
    runs.push(full)?;
    Ok(())
}

/// Puts a variable before the one at a position.
pub(crate) fn insert_at(
    alloc: Global,
    runs: &mut Vec<Run>,
    at: Position,
    variable: Variable,
) -> Result<(), AllocError>
    requires index { at.index ≤ length (variables_at runs.old.items at.run) }
    requires filled { All IsFilled runs.old.items }
    ensures ok { OnOk result (flat runs.new.items ≡ front runs.old.items at ++ variable ∷ rest runs.old.items at) }
    ensures err { OnErr result (flat runs.new.items ≡ flat runs.old.items) }
    ensures filled { All IsFilled runs.new.items }
{
    if at.run >= runs.len() {
        let run = run_of_one(alloc, variable)?;
        runs.push(run)?;
        return Ok(());
    }
    let length = runs[at.run].len();
    if length >= MOST && at.index == length && at.run + 1 == runs.len() {
        let run = run_of_one(alloc, variable)?;
        runs.insert(at.run + 1, run)?;
        return Ok(());
    }
    insert_in(runs, at, variable)
}

/// Puts a variable into a run that is there.
fn insert_in(runs: &mut Vec<Run>, at: Position, variable: Variable) -> Result<(), AllocError>
    requires run { at.run < length runs.old.items }
    requires index { at.index ≤ length (variables_at runs.old.items at.run) }
    requires filled { All IsFilled runs.old.items }
    ensures ok { OnOk result (flat runs.new.items ≡ front runs.old.items at ++ variable ∷ rest runs.old.items at) }
    ensures err { OnErr result (flat runs.new.items ≡ flat runs.old.items) }
    ensures filled { All IsFilled runs.new.items }
{
    runs[at.run].insert(at.index, variable)?;
    Ok(())
}

/// A new run, with room for all that it may get.
pub(crate) fn run_of_one(alloc: Global, variable: Variable) -> Result<Run, AllocError>
    ensures { IfOk result (λ r. r.items ≡ variable ∷ []) }
{
    let mut run = Vec::with_capacity(alloc, MOST)?;
    run.push(variable)?;
    Ok(run)
}

/// Whether a variable at a position would make its run too long. After the last one of all a new run begins.
pub(crate) fn is_full(runs: &[Run], at: Position) -> bool
    ensures run { IsTrue result → at.run < length runs.now }
    ensures long { IsTrue result → 1 < length (variables_at runs.now at.run) }
{
    if at.run >= runs.len() {
        return false;
    }
    let length = runs[at.run].len();
    length >= MOST && (at.index < length || at.run + 1 < runs.len())
}

/// Cuts a run in two halves.
pub(crate) fn divide(runs: &mut Vec<Run>, index: usize) -> Result<(), AllocError>
    requires run { index < length runs.old.items }
    requires long { 1 < length (variables_at runs.old.items index) }
    requires filled { All IsFilled runs.old.items }
    ensures variables { flat runs.new.items ≡ flat runs.old.items }
    ensures filled { All IsFilled runs.new.items }
{
    runs.reserve(1)?;
    let half = runs[index].len() / 2;
    let upper = runs[index].split_off(half)?;
    let Ok(()) = runs.insert(index + 1, upper) else {
        unreachable!()
    };
    Ok(())
}

/// Puts a variable in the place of another.
pub(crate) fn replace_at(runs: &mut Vec<Run>, at: Position, variable: Variable)
    requires run { at.run < length runs.old.items }
    requires index { at.index < length (variables_at runs.old.items at.run) }
    requires filled { All IsFilled runs.old.items }
    ensures variables { flat runs.new.items ≡ front runs.old.items at ++ variable ∷ later runs.old.items at }
    ensures filled { All IsFilled runs.new.items }
{
    let run = &mut runs[at.run];
    run[at.index] = variable;
}

/// Takes a variable out. It takes no memory.
pub(crate) fn remove_at(runs: &mut Vec<Run>, at: Position)
    requires run { at.run < length runs.old.items }
    requires index { at.index < length (variables_at runs.old.items at.run) }
    requires filled { All IsFilled runs.old.items }
    ensures variables { flat runs.new.items ≡ front runs.old.items at ++ later runs.old.items at }
    ensures filled { All IsFilled runs.new.items }
{
    take_at(runs, at);
    join(runs, at.run);
    if at.run > 0 {
        join(runs, at.run - 1);
    }
}

/// Takes a variable out of its run, and the run away if that was its last.
fn take_at(runs: &mut Vec<Run>, at: Position)
    requires run { at.run < length runs.old.items }
    requires index { at.index < length (variables_at runs.old.items at.run) }
    requires filled { All IsFilled runs.old.items }
    ensures variables { flat runs.new.items ≡ front runs.old.items at ++ later runs.old.items at }
    ensures filled { All IsFilled runs.new.items }
{
    let _variable = runs[at.run].remove(at.index);
    if runs[at.run].is_empty() {
        let _run = runs.remove(at.run);
    }
}

/// Makes a run and the one after it one run, if they are short and it has the room.
fn join(runs: &mut Vec<Run>, first: usize)
    requires { All IsFilled runs.old.items }
    ensures variables { flat runs.new.items ≡ flat runs.old.items }
    ensures filled { All IsFilled runs.new.items }
{
    if runs.len() < 2 || first >= runs.len() - 1 {
        return;
    }
    let length = runs[first].len();
    let more = runs[first + 1].len();
    if length > FEW || more > FEW - length || runs[first].capacity() < length + more {
        return;
    }
    let mut behind = runs.remove(first + 1);
    let run = &mut runs[first];
    let Ok(()) = run.append(&mut behind) else {
        unreachable!()
    };
}
