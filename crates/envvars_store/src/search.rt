//! Where a name belongs among variables in the order of their names.
ghost use Rattle.std.specs.Prelude.{MatchOption, MatchResult, T, All};
ghost use Rattle.std.specs.FinMap.Entries.{is_sorted};
ghost use Rattle.envimg_core.specs.Environment.{bytes_cmp};
ghost use Rattle.envvars_store.specs.Laying.{LiesIn};
ghost use Rattle.envvars_store.specs.Order.{IsFound, IsGap, StartsAfter};
ghost use Rattle.envvars_store.specs.Runs.{pairs, listed, AreInOrder, IsRunFor, IsPositionOf, BelongsAt};

use crate::runs::{Position, Run};
use crate::variable::Variable;
use std::cmp::Ordering;

/// Where the variable with the name is, or the position where one would be.
pub(crate) fn locate(area: &[u8], runs: &[Run], name: &[u8]) -> Result<Position, Position>
    requires { AreInOrder area.now runs.now }
    ensures { MatchResult result (IsPositionOf name.now area.now runs.now) (BelongsAt name.now area.now runs.now) }
{
    match run_of(area, runs, name) {
        None => Err(Position { run: 0, index: 0 }),
        Some(run) => match index_of(area, &runs[run], name) {
            Ok(index) => Ok(Position { run, index }),
            Err(index) => Err(Position { run, index }),
        },
    }
}

/// The last run whose first variable doesn't come after the name.
fn run_of(area: &[u8], runs: &[Run], name: &[u8]) -> Option<usize>
    requires { AreInOrder area.now runs.now }
    ensures { MatchOption result (StartsAfter name.now (listed area.now runs.now))
        (IsRunFor name.now area.now runs.now) }
{
    let mut low = 0;
    let mut high = runs.len();
    'halving: while low < high {
        let middle = low + (high - low) / 2;
        let run = &runs[middle];
        match name.cmp(run[0].name(area)) {
            Ordering::Less => high = middle,
            Ordering::Equal => low = middle + 1,
            Ordering::Greater => low = middle + 1,
        }
    }
    if low == 0 { None } else { Some(low - 1) }
}

/// The index of the variable with the name in one run, or the index that it would have.
fn index_of(area: &[u8], variables: &[Variable], name: &[u8]) -> Result<usize, usize>
    requires lies { All (LiesIn area.now) variables.now }
    requires sorted { T (is_sorted bytes_cmp (pairs area.now variables.now)) }
    ensures { MatchResult result (IsFound name.now (pairs area.now variables.now))
        (IsGap name.now (pairs area.now variables.now)) }
{
    let mut low = 0;
    let mut high = variables.len();
    'halving: while low < high {
        let middle = low + (high - low) / 2;
        let variable = &variables[middle];
        match name.cmp(variable.name(area)) {
            Ordering::Less => high = middle,
            Ordering::Equal => return Ok(middle),
            Ordering::Greater => low = middle + 1,
        }
    }
    Err(low)
}
