//! The environments of a dump.
ghost use Rattle.std.specs.Prelude.{◌≡◌, ◌≤◌, ◌++◌, IfOk, IsTrue, length, drop};
ghost use Rattle.std.specs.FinMap.{entries};
ghost use Rattle.envimg_core.specs.Pieces.{is_terminated};
ghost use Rattle.envimg_core.specs.State.{state_of};
ghost use Rattle.dump_search.specs.Search.{environment_at, environments, found_as, found_at, variable_count};

use crate::copy_search::{behind, environment_at};
use envimg_core::{CopyState, Geometry, check_copy};
use envvars_core::{Memory, Vars};
use std::alloc::Global;

/// The bytes from one place to the next.
const PLACE_STEP: usize = 512;

/// An environment in a dump.
#[derive(Clone, Copy, Debug, PartialEq, Eq)]
pub struct Found {
    /// Where it begins, in bytes.
    pub start: usize,
    /// Its layout, size and byte order.
    pub geometry: Geometry,
    /// Its flag, or 0 if it has none.
    pub flag: u8,
    /// How many variables it has.
    pub variables: usize,
}

/// The environments of a dump, in the order of their places: what is good, of one of the sizes that boards have, and begins
/// with an entry, at each multiple of 512 bytes.
#[tactic(auto, unfolding(crate::specs::Search::environments))]
pub fn environments_in(alloc: Global, dump: &[u8]) -> Result<Vec<Found>, Memory>
    ensures { IfOk result (λ found. found.items ≡ environments dump.now) }
{
    let mut found = Vec::new(alloc);
    let mut start = 0usize;
    while start < dump.len() {
        push_at(alloc, &mut found, start, behind(start, dump))?;
        start += PLACE_STEP;
    }
    Ok(found)
}

/// Appends the environment that begins at a place, if there is one; `bytes` are the dump from there on.
fn push_at(alloc: Global, found: &mut Vec<Found>, start: usize, bytes: &[u8]) -> Result<(), Memory>
    ensures { IfOk result (λ _. found.new.items ≡ found.old.items ++ found_at start bytes.now (environment_at bytes.now)) }
{
    match environment_at(bytes) {
        None => Ok(()),
        Some(geometry) => match bytes.get(..geometry.size() as usize) {
            None => Ok(()),
            Some(copy) => push_copy(alloc, found, start, geometry, copy),
        },
    }
}

/// Appends a copy, if it is good: its flag and the number of its variables are those of these bytes.
fn push_copy(
    alloc: Global,
    found: &mut Vec<Found>,
    start: usize,
    geometry: Geometry,
    copy: &[u8],
) -> Result<(), Memory>
    ensures { IfOk result (λ _. found.new.items ≡ found.old.items ++ found_as start geometry copy.now (state_of geometry copy.now)) }
{
    match check_copy(&geometry, copy) {
        CopyState::Good(flag) => match geometry.area(copy) {
            None => unreachable!(),
            Some(area) => {
                let variables = variables_in(alloc, area)?;
                found.push(Found {
                    start,
                    geometry,
                    flag,
                    variables,
                })?;
                Ok(())
            }
        },
        CopyState::BadLength => Ok(()),
        CopyState::BadCrc => Ok(()),
        CopyState::Unterminated => Ok(()),
    }
}

/// How many variables a data area has.
fn variables_in(alloc: Global, area: &[u8]) -> Result<usize, Memory>
    requires terminated { IsTrue (is_terminated area.now) }
    requires bounded { length area.now ≤ 1048576 }
    ensures { IfOk result (λ count. count ≡ variable_count area.now) }
{
    let vars = Vars::load(alloc, area)?;
    count_of(alloc, &vars)
}

/// How many variables there are.
fn count_of(alloc: Global, vars: &Vars) -> Result<usize, Memory>
    ensures { IfOk result (λ count. count ≡ length (entries vars.now.env)) }
{
    let mut lines = Vec::new(alloc);
    for line in vars.lines() {
        lines.push(line)?;
    }
    Ok(lines.len())
}
