//! The variables of a data area.
ghost use Rattle.std.specs.Prelude.{◌≡◌, ◌+◌, ◌<◌, ◌≤◌, length, fold, filter, IfOk, IfSome, OnOk, drop, false, [], ◌∷◌, All, slice_range};
ghost use Rattle.envimg_core.specs.Bytes.{greatest_size};
ghost use Rattle.envimg_core.specs.Pieces.{entries_of, vars_of, entry_of, has_name, after_entry};
ghost use Rattle.std.specs.FinMap as env;
ghost use Rattle.envvars_store.specs.Pieces.{IsPiece, IsNextExtent};
ghost use Rattle.envvars_store.specs.Laying.{IsExtent};
ghost use Rattle.envvars_store.specs.Runs.{listed, AreInOrder};
ghost use Rattle.envimg_core.specs.Environment.{is_equals};

use crate::extents::{next_extent, piece_end};
use crate::runs::{Run, add, run_of_one};
use crate::store::{Variables, copied, forget, set};
use crate::variable::{Extent, Variable};
use envimg_core::EQUALS;
use memchr::memchr;
use std::alloc::{AllocError, Global};

impl Variables {
    /// The variables of a data area: the last of its entries for a name decides.
    /// The area is at most 1,048,576 bytes long.
    pub fn load(alloc: Global, area: &[u8]) -> Result<Variables, AllocError>
        requires { length area.now ≤ greatest_size }
        ensures { IfOk result (λ v. v ≡ vars_of (entries_of area.now)) }
    {
        let area = copied(alloc, area)?;
        let runs = loaded(alloc, &area)?;
        Ok(Variables { area, runs })
    }
}

/// The variables of an area as extents of it: as far as its names rise without a search, and from there on entry by
/// entry.
fn loaded(alloc: Global, area: &[u8]) -> Result<Vec<Run>, AllocError>
    requires { length area.now ≤ greatest_size }
    ensures in_order { IfOk result (λ runs. AreInOrder area.now runs.items) }
    ensures variables { IfOk result (λ runs.
        env.from_sorted (listed area.now runs.items) ≡ vars_of (entries_of area.now)) }
{
    let mut runs = Vec::new(alloc);
    let mut at = rising(alloc, area, &mut runs)?;
    'walk: loop {
        match piece_end(area, at) {
            None => return Ok(runs),
            Some(end) => {
                read_entry(alloc, area, &mut runs, at, end)?;
                at = end + 1;
            }
        }
    }
}

/// Takes the entries up to the first whose name doesn't come after the last one, or that has no name or value, and
/// returns where that one begins.
fn rising(alloc: Global, area: &[u8], runs: &mut Vec<Run>) -> Result<usize, AllocError>
    requires empty { runs.old.items ≡ [] }
    requires size { length area.now ≤ greatest_size }
    ensures within { IfOk result (λ at. at ≤ length area.now) }
    ensures in_order { OnOk result (AreInOrder area.now runs.new.items) }
    ensures left { IfOk result (λ at. fold after_entry (env.from_sorted (listed area.now runs.new.items))
        (entries_of (drop at area.now)) ≡ vars_of (entries_of area.now)) }
{
    let Some(first) = next_extent(area, 0, 0, &[]) else {
        return Ok(0);
    };
    let mut run = run_of_one(alloc, Variable::Loaded(first))?;
    let mut last = first;
    'walk: loop {
        match extent_behind(area, last) {
            None => {
                runs.push(run)?;
                return Ok(last.end as usize + 1);
            }
            Some(extent) => {
                add(alloc, runs, &mut run, Variable::Loaded(extent))?;
                last = extent;
            }
        }
    }
}

/// The extent of the entry after another, if it has a value and its name comes after the other's.
#[inline(always)]
fn extent_behind(area: &[u8], last: Extent) -> Option<Extent>
    requires extent { IsExtent area.now last }
    requires ends { last.end < length area.now }
    requires size { length area.now ≤ greatest_size }
    requires plain { All (λ b. is_equals b ≡ false) (slice_range area.now last.start last.middle) }
    ensures { IfSome result (IsNextExtent area.now (last.end + 1) (slice_range area.now last.start last.middle)) }
{
    let from = last.start as usize;
    next_extent(
        area,
        last.end as usize + 1,
        from,
        &area[from..last.middle as usize],
    )
}

/// The variables after one more entry.
fn read_entry(
    alloc: Global,
    area: &[u8],
    runs: &mut Vec<Run>,
    start: usize,
    end: usize,
) -> Result<(), AllocError>
    requires in_order { AreInOrder area.now runs.old.items }
    requires piece { IsPiece area.now start end }
    requires size { length area.now ≤ greatest_size }
    ensures in_order { AreInOrder area.now runs.new.items }
    ensures ok { OnOk result (env.from_sorted (listed area.now runs.new.items)
        ≡ fold after_entry (env.from_sorted (listed area.now runs.old.items))
        (filter has_name (entry_of (slice_range area.now start end) ∷ []))) }
{
    let piece = &area[start..end];
    match memchr(EQUALS, piece) {
        None => forget(area, runs, piece),
        Some(0) => {}
        Some(length) if length + 1 == piece.len() => forget(area, runs, &piece[..length]),
        Some(length) => {
            let extent = Extent {
                start: start as u32,
                middle: (start + length) as u32,
                end: end as u32,
            };
            set(alloc, area, runs, Variable::Loaded(extent))?;
        }
    }
    Ok(())
}
