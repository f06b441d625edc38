//! All environments that a board can come to store, in breadth, and all ways between them.
ghost use Rattle.std.specs.Prelude.{◌≡◌, ◌<◌, ◌≤◌, ◌+◌, [], ◌∷◌, ◌++◌, Some, length, slice_get, IfOk, OnOk, IsTrue, Contains};
ghost use Rattle.boot_search.specs.Endings.{ending_view};
ghost use Rattle.boot_search.specs.Places.{AreAt};
ghost use Rattle.boot_search.specs.Reports.{reached_of, steps_of, texts_of};
ghost use Rattle.boot_search.specs.Reports.{AreListed, BytesPlaced, Covers, HaveGrown, WayAdded};
ghost use Rattle.boot_search.specs.Reports.{IsReport, ListsAll, ListsOnly};

use crate::board::{Answer, Board, End};
use crate::endings::{Ending, copied_answers, endings_of};
use std::alloc::{AllocError, Global};
use std::collections::BTreeMap;

/// The place of each stored environment that is listed.
type Places = BTreeMap<Vec<u8>, usize>;

/// How far a search goes (docs/boot.md).
#[derive(Clone, Copy, Debug, PartialEq, Eq)]
pub struct Limits {
    /// The most stored environments that power-ons are taken from.
    pub stored: usize,
    /// The most ways that are listed. One stored environment takes no more power-ons than are left of it.
    pub ways: usize,
}

/// An environment that can be stored (docs/boot.md).
#[derive(Drop)]
pub struct Stored {
    /// The environment.
    pub bytes: Vec<u8>,
    /// The first way that was found to it, by its place among the ways. The first stored environment has none.
    pub reached_by: Option<usize>,
}

/// A power-on that leads from one stored environment to another, or to the same (docs/boot.md).
#[derive(Drop)]
pub struct Way {
    /// What it begins with, by its place among the stored environments.
    pub from: usize,
    /// The answers that it asks for, in the order in which they are given.
    pub answers: Vec<Answer>,
    /// How it ends.
    pub end: End,
    /// What ends it, as in `Turn::Ends`.
    pub by: Vec<u8>,
    /// What is stored at its end, by its place among the stored environments.
    pub to: usize,
}

/// What a board can come to (docs/boot.md).
#[derive(Drop)]
pub struct Report {
    /// The environments that can be stored, the one that the search began with first.
    pub stored: Vec<Stored>,
    /// The ways between them.
    pub ways: Vec<Way>,
    /// Whether there are no others.
    pub complete: bool,
}

/// Every environment that can be stored after any number of power-ons from `start` on, and every way in which a power-on
/// over one of them can end; where a limit is met, some of them (docs/boot.md). If memory runs out it answers `AllocError`.
pub fn explore<B: Board>(
    alloc: Global,
    board: &B,
    start: &[u8],
    limits: Limits,
) -> Result<Report, AllocError>
    ensures report { IfOk result (IsReport (B.runs board.now) start.now) }
    ensures all { IfOk result (λ report. IsTrue report.complete →
        ListsAll (B.runs board.now) start.now report) }
    ensures only { IfOk result (ListsOnly (B.runs board.now) start.now) }
    ensures few { IfOk result (λ report. length report.ways.items ≤ limits.ways) }
{
    let mut stored = Vec::new(alloc);
    let mut places = BTreeMap::new(alloc);
    add_stored(alloc, &mut stored, &mut places, start, None)?;
    let mut ways = Vec::new(alloc);
    let mut complete = true;
    for from in 0..limits.stored {
        if from >= stored.len() {
            return Ok(Report {
                stored,
                ways,
                complete,
            });
        }
        let left = limits.ways.saturating_sub(ways.len());
        let all = explore_stored(
            alloc,
            board,
            &mut stored,
            &mut places,
            &mut ways,
            from,
            left,
        )?;
        complete &= all;
    }
    let complete = complete & (stored.len() <= limits.stored);
    Ok(Report {
        stored,
        ways,
        complete,
    })
}

/// Adds the ways from one stored environment and what they lead to; whether there are no others.
fn explore_stored<B: Board>(
    alloc: Global,
    board: &B,
    stored: &mut Vec<Stored>,
    places: &mut Places,
    ways: &mut Vec<Way>,
    from: usize,
    power_ons: usize,
) -> Result<bool, AllocError>
    requires within { from < length stored.old.items }
    requires places { AreAt (texts_of stored.old.items) places.old }
    requires listed { AreListed (B.runs board.now) stored.old.items ways.old.items }
    ensures places { OnOk result (AreAt (texts_of stored.new.items) places.new) }
    ensures listed { OnOk result (AreListed (B.runs board.now) stored.new.items ways.new.items) }
    ensures grows { OnOk result (HaveGrown stored.old.items ways.old.items stored.new.items ways.new.items) }
    ensures covers { IfOk result (λ all. IsTrue all →
        Covers (B.runs board.now) (texts_of stored.new.items) (steps_of ways.new.items) from) }
    ensures few { OnOk result (length ways.new.items ≤ length ways.old.items + power_ons) }
{
    let mut powered = board.with(alloc, bytes_at(stored, from))?;
    let endings = endings_of(alloc, &mut powered, power_ons)?;
    for ending in &endings.found {
        add_way(alloc, stored, places, ways, from, ending)?;
    }
    Ok(endings.complete)
}

/// The stored environment at a place.
fn bytes_at(stored: &[Stored], at: usize) -> &[u8]
    requires { at < length stored.now }
    ensures { slice_get (texts_of stored.now) at ≡ Some result.now }
{
    stored[at].bytes.as_slice()
}

/// Adds the way that ended so, and what it left stored if that is new.
fn add_way(
    alloc: Global,
    stored: &mut Vec<Stored>,
    places: &mut Places,
    ways: &mut Vec<Way>,
    from: usize,
    ending: &Ending,
) -> Result<(), AllocError>
    requires { AreAt (texts_of stored.old.items) places.old }
    ensures places { OnOk result (AreAt (texts_of stored.new.items) places.new) }
    ensures added { OnOk result (WayAdded stored.old.items ways.old.items from (ending_view ending.now)
        stored.new.items ways.new.items) }
    ensures one { OnOk result (length ways.new.items ≡ length ways.old.items + 1) }
{
    let to = place(alloc, stored, places, ending.next.as_slice(), ways.len())?;
    ways.push(Way {
        from,
        answers: copied_answers(alloc, &ending.answers)?,
        end: ending.end,
        by: ending.by.to_vec(alloc)?,
        to,
    })?;
    Ok(())
}

/// The place of this stored environment, which a way leads to; if it is new it goes behind the others.
fn place(
    alloc: Global,
    stored: &mut Vec<Stored>,
    places: &mut Places,
    bytes: &[u8],
    way: usize,
) -> Result<usize, AllocError>
    requires { AreAt (texts_of stored.old.items) places.old }
    ensures places { OnOk result (AreAt (texts_of stored.new.items) places.new) }
    ensures placed { IfOk result (λ to. BytesPlaced stored.old.items way bytes.now to stored.new.items) }
{
    let key = bytes.to_vec(alloc)?;
    match places.get(&key) {
        Some(to) => Ok(*to),
        None => add_stored(alloc, stored, places, bytes, Some(way)),
    }
}

/// Adds a stored environment that isn't listed behind the others; its place.
fn add_stored(
    alloc: Global,
    stored: &mut Vec<Stored>,
    places: &mut Places,
    bytes: &[u8],
    reached_by: Option<usize>,
) -> Result<usize, AllocError>
    requires new { Contains (texts_of stored.old.items) bytes.now → ⊥ }
    requires places { AreAt (texts_of stored.old.items) places.old }
    ensures place { IfOk result (λ to. to ≡ length (texts_of stored.old.items)) }
    ensures texts { OnOk result (texts_of stored.new.items ≡ texts_of stored.old.items ++ bytes.now ∷ []) }
    ensures reached { OnOk result (reached_of stored.new.items ≡ reached_of stored.old.items ++ reached_by ∷ []) }
    ensures places { OnOk result (AreAt (texts_of stored.new.items) places.new) }
{
    let to = stored.len();
    stored.push(Stored {
        bytes: bytes.to_vec(alloc)?,
        reached_by,
    })?;
    match places.insert(bytes.to_vec(alloc)?, to) {
        Ok(_none) => Ok(to),
        Err(_) => Err(AllocError),
    }
}
