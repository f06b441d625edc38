//! The stored environments from which some power-ons end in a boot: backwards over the listed ways, until none is new.
ghost use Rattle.std.specs.Prelude.{◌≡◌, ◌<◌, ◌≤◌, true, false, length, All, IfOk};
ghost use Rattle.boot_search.specs.Reports.{step_of, steps_of, IsReport};
ghost use Rattle.boot_search.specs.Bootable.{is_wanted, unmarked, AreBootable, IsClosed, IsMarked, IsMarkedBy, IsSurvey, IsWithin};

use crate::board::{Board, End};
use crate::exploring::{Limits, Report, Way, explore};
use std::alloc::{AllocError, Global};

/// What a board can come to, and from where it can still boot (docs/boot.md). A stored environment from which it may not
/// boot is lost: no power-ons from there on start a system.
#[derive(Drop)]
pub struct Survey {
    /// What the board can come to.
    pub report: Report,
    /// For each stored environment whether some power-ons from there on end in a boot.
    pub boots: Vec<bool>,
    /// For each stored environment whether some power-ons from there on end in a boot, or so that it can't be told.
    pub may_boot: Vec<bool>,
}

/// Explores a board, and finds the stored environments that it can never boot from again (docs/boot.md). If memory runs out
/// it answers `AllocError`.
pub fn explore_boots<B: Board>(
    alloc: Global,
    board: &B,
    start: &[u8],
    limits: Limits,
) -> Result<Survey, AllocError>
    ensures report { IfOk result (λ survey. IsReport (B.runs board.now) start.now survey.report) }
    ensures boots { IfOk result (IsMarkedBy false (B.runs board.now)) }
    ensures may_boot { IfOk result (IsMarkedBy true (B.runs board.now)) }
    ensures few { IfOk result (λ survey. length survey.report.ways.items ≤ limits.ways) }
    ensures survey { IfOk result IsSurvey }
{
    let report = explore(alloc, board, start, limits)?;
    let ways = report.ways.as_slice();
    let count = report.stored.len();
    let boots = bootable(alloc, ways, count, false)?;
    let may_boot = bootable(alloc, ways, count, true)?;
    Ok(Survey {
        report,
        boots,
        may_boot,
    })
}

/// For each stored environment whether some of the ways lead from there to a boot.
fn bootable(
    alloc: Global,
    ways: &[Way],
    count: usize,
    unknown: bool,
) -> Result<Vec<bool>, AllocError>
    requires { All (IsWithin count) (steps_of ways.now) }
    ensures boots { IfOk result (λ marks. AreBootable unknown (steps_of ways.now) marks.items) }
    ensures all { IfOk result (λ marks. All (IsClosed unknown marks.items) (steps_of ways.now)) }
    ensures length { IfOk result (λ marks. length marks.items ≡ count) }
{
    let mut marks = vec![in alloc; false; count]?;
    while pass(ways, &mut marks, unknown) {}
    Ok(marks)
}

/// Marks what a way leads from to a boot or to a mark; whether one was new.
fn pass(ways: &[Way], marks: &mut [bool], unknown: bool) -> bool
    requires { All (IsWithin (length marks.old)) (steps_of ways.now) }
    ensures boots { AreBootable unknown (steps_of ways.now) marks.old →
        AreBootable unknown (steps_of ways.now) marks.new }
    ensures all { result ≡ false → All (IsClosed unknown marks.new) (steps_of ways.now) }
    ensures fewer { result ≡ true → unmarked marks.new < unmarked marks.old }
{
    let mut changed = false;
    for way in ways {
        changed |= mark(way, marks, unknown);
    }
    changed
}

/// Marks what the way leads from, if it leads to a boot or to a mark; whether it is new.
fn mark(way: &Way, marks: &mut [bool], unknown: bool) -> bool
    requires { IsWithin (length marks.old) (step_of way.now) }
    ensures { IsMarked unknown (step_of way.now) marks.old result marks.new }
{
    if marks[way.from] {
        return false;
    }
    if is_wanted(way.end, unknown) || marks[way.to] {
        marks[way.from] = true;
        return true;
    }
    false
}

/// Whether it is one of the ends that are looked for.
fn is_wanted(end: End, unknown: bool) -> bool
    ensures { result ≡ is_wanted unknown end }
{
    match end {
        End::Boots => true,
        End::Unknown => unknown,
        End::Resets | End::GivesUp => false,
    }
}
