//! Marks that aren't set, and ways that end so: what a survey counts.
ghost use Rattle.std.specs.Prelude.{◌≡◌};
ghost use Rattle.boot_search.specs.Bootable.{unmarked};
ghost use Rattle.boot_search.specs.Reports.{steps_of};
ghost use Rattle.boot_search.specs.SurveyText.{first_unmarked, is_end, ways_that};

use crate::board::End;
use crate::exploring::Way;

/// How many marks aren't set.
pub(crate) fn unmarked(marks: &[bool]) -> usize
    ensures { result ≡ unmarked marks.now }
{
    let mut count = 0usize;
    for mark in marks {
        if !*mark {
            count += 1;
        }
    }
    count
}

/// The place of the first mark that isn't set; how many there are if each is.
pub(crate) fn first_unmarked(marks: &[bool]) -> usize
    ensures { result ≡ first_unmarked marks.now }
{
    let mut place = 0usize;
    while place < marks.len() && marks[place] {
        place += 1;
    }
    place
}

/// How many ways end so.
pub(crate) fn ways_that(end: End, ways: &[Way]) -> usize
    ensures { result ≡ ways_that end (steps_of ways.now) }
{
    let mut count = 0usize;
    for way in ways {
        if is_end(end, way.end) {
            count += 1;
        }
    }
    count
}

/// Whether two ends are the same.
fn is_end(end: End, other: End) -> bool
    ensures { result ≡ is_end end other }
{
    match (end, other) {
        (End::Boots, End::Boots) => true,
        (End::Resets, End::Resets) => true,
        (End::GivesUp, End::GivesUp) => true,
        (End::Unknown, End::Unknown) => true,
        (_, _) => false,
    }
}
