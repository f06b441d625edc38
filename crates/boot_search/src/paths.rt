//! How a stored environment was reached.
ghost use Rattle.std.specs.Prelude.{◌≡◌, ◌<◌, length, slice_get, Some, IfOk};
ghost use Rattle.boot_search.specs.Reports.{Step, steps_of, AreReachedBy, LeadsTo};

use crate::exploring::Report;
use std::alloc::{AllocError, Global};

/// The ways from the first stored environment to the one at this place, in their order, by their places among the ways
/// (docs/boot.md). If memory runs out it answers `AllocError`.
pub fn path_to(alloc: Global, report: &Report, place: usize) -> Result<Vec<usize>, AllocError>
    requires within { place < length report.now.stored.items }
    requires reached { AreReachedBy report.now.stored.items report.now.ways.items }
    ensures { IfOk result (λ path. LeadsTo (steps_of report.now.ways.items) 0 path.items place) }
{
    let mut path = Vec::new(alloc);
    let mut at = place;
    while at > 0 {
        let (way, from) = step_back(report, at);
        path.insert(0, way)?;
        at = from;
    }
    Ok(path)
}

/// The way that a stored environment was reached by, and the place that it leads from.
fn step_back(report: &Report, at: usize) -> (usize, usize)
    requires behind { 0 < at }
    requires within { at < length report.now.stored.items }
    requires reached { AreReachedBy report.now.stored.items report.now.ways.items }
    ensures way { (w : Step) × (slice_get (steps_of report.now.ways.items) result.0 ≡ Some w)
        × (w.from ≡ result.1) × (w.to ≡ at) }
    ensures before { result.1 < at }
{
    match report.stored[at].reached_by {
        Some(way) => (way, report.ways[way].from),
        None => unreachable!(),
    }
}
