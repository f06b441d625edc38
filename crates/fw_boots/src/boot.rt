//! All power-ons of a board, and the text that tells what they lead to.
ghost use Rattle.std.specs.Prelude.{false, true, IfOk};
ghost use Rattle.fw_boots.specs.Boots.{power_of, BootsAs};

use crate::boot_board::Boot;
use crate::watched_boot::{Watch, WatchedBoot};
use boot_search::{BootText, Limits, dot_text, explore_boots, survey_text};
use std::alloc::{AllocError, Global};

/// What all power-ons of a board can lead to, as docs/boot.md has the text, and the exit status. `watch` is told how far that
/// has come.
///
/// `AllocError` if memory runs out.
pub fn boot_text<W: Watch>(
    alloc: Global,
    boot: &Boot<'_>,
    limits: Limits,
    watch: &W,
) -> Result<BootText, AllocError>
    ensures { IfOk result (BootsAs false (power_of boot.now) limits.ways) }
{
    let first = boot.session(alloc, boot.first)?;
    let board = WatchedBoot {
        boot,
        first: first.vars(),
        watch,
    };
    let survey = explore_boots(alloc, &board, boot.first, limits)?;
    survey_text(alloc, &board, &survey)
}

/// The same as a graph, as Graphviz reads it.
///
/// `AllocError` if memory runs out.
pub fn boot_graph<W: Watch>(
    alloc: Global,
    boot: &Boot<'_>,
    limits: Limits,
    watch: &W,
) -> Result<BootText, AllocError>
    ensures { IfOk result (BootsAs true (power_of boot.now) limits.ways) }
{
    let first = boot.session(alloc, boot.first)?;
    let board = WatchedBoot {
        boot,
        first: first.vars(),
        watch,
    };
    let survey = explore_boots(alloc, &board, boot.first, limits)?;
    dot_text(alloc, &board, &survey)
}
