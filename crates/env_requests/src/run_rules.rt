//! What the runs of a session follow.

use hush_commands::BoardRules;
use hush_run::{Limits, Shell, Stubs};

/// What the runs of a session follow (docs/runs.md).
#[derive(Clone, Copy)]
pub struct RunRules<'r> {
    /// Whose rules count where shells differ.
    pub shell: Shell,
    /// What stands in for the commands of hardware.
    pub stand_ins: &'r Stubs,
    /// What a board answers calls with, before a stand-in is looked for.
    pub board: &'r BoardRules,
    /// How far each run may go.
    pub limits: &'r Limits,
}
