//! By what rules a check reads scripts.
use hush_commands::{BoardRules, Shell, Stubs};

/// What stands in for the hardware of a run.
#[derive(Clone, Copy)]
pub struct Hardware<'k> {
    /// The rules of a board.
    pub board: &'k BoardRules,
    /// The stand-ins of names.
    pub stand_ins: &'k Stubs,
}

/// By whose rules scripts are read, and what is known beside the environment.
#[derive(Clone, Copy)]
pub struct Rules<'k> {
    /// Whose rules count where shells differ.
    pub shell: Shell,
    /// Which commands there are; `None` if their names aren't looked up.
    pub hardware: Option<Hardware<'k>>,
    /// The names of variables that the board's own code sets.
    pub known: &'k [Vec<u8>],
}
