//! How far a run may go. docs/runs.md, "Limits", states the rules. A crate of its own, so that what reads the program's
//! arguments is proved next to the commands of a run, and not after them.
#![tactic(auto)]

mod limits;

pub use limits::{Limits, MOST_DEPTH, MOST_OUTPUT, MOST_STEPS, MOST_WORD};
