//! Dry runs over streams: blocks of script and dot lines are read, and what they do is written; or one script is run for its
//! own status.
//! docs/dry-runs.md states the rules.
//!
//! To read in this order: session_end, talk, input; dot_lines, blocks; replies; mark_names; answers; script_run.
#![tactic(auto)]

mod answers;
mod blocks;
mod dot_lines;
mod input;
mod mark_names;
mod replies;
mod script_run;
mod session_end;
mod talk;

pub use script_run::{RunEnd, run};
pub use session_end::{SessionEnd, SessionEnding};
pub use talk::{session, session_in};
