//! Dry runs of boot scripts: a script run over a session under limits, with hardware answered by stand-ins.
//! docs/runs.md states the rules.
//!
//! To read in this order: ending, outcome; trace, progress, frames, started_name, due; descent, turns; node_step, values, name_words, asked_saves, steps, starts; laws.
#![tactic(auto)]

mod asked_saves;
mod descent;
mod due;
mod ending;
pub mod frames;
pub mod laws;
mod name_words;
mod node_step;
mod outcome;
mod progress;
mod started_name;
mod starts;
mod steps;
mod trace;
mod turns;
mod values;

pub use ending::Ending;
pub use hush_commands::{Departure, Leaving, Shell, StubFault, Stubs};
pub use outcome::{Course, Outcome, run, run_in, run_traced, run_with_place};
pub use run_limits::{Limits, MOST_DEPTH, MOST_OUTPUT, MOST_STEPS, MOST_WORD};
pub use started_name::StartedName;
pub use starts::bodies_of;
pub use trace::Trace;
