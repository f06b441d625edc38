//! Every stored environment that a board can come to, and every way in which a power-on can end, over all answers that its
//! hardware may give. docs/boot.md states the rules.
//!
//! To read in this order: board, endings, exploring, bootable, paths; way_text, marks, verdicts, survey_lines; dot_words, dot_graph; laws.
#![tactic(auto)]

mod board;
mod bootable;
mod dot_graph;
mod dot_words;
mod endings;
mod exploring;
pub mod laws;
mod marks;
mod paths;
#[cfg(test)]
mod sample;
mod survey_lines;
#[cfg(test)]
mod tests;
mod verdicts;
mod way_text;

pub use board::{Answer, Board, End, Powered, Turn};
pub use bootable::{Survey, explore_boots};
pub use dot_graph::dot_text;
pub use endings::{Ending, Endings, endings_of};
pub use exploring::{Limits, Report, Stored, Way, explore};
pub use paths::path_to;
pub use survey_lines::{BootText, survey_text};
