//! Board files: what a board answers to the commands that only hardware has. docs/runs.md, "Board files", states the rules.
//!
//! To read in this order: board_fault; line_parts, patterns, answer_texts, covering; board_lines, board_files; laws.
#![tactic(auto)]

mod answer_texts;
mod board_fault;
mod board_files;
mod board_lines;
mod covering;
pub mod laws;
mod line_parts;
mod patterns;

pub use board_fault::{BoardFault, LineFault};
pub use board_files::parse_board;
