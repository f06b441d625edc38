//! Environments in a dump of a device: where one begins, and what is printed of it. docs/tools.md states the rules.
//!
//! To read in this order: entry_front, copy_sizes, area_sum, copy_search, dump; dump_lines.
#![tactic(auto)]

mod area_sum;
mod copy_search;
mod copy_sizes;
mod dump;
mod dump_lines;
mod entry_front;

pub use dump::{Found, environments_in};
pub use dump_lines::{DumpText, dump_text};
