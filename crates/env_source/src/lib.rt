//! Environments in U-Boot's own text form, as `board.env` after the C preprocessor. docs/texts.md, "A source of U-Boot",
//! states the rules.
//!
//! To read in this order: source_fault; source_line, reading, source.
#![tactic(auto)]

mod reading;
mod source;
mod source_fault;
mod source_line;

pub use source::parse_source;
pub use source_fault::{Flaw, SourceFault};
