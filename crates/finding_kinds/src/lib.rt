//! The kinds of what a check of scripts finds, their codes, and which of them count. docs/check.md has the table. A crate of its own, so that
//! what reads the program's arguments is proved next to the check, and not after it.
#![tactic(auto)]

mod choice;
mod kinds;

pub use choice::{Choice, Format};
pub use kinds::{FindingKind, Severity, is_code};
