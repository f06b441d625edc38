//! The two commands that compute, over the fields of a command: `test` and `setexpr`.
//! docs/test-and-setexpr.md states their rules.
//!
//! To read in this order: fields, numbers; expression, comparison; board; calculation, operator, hexadecimal; laws.
#![tactic(auto)]

mod board;
mod calculation;
mod comparison;
mod expression;
mod fields;
mod hexadecimal;
pub mod laws;
mod numbers;
mod operator;

pub use board::{Files, board_test};
pub use calculation::{Calculated, SetexprFault, setexpr};
pub use expression::test;
pub use fields::{Fields, is_text};
pub use hexadecimal::Hexadecimal;
