//! What several text forms share: where a text is cut, its lines, numbers by their digits, and words joined to a text.
//!
//! To read in this order: cuts, lines; digits, numerals.
#![tactic(auto)]

mod cuts;
mod digits;
mod lines;
mod numerals;

pub use cuts::{begins_with_byte, contains_byte, joined, strip_carriage_return, without_blanks};
pub use digits::{Base, digit_value, digits_in_front, number, wrapped_number};
pub use lines::{Lines, numbered_lines};
pub use numerals::{base_of, behind_0x, numeral};
