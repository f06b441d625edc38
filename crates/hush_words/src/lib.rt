//! The words of a script: reads tokens from a script's bytes, and from a word its parts, each a range of those bytes.
//! The bytes are all that is kept. The rules are those of docs/scripts.md, "Words".
//!
//! To read in this order: parts, tokens, text, faults; reading, words, dollars, quotes, reads; walk; classes; forms; laws.
#![tactic(auto)]

mod classes;
mod dollars;
mod faults;
mod forms;
pub mod laws;
mod parts;
mod quotes;
mod reading;
mod reads;
mod text;
mod tokens;
mod walk;
mod words;

pub use faults::{Fault, FaultKind};
pub use forms::Assignment;
pub use parts::{Part, Span, Word};
pub use text::Text;
pub use tokens::{Token, TokenKind, TokenRead};
pub use walk::Parts;
