//! Requests to a session, including runs of scripts, as values; and the headline: the replies to a list of them, and
//! that an undo which answers Ok brings back what was there.
//!
//! To read in this order: request, reply; run_rules, obedience, list; laws.
#![tactic(auto)]

pub mod laws;
mod list;
mod obedience;
mod reply;
mod request;
mod run_rules;

pub use list::obey_all;
pub use obedience::{obey, obey_in};
pub use reply::Reply;
pub use request::Request;
pub use run_rules::RunRules;
