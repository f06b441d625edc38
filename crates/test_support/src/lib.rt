//! What tests share: a session that is just started.
#![tactic(auto)]

mod sessions;

pub use sessions::erased_session;
