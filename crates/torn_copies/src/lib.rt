//! What a save that is cut short leaves: laws over the definitions of devices and images.
#![tactic(auto)]

pub mod laws;
