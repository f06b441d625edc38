//! Devices that hold copies, what a crash may leave of them, and copies that are read and written back.
//!
//! To read in this order: device; reading; writing; memory; laws.
#![tactic(auto)]

mod device;
pub mod laws;
mod memory;
mod reading;
mod writing;

pub use device::{Device, Fault};
pub use memory::{Cut, Memory};
pub use reading::read_copy;
pub use writing::{Change, find_as_read, write_back};
