//! Open files as devices. What they hold is known as far as the answers of their calls agree with what they held at
//! first; the answers are recorded for clauses alone.
//!
//! To read in this order: open_device; open_files, device_file; record.
#![tactic(auto)]

mod device_file;
mod open_device;
mod open_files;
mod record;

pub use device_file::DeviceFile;
pub use open_device::{OpenDevice, Start, Unknown};
pub use open_files::LastCall;
