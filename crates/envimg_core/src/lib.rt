//! The stored environment: geometry, checksum, state of a copy, choice between two copies, entries, written images.
//!
//! No call takes memory. docs/images.md states the format.
//!
//! To read in this order: geometry, checksum; area, pieces; state, choice; writer; laws.
#![tactic(auto)]

mod area;
mod checksum;
mod choice;
mod geometry;
pub mod laws;
mod pieces;
mod state;
mod writer;

pub use area::{END, EQUALS, entries};
pub use checksum::{Digest, crc32, crc32_bitwise};
pub use choice::{Choice, choose};
pub use geometry::{Geometry, Layout, Order, SIZE_MAX};
pub use pieces::{Entries, Entry};
pub use state::{CopyState, check_copy};
pub use writer::ImageWriter;
