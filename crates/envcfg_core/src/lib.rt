//! The text forms around a stored environment: `fw_env.config`, text for
//! import and export, and set scripts. docs/texts.md states each form.
//!
//! To read in this order: offsets, accept, place, config; entry, spelled, import, export; set_script; laws.
#![tactic(auto)]

mod accept;
mod config;
mod entry;
mod export;
mod import;
pub mod laws;
mod offsets;
mod place;
mod set_script;
mod spelled;

pub use config::{Config, ConfigFault, parse_config};
pub use entry::{TextEntry, TextFault};
pub use export::{ExportFault, export_entry};
pub use import::parse_import;
pub use place::Place;
pub use set_script::parse_set_script;
