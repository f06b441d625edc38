//! Power-ons of a board, and all that they can lead to: what a dry run of a board's boot script leaves is what the next one
//! begins with. docs/boot.md states the rules; boot_search searches.
//!
//! To read in this order: power_on_text, boot_count, question, cuts, power_on, boot_board, after_boot, powered_board, watched_boot,
//! changes, boot.
#![tactic(auto)]

mod after_boot;
mod boot;
mod boot_board;
mod boot_count;
mod changes;
mod cuts;
mod power_on;
mod power_on_text;
mod powered_board;
mod question;
mod watched_boot;

pub use boot::{boot_graph, boot_text};
pub use boot_board::Boot;
pub use boot_search::{BootText, Limits};
pub use cuts::Cuts;
pub use power_on_text::power_on_script;
pub use powered_board::PoweredBoard;
pub use watched_boot::Watch;
