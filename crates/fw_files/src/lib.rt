//! The files that the program's arguments name: configurations, copies in their devices, texts and stand-ins. The session
//! over copies is opened here, and copies are written back. Why a file can't be used is a value, which fw_tools reports;
//! nothing is printed here but that a lock is waited for. docs/tools.md states the rules.
//!
//! To read in this order: system, reasons, foreign_texts, file_fault, stop, files, known_names, new_file; waiting,
//! device_access, lock_file, copies, source, wanted_source, bare_lines, rewritten_text, default_text, misread_copies,
//! opening, opened_devices, changed_copies, surveyed_copies.
#![tactic(auto)]

mod bare_lines;
mod changed_copies;
mod copies;
mod default_text;
mod device_access;
mod file_fault;
mod files;
mod foreign_texts;
mod known_names;
mod lock_file;
mod misread_copies;
mod new_file;
mod opened_devices;
mod opening;
mod reasons;
mod rewritten_text;
mod source;
mod stop;
mod surveyed_copies;
mod system;
mod waiting;
mod wanted_source;

pub use changed_copies::{device_of, warning_of_write, write_back};
pub use copies::ReadCopy;
pub use default_text::{DefaultText, read_variables};
pub use file_fault::FileFault;
pub use files::{
    read_board, read_dump, read_entries, read_file, read_set_script, read_stand_in_file,
    read_stand_ins, read_text,
};
pub use foreign_texts::Foreign;
pub use known_names::read_known;
pub use lock_file::{LockedFiles, Locks, lock_copies};
pub use new_file::write_file;
pub use opened_devices::CopyFault;
pub use opening::{Opened, open, warning_of};
pub use reasons::Reason;
pub use source::{Source, erased, read_config, read_source};
pub use stop::Stop;
pub use surveyed_copies::{SurveyedCopies, read_locked, read_surveyed};
pub use system::{Attempt, Hold, System};
pub use wanted_source::wanted_copies;
