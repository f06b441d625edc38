//! What the program's arguments ask for. docs/tools.md and docs/dry-runs.md state the rules.
//!
//! To read in this order: program_name; table, copy_options, run_options, boot_options, check_options,
//! image_options, client_options, command_rows, command_line; arguments, given_text, call, wanted_copy, job,
//! task, shells, dry_runs, power_ons, formats, check_requests, image_size, image_request, standard_input,
//! report; word_fault, argument_texts.
#![tactic(auto)]

mod argument_texts;
mod arguments;
mod boot_options;
mod call;
mod check_options;
mod check_requests;
mod client_options;
mod command_line;
mod command_rows;
mod copy_options;
mod dry_runs;
mod formats;
mod given_text;
mod image_options;
mod image_request;
mod image_size;
mod job;
mod power_ons;
mod program_name;
mod report;
mod run_options;
mod shells;
mod standard_input;
mod table;
mod task;
mod wanted_copy;
mod word_fault;

pub use arguments::{called, chosen_order};
pub use call::{Call, Defaults, LockFiles};
pub use check_requests::{EnvironmentCheck, FileCheck};
pub use command_line::read_words;
pub use dry_runs::{DryRun, GivenScript, ScriptRun};
pub use given_text::{GivenText, TextForm};
pub use image_request::ImageRequest;
pub use job::Job;
pub use power_ons::PowerOns;
pub use program_name::{ProgramName, Subcommand};
pub use report::{Asked, Report, Subject, read_asked};
pub use standard_input::STANDARD_INPUT;
pub use task::{Printing, Task};
pub use wanted_copy::WantedCopy;
pub use word_fault::WordFault;
