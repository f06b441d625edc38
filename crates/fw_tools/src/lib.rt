//! The program: the tools and dry runs over the files that its arguments name. docs/tools.md and docs/dry-runs.md state
//! the rules; fw_arguments reads the arguments, fw_files reads and writes the files.
//!
//! To read in this order: entry_point, greeting; halt, explains, fault_names, fault_lines, halt_lines, tool_messages; subcommands,
//! task_work, printing, closing, hardware, session_run, script_source, script_work, check_rules, check_work, status_work,
//! new_image, image_work, find_work, after_scripts, progress, boot_work.
#![tactic(auto)]

mod after_scripts;
mod boot_work;
mod check_rules;
mod check_work;
mod closing;
mod entry_point;
mod explains;
mod fault_lines;
mod fault_names;
mod find_work;
mod greeting;
mod halt;
mod halt_lines;
mod hardware;
mod image_work;
mod new_image;
mod printing;
mod progress;
mod script_source;
mod script_work;
mod session_run;
mod status_work;
mod subcommands;
mod task_work;
mod tool_messages;

pub use device_files::{OpenDevice, Start, Unknown};
pub use entry_point::{program, words_failed};
pub use fw_check::{FileScript, check, check_files};
pub use fw_engines::{
    FoundCopy, StreamFault, Survey, ToolEnd, defaults, export, file_status, import, import_named,
    print_values, printenv, restore, set_script, setenv, show, status,
};
pub use fw_files::{Attempt, Hold, System};
pub use fw_session::{RunEnd, SessionEnd, SessionEnding, run, session, session_in};
pub use greeting::{greet, talks};
