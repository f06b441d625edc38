//! The tools over readers, writers and sessions: what `printenv`, `setenv`, a set script, `import`, `restore` and
//! `export` do to a session and print, what the program shows of an image, where and why a text isn't a script, what is
//! reported of stored copies, why nothing is written over some and which hold other data, and the default environment of a text. docs/tools.md states the rules.
//!
//! To read in this order: tool_end, streams, tool_texts; single_image; variable_lines, text_form; changes, restoration,
//! default_environment; text_places, script_fault; copy_status, with copy_words, ways, variable_count and skipped_lines; whole_file, misreading, misplaced.
#![tactic(auto)]

mod changes;
mod copy_status;
mod copy_words;
mod default_environment;
mod misplaced;
mod misreading;
mod restoration;
mod script_fault;
mod single_image;
mod skipped_lines;
pub mod streams;
mod text_form;
mod text_places;
mod tool_end;
mod tool_texts;
mod variable_count;
mod variable_lines;
mod ways;
mod whole_file;

pub use changes::{import, import_named, set_script, setenv};
pub use copy_status::{FoundCopy, Survey, status};
pub use default_environment::defaults;
pub use misplaced::{is_good, is_other_data};
pub use misreading::misread;
pub use restoration::restore;
pub use script_fault::{fault_name, fault_sentence, say_syntax_fault};
pub use single_image::show;
pub use text_form::export;
pub use text_places::{Place, Pointer, place_of};
pub use tool_end::{StreamFault, ToolEnd};
pub use tool_texts::OUT_OF_MEMORY;
pub use variable_lines::{print_values, printenv};
pub use whole_file::file_status;
