//! One simple command of a dry run: its words are expanded to fields, and it is carried out by them. Also the stand-ins
//! for commands that need hardware, and the messages of commands that fail. docs/runs.md states the rules.
//!
//! To read in this order: shell; builtins, departure, stand_in_line, stand_ins, pattern, board_rules, command_names; locals, expansion, field_buffer, field_queue;
//! command, saves, follow, execution; writes, listing; messages, output.
#![tactic(auto)]

mod board_rules;
mod builtins;
mod command;
mod command_names;
mod departure;
mod execution;
mod expansion;
mod field_buffer;
mod field_queue;
mod follow;
mod listing;
mod locals;
mod messages;
mod output;
mod pattern;
mod saves;
mod shell;
mod stand_in_line;
mod stand_ins;
mod writes;

pub use board_rules::{BoardRules, Reply, Rule};
pub use builtins::is_builtin;
pub use command_names::{command_name, has_answer, names_command, stands_for};
pub use departure::{Departure, Leaving};
pub use execution::carry_out;
pub use expansion::{ExpansionFault, Scope};
pub use field_buffer::FieldBuffer;
pub use field_queue::FieldQueue;
pub use follow::Follow;
pub use locals::Locals;
pub use messages::Message;
pub use output::{Output, PrintFault};
pub use pattern::{Bytes, Pattern, PatternWord};
pub use saves::is_save;
pub use shell::{Shell, kept_status};
pub use stand_in_line::StubFault;
pub use stand_ins::Stubs;
pub use writes::delete;
