//! A check of boot scripts that runs nothing: what is wrong with scripts, or with those of an environment from some
//! names on, as lines. docs/check.md states the rules.
//!
//! To read in this order: settings, coming_words, items, literals, name_set, substitutions, commands, rules, lookups, constants; excerpts, lines, json_lines, entry_places,
//! origins, findings, summary; fault_sentences; operators, foreign, calculations, operands, word_pairs, misuse, undefined_names, differences, empty_values, quoting, reread, statuses, command_names, run_targets, statements, script_check; followed, sorted_names, menu,
//! script_values, following, run_names, foreseen, written, gives, text_names; starts, reading, asking, typed_values, visits; file_checks.
#![tactic(auto)]

mod asking;
mod calculations;
mod coming_words;
mod command_names;
mod commands;
mod constants;
mod differences;
mod empty_values;
mod entry_places;
mod excerpts;
mod fault_sentences;
mod file_checks;
mod findings;
mod followed;
mod following;
mod foreign;
mod foreseen;
mod gives;
mod items;
mod json_lines;
mod lines;
mod literals;
mod lookups;
mod menu;
mod misuse;
mod name_set;
mod operands;
mod operators;
mod origins;
mod quoting;
mod reading;
mod reread;
mod rules;
mod run_names;
mod run_targets;
mod script_check;
mod script_values;
mod settings;
mod sorted_names;
mod starts;
mod statements;
mod statuses;
mod substitutions;
mod summary;
mod text_names;
mod typed_values;
mod undefined_names;
mod visits;
mod word_pairs;
mod written;

pub use entry_places::EnvironmentText;
pub use file_checks::{FileScript, check_files};
pub use rules::{Hardware, Rules};
pub use visits::check;
