//! Which command a word names (docs/runs.md, "Boards").
ghost use Rattle.std.specs.Prelude.{◌≡◌, None, Some, IfOk, false, map, option_map};
ghost use Rattle.hush_commands.specs.Builtins.{builtin_of, builtins, name_of};
ghost use Rattle.hush_commands.specs.CommandNames.{begins_with, found_in, found_names, has_answer, is_command, is_front, is_known, is_left, name_by, names_command, stands_for, whole_name, with_names, without_width};
ghost use Rattle.hush_commands.specs.Hardware.{hardware};

use crate::board_rules::BoardRules;
use crate::builtins::Builtin;
use crate::shell::Shell;
use crate::stand_ins::Stubs;
use hush_calc::is_text;
use memchr::memchr;
use std::alloc::{AllocError, Global};
use std::marker::Model;

/// What was found of the names that begin with a word: the first, and whether there are others.
#[derive(Drop)]
pub(crate) struct Found<'a> {
    first: Option<&'a [u8]>,
    several: bool,
}

impl<'a> Model for Found<'a> {
    ghost use Rattle.std.specs.Prelude.{option_map};
    ghost use Rattle.hush_commands.specs.CommandNames.{FoundNames, found_names};

    ghost Value = { FoundNames };

    ghost view = { λ a. found_names (option_map (λ name. name.now) a.first) a.several };
}

impl<'a> Found<'a> {
    ghost use Rattle.std.specs.Prelude.{false, option_map, None};
    ghost use Rattle.hush_commands.specs.CommandNames.{another, found_names, only_name, with_name};

    /// Nothing yet.
    fn none() -> Found<'a>
        ensures { result ≡ found_names None false }
    {
        Found {
            first: None,
            several: false,
        }
    }

    /// With a name, if that begins with the word.
    #[tactic(auto, unfolding(crate::specs::CommandNames::with_name))]
    pub(crate) fn with(self, word: &[u8], name: &'a [u8]) -> Found<'a>
        ensures { result ≡ with_name word.now self.entry name.now }
    {
        if begins_with(word, name) {
            self.and(name)
        } else {
            self
        }
    }

    /// With a name that begins with the word.
    fn and(self, name: &'a [u8]) -> Found<'a>
        ensures { result ≡ another self.entry.first self.entry.several name.now }
    {
        match self.first {
            None => Found {
                first: Some(name),
                several: self.several,
            },
            Some(first) => Found {
                first: Some(first),
                several: self.several || !is_text(name, first),
            },
        }
    }

    /// The only name that was found.
    fn only(self) -> Option<&'a [u8]>
        ensures { option_map (λ name. name.now) result ≡ only_name self.entry }
    {
        if self.several { None } else { self.first }
    }
}

/// Whether a name begins with a word.
fn begins_with(word: &[u8], name: &[u8]) -> bool
    ensures { result ≡ begins_with word.now name.now }
{
    let (front, _back) = name.split_at(word.len().min(name.len()));
    is_text(front, word)
}

/// A word up to its first `.`.
fn without_width(word: &[u8]) -> &[u8]
    ensures { result.now ≡ without_width word.now }
{
    match memchr(b'.', word) {
        Some(at) => &word[..at],
        None => word,
    }
}

/// The name that the first word of a command stands for.
pub(crate) fn name_by<'a>(
    shell: Shell,
    stand_ins: &'a Stubs,
    board: &'a BoardRules,
    word: &'a [u8],
) -> &'a [u8]
    ensures { result.now ≡ name_by shell (hardware board.now stand_ins.now) word.now }
{
    match shell {
        Shell::Strict => word,
        Shell::Board => whole_name(stand_ins, board, word),
    }
}

/// Whether a word names a command that is there, beside this hardware: a builtin that the board doesn't lack, or what a rule
/// or a stand-in answers.
pub fn names_command(shell: Shell, stand_ins: &Stubs, board: &BoardRules, word: &[u8]) -> bool
    ensures { result ≡ names_command shell (hardware board.now stand_ins.now) word.now }
{
    is_command(stand_ins, board, name_by(shell, stand_ins, board, word))
}

/// Whether a command of this name is there.
fn is_command(stand_ins: &Stubs, board: &BoardRules, name: &[u8]) -> bool
    ensures { result ≡ is_command (hardware board.now stand_ins.now) name.now }
{
    has_answer(stand_ins, board, name) || has_builtin(board, name)
}

/// Whether there is a builtin of this name that the board doesn't lack.
fn has_builtin(board: &BoardRules, name: &[u8]) -> bool
    ensures { result ≡ is_left board.now (builtin_of name.now) }
{
    match Builtin::of(name) {
        Some(builtin) => !board.lacks(builtin.name()),
        None => false,
    }
}

/// Whether a rule or a stand-in may answer a call of this name.
pub fn has_answer(stand_ins: &Stubs, board: &BoardRules, name: &[u8]) -> bool
    ensures { result ≡ has_answer (hardware board.now stand_ins.now) name.now }
{
    board.answers(name) || (!board.lacks(name) && stand_ins.status(name).is_some())
}

/// The name that the first word of a command stands for beside this hardware, in memory of its own.
pub fn command_name(
    alloc: Global,
    shell: Shell,
    stand_ins: &Stubs,
    board: &BoardRules,
    word: &[u8],
) -> Result<Vec<u8>, AllocError>
    ensures { IfOk result (λ name. name.items ≡ name_by shell (hardware board.now stand_ins.now) word.now) }
{
    Vec::from_slice(alloc, name_by(shell, stand_ins, board, word))
}

/// The name that a word stands for on a board.
fn whole_name<'a>(stand_ins: &'a Stubs, board: &'a BoardRules, word: &'a [u8]) -> &'a [u8]
    ensures { result.now ≡ whole_name (hardware board.now stand_ins.now) word.now }
{
    if is_known(stand_ins, board, word) {
        return word;
    }
    let front = without_width(word);
    if is_known(stand_ins, board, front) {
        return front;
    }
    match found_in(stand_ins, board, front).only() {
        Some(name) => name,
        None => word,
    }
}

/// Whether a command has this name.
fn is_known(stand_ins: &Stubs, board: &BoardRules, name: &[u8]) -> bool
    ensures { result ≡ is_known (hardware board.now stand_ins.now) name.now }
{
    Builtin::of(name).is_some() || board.has_name(name) || stand_ins.status(name).is_some()
}

/// The names that begin with a word: of builtins, rules and stand-ins.
fn found_in<'a>(stand_ins: &'a Stubs, board: &'a BoardRules, word: &[u8]) -> Found<'a>
    ensures { result ≡ found_in (hardware board.now stand_ins.now) word.now }
{
    let builtins = found_builtins(word);
    let rules = board.with_names(word, builtins);
    stand_ins.with_names(word, rules)
}

/// The names of builtins that begin with a word.
fn found_builtins<'a>(word: &[u8]) -> Found<'a>
    ensures { result ≡ with_names word.now (found_names None false) (map name_of builtins) }
{
    let mut found = Found::none();
    let mut builtins: &[Builtin] = &Builtin::ALL;
    while let Some((builtin, others)) = builtins.split_first() {
        found = found.with(word, builtin.name());
        builtins = others;
    }
    found
}

/// Whether a word after `env` stands for a name of which a board needs so many bytes.
pub fn stands_for(shell: Shell, least: usize, name: &[u8], word: &[u8]) -> bool
    ensures { result ≡ stands_for shell least name.now word.now }
{
    match shell {
        Shell::Strict => is_text(word, name),
        Shell::Board => is_front(least, name, without_width(word)),
    }
}

/// Whether a word is the front of a name, of so many bytes at least.
fn is_front(least: usize, name: &[u8], word: &[u8]) -> bool
    ensures { result ≡ is_front least name.now word.now }
{
    word.len() >= least && begins_with(word, name)
}
