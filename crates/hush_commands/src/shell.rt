//! Whose rules a run follows, and where the shells differ in a simple command.
ghost use Rattle.std.specs.Prelude.{◌≡◌, Some, min};
ghost use Rattle.hush_calc.specs.Numbers.{front_number};
ghost use Rattle.hush_commands.specs.Shells.{kept_status, exit_status, exit_word, test_by};
ghost use Rattle.hush_commands.specs.Statuses.{status_in_front};
ghost use Rattle.hush_commands.specs.Following.{asked_file};
ghost use Rattle.hush_commands.specs.Hardware.{file_answer, hardware, is_open, is_success, open_file};

use crate::board_rules::{BoardRules, Reply};
use crate::departure::is_asking;
use crate::pattern::{count, front};
use crate::stand_in_line::read_status;
use crate::stand_ins::Stubs;
use hush_calc::{Fields, Files, board_test, is_text, test};
use text_parts::{Base, behind_0x, digits_in_front, number};

/// The shell whose rules a run follows where the two differ (docs/runs.md, "Boards").
#[derive(Clone, Copy, Debug, PartialEq, Eq)]
pub enum Shell {
    /// The strict profile.
    Strict,
    /// What boards do: U-Boot's shell with its old parser.
    Board,
}

/// The status that is left where nothing is run.
pub fn kept_status(shell: Shell, status: u8) -> u8
    ensures { result ≡ kept_status shell status }
{
    match shell {
        Shell::Strict => 0,
        Shell::Board => status,
    }
}

/// The status of an `exit` without one.
pub(crate) fn exit_status(shell: Shell, status: u8) -> u8
    ensures { result ≡ exit_status shell status }
{
    match shell {
        Shell::Strict => status,
        Shell::Board => 0,
    }
}

/// The status of an `exit` with this word, if it may have it.
pub(crate) fn exit_word(shell: Shell, word: &[u8]) -> Option<u8>
    ensures { result ≡ exit_word shell word.now }
{
    match shell {
        Shell::Strict => read_status(word),
        Shell::Board => Some(status_in_front(word)),
    }
}

/// The status of the digits that a text begins with.
fn status_in_front(text: &[u8]) -> u8
    ensures { result ≡ status_in_front text.now }
{
    match behind_0x(text) {
        Some(rest) => digits_status(Base::Hexadecimal, rest),
        None => digits_status(Base::Decimal, text),
    }
}

/// The status of the digits of a base that a text begins with.
fn digits_status(base: Base, text: &[u8]) -> u8
    ensures { result ≡ min (front_number base text.now) 255 }
{
    number(base, digits_in_front(base, text), 255) as u8
}

/// The command `test`.
pub(crate) fn test_by(
    shell: Shell,
    stand_ins: &Stubs,
    board: &BoardRules,
    words: Fields<'_>,
) -> bool
    ensures { result ≡ test_by shell (hardware board.now stand_ins.now) words.entry }
{
    match shell {
        Shell::Strict => test(words),
        Shell::Board => board_test(words, &BoardFiles { stand_ins, board }),
    }
}

/// The files of a board.
#[derive(Drop)]
struct BoardFiles<'a> {
    stand_ins: &'a Stubs,
    board: &'a BoardRules,
}

impl<'a> Files for BoardFiles<'a> {
    ghost use Rattle.hush_commands.specs.Hardware.{hardware, is_there};

    ghost there = { λ files. is_there (hardware files.board.now files.stand_ins.now) };

    fn is_there(&self, words: Fields<'_>) -> bool {
        match self.board.find_file(&words) {
            Some(reply) => is_success(reply),
            None => match self.stand_ins.status(b"test -e") {
                Some(status) => status == 0,
                None => false,
            },
        }
    }
}

impl BoardFiles<'_> {
    /// Whether the answer to the call `test -e` of the first three of these words is open.
    fn asks(&self, words: &Fields<'_>) -> bool
        ensures { result ≡ is_open (file_answer (hardware self.now.board.now self.now.stand_ins.now) words.now) }
    {
        match self.board.find_file(words) {
            Some(reply) => reply.is_open(),
            None => is_asking(self.stand_ins.leaving(b"test -e")),
        }
    }

    /// The first `-e` whose answer is open, with the three words after it.
    #[tactic(auto, unfolding(crate::specs::Hardware::open_file))]
    fn first_open<'a>(&self, words: &Fields<'a>) -> Option<Fields<'a>>
        ensures { result ≡ open_file (hardware self.now.board.now self.now.stand_ins.now) words.now }
    {
        let mut here = words.again();
        let mut rest = words.again();
        while let Some(word) = rest.next() {
            if is_text(word, b"-e") && count(&rest) >= 3 && self.asks(&rest) {
                return Some(front(4, &here));
            }
            here = rest.again();
        }
        None
    }
}

/// The `-e` of a `test` of which the board has to be asked, with the three words after it, if there is one.
pub(crate) fn asked_file<'a>(
    shell: Shell,
    stand_ins: &Stubs,
    board: &BoardRules,
    words: &Fields<'a>,
) -> Option<Fields<'a>>
    ensures { result ≡ asked_file shell (hardware board.now stand_ins.now) words.now }
{
    match shell {
        Shell::Strict => None,
        Shell::Board => BoardFiles { stand_ins, board }.first_open(words),
    }
}

/// Whether an answer is status 0.
fn is_success(reply: &Reply) -> bool
    ensures { result ≡ is_success (Some reply.now) }
{
    match reply {
        Reply::Status { status, .. } => *status == 0,
        Reply::Text(_) | Reply::Lacks => false,
    }
}
