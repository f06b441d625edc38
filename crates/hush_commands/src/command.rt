//! Which command the fields of a simple command are, with its operands (docs/runs.md, "Commands").
ghost use Rattle.std.specs.Prelude.{◌≡◌};
ghost use Rattle.hush_calc.specs.Setexpr.{setexpr_of};
ghost use Rattle.hush_commands.specs.Commands.{is_wrong_use};

use crate::board_rules::BoardRules;
use crate::builtins::Builtin;
use crate::command_names::{name_by, stands_for};
use crate::shell::{Shell, exit_word};
use crate::stand_ins::Stubs;
use hush_calc::{Fields, SetexprFault, setexpr};
use std::marker::Model;

/// A name among the fields: that of a variable, or of the command itself.
#[derive(Drop)]
pub(crate) struct Name<'a> {
    bytes: &'a [u8],
}

impl<'a> Model for Name<'a> {
    ghost use Rattle.std.specs.Prelude.{ℕ, List};

    ghost Value = { List ℕ };

    ghost view = { λ a. a.bytes.now };
}

impl<'a> Name<'a> {
    fn of(bytes: &'a [u8]) -> Name<'a>
        ensures { result ≡ bytes.now }
    {
        Name { bytes }
    }

    pub(crate) fn bytes(&self) -> &'a [u8]
        ensures { result.now ≡ self.now }
    {
        self.bytes
    }
}

/// A command with its operands.
#[derive(Drop)]
pub(crate) enum Command<'a> {
    /// No fields at all
    Nothing,
    /// `true`
    True,
    /// `false`
    False,
    /// `echo [-n] words`
    Echo {
        newline: bool,
        words: Fields<'a>,
    },
    /// `setenv [-f] name words` and `env set`
    Set {
        force: bool,
        name: Name<'a>,
        words: Fields<'a>,
    },
    /// `printenv [-a] names` and `env print`
    Print {
        all: bool,
        names: Fields<'a>,
    },
    /// `saveenv` and `env save`
    Save,
    /// `run names` and `env run`
    Run {
        names: Fields<'a>,
    },
    /// `env delete [-f] names`
    Delete {
        force: bool,
        names: Fields<'a>,
    },
    /// `env exists name`
    Exists {
        name: Name<'a>,
    },
    /// `test words`
    Test {
        words: Fields<'a>,
    },
    /// `setexpr words`, by the name that it was called by
    Calculate {
        called: Name<'a>,
        words: Fields<'a>,
    },
    /// `exit [status]`
    Exit {
        status: Option<u8>,
    },
    /// A command of this name, with words that it can't have
    WrongUse {
        called: Name<'a>,
    },
    /// No builtin, or a form of one that a rule answers: a stand-in, or unknown; the first of its fields stands for its
    /// name
    Other {
        called: Name<'a>,
        fields: Fields<'a>,
    },
}

impl<'a> Command<'a> {
    ghost use Rattle.hush_commands.specs.Commands.{command_in, builtin_command};
    ghost use Rattle.hush_commands.specs.Hardware.{hardware};
    ghost use Rattle.hush_commands.specs.Commands.{env_command, env_word, echo_command, set_command, print_command};
    ghost use Rattle.hush_commands.specs.Commands.{save_command, run_command, delete_command, exists_command};
    ghost use Rattle.hush_commands.specs.Commands.{asked, calculate_command, exit_command, exit_with};

    /// The command of these fields.
    pub(crate) fn of(
        shell: Shell,
        stand_ins: &'a Stubs,
        board: &'a BoardRules,
        fields: Fields<'a>,
    ) -> Command<'a>
        ensures { result ≡ command_in shell (hardware board.now stand_ins.now) fields.entry }
    {
        let mut words = fields.again();
        match words.next() {
            Some(word) => {
                let called = name_by(shell, stand_ins, board, word);
                match Builtin::of(called) {
                    Some(builtin) if !board.lacks(builtin.name()) => {
                        Command::of_builtin(shell, board, builtin, called, fields, words)
                    }
                    _ => Command::Other {
                        called: Name::of(called),
                        fields,
                    },
                }
            }
            None => Command::Nothing,
        }
    }

    fn of_builtin(
        shell: Shell,
        board: &BoardRules,
        builtin: Builtin,
        called: &'a [u8],
        fields: Fields<'a>,
        words: Fields<'a>,
    ) -> Command<'a>
        ensures { result ≡ builtin_command shell board.now builtin called.now fields.entry words.entry }
    {
        match builtin {
            Builtin::True => Command::True,
            Builtin::False => Command::False,
            Builtin::Echo => Command::echo(words),
            Builtin::SetEnv => Command::set(called, words),
            Builtin::PrintEnv => Command::print(words),
            Builtin::SaveEnv => Command::save(called, words),
            Builtin::Run => Command::run(called, words),
            Builtin::Env => Command::env(shell, board, called, fields, words),
            Builtin::Test => Command::Test { words },
            Builtin::SetExpr => Command::calculate(board, called, fields, words),
            Builtin::Exit => Command::exit(shell, called, words),
        }
    }

    /// `env` with the name of one of its commands.
    fn env(
        shell: Shell,
        board: &BoardRules,
        called: &'a [u8],
        fields: Fields<'a>,
        words: Fields<'a>,
    ) -> Command<'a>
        ensures { result ≡ env_command shell board.now called.now fields.entry words.entry }
    {
        let mut rest = words;
        match rest.next() {
            Some(word) => Command::env_word(shell, board, called, fields, word, rest),
            None => Command::asked(board, called, fields),
        }
    }

    fn env_word(
        shell: Shell,
        board: &BoardRules,
        called: &'a [u8],
        fields: Fields<'a>,
        word: &[u8],
        words: Fields<'a>,
    ) -> Command<'a>
        ensures { result ≡ env_word shell board.now called.now fields.entry word.now words.entry }
    {
        if stands_for(shell, 2, b"set", word) {
            Command::set(called, words)
        } else if stands_for(shell, 1, b"print", word) {
            Command::print(words)
        } else if stands_for(shell, 2, b"save", word) {
            Command::save(called, words)
        } else if stands_for(shell, 1, b"run", word) {
            Command::run(called, words)
        } else if stands_for(shell, 3, b"delete", word) {
            Command::delete(called, words)
        } else if stands_for(shell, 3, b"exists", word) {
            Command::exists(called, words)
        } else {
            Command::asked(board, called, fields)
        }
    }

    /// `setexpr`: a calculation, or a form that has no meaning here.
    fn calculate(
        board: &BoardRules,
        called: &'a [u8],
        fields: Fields<'a>,
        words: Fields<'a>,
    ) -> Command<'a>
        ensures { result ≡ calculate_command board.now called.now fields.entry words.entry }
    {
        if is_wrong_use(words.again()) {
            Command::asked(board, called, fields)
        } else {
            Command::Calculate {
                called: Name::of(called),
                words,
            }
        }
    }

    /// A form of a builtin that has no meaning here: a call, if a rule answers that.
    fn asked(board: &BoardRules, called: &'a [u8], fields: Fields<'a>) -> Command<'a>
        ensures { result ≡ asked board.now called.now fields.entry }
    {
        match board.find(called, &fields) {
            Some(_reply) => Command::Other {
                called: Name::of(called),
                fields,
            },
            None => Command::wrong_use(called),
        }
    }

    fn echo(words: Fields<'a>) -> Command<'a>
        ensures { result ≡ echo_command words.entry }
    {
        let (is_bare, words) = words.split_option(b"-n");
        Command::Echo {
            newline: !is_bare,
            words,
        }
    }

    fn set(called: &'a [u8], words: Fields<'a>) -> Command<'a>
        ensures { result ≡ set_command called.now words.entry }
    {
        let (force, mut rest) = words.split_option(b"-f");
        match rest.next() {
            Some(name) => Command::Set {
                force,
                name: Name::of(name),
                words: rest,
            },
            None => Command::wrong_use(called),
        }
    }

    fn print(words: Fields<'a>) -> Command<'a>
        ensures { result ≡ print_command words.entry }
    {
        let (all, names) = words.split_option(b"-a");
        Command::Print { all, names }
    }

    fn save(called: &'a [u8], words: Fields<'a>) -> Command<'a>
        ensures { result ≡ save_command called.now words.entry }
    {
        let mut rest = words;
        match rest.next() {
            Some(_word) => Command::wrong_use(called),
            None => Command::Save,
        }
    }

    fn run(called: &'a [u8], names: Fields<'a>) -> Command<'a>
        ensures { result ≡ run_command called.now names.entry }
    {
        let mut rest = names.again();
        match rest.next() {
            Some(_name) => Command::Run { names },
            None => Command::wrong_use(called),
        }
    }

    fn delete(called: &'a [u8], words: Fields<'a>) -> Command<'a>
        ensures { result ≡ delete_command called.now words.entry }
    {
        let (force, names) = words.split_option(b"-f");
        let mut rest = names.again();
        match rest.next() {
            Some(_name) => Command::Delete { force, names },
            None => Command::wrong_use(called),
        }
    }

    fn exists(called: &'a [u8], words: Fields<'a>) -> Command<'a>
        ensures { result ≡ exists_command called.now words.entry }
    {
        let mut rest = words;
        match (rest.next(), rest.next()) {
            (Some(name), None) => Command::Exists {
                name: Name::of(name),
            },
            _ => Command::wrong_use(called),
        }
    }

    fn exit(shell: Shell, called: &'a [u8], words: Fields<'a>) -> Command<'a>
        ensures { result ≡ exit_command shell called.now words.entry }
    {
        let mut rest = words;
        match (rest.next(), rest.next()) {
            (None, _) => Command::Exit { status: None },
            (Some(word), None) => Command::exit_with(called, exit_word(shell, word)),
            _ => Command::wrong_use(called),
        }
    }

    /// `exit` with a word that is this status, or none.
    fn exit_with(called: &'a [u8], status: Option<u8>) -> Command<'a>
        ensures { result ≡ exit_with called.now status }
    {
        match status {
            Some(_status) => Command::Exit { status },
            None => Command::wrong_use(called),
        }
    }

    fn wrong_use(called: &'a [u8]) -> Command<'a>
        ensures { result ≡ Command.WrongUse called.now }
    {
        Command::WrongUse {
            called: Name::of(called),
        }
    }
}

/// Whether the words of a `setexpr` are no calculation.
fn is_wrong_use(words: Fields<'_>) -> bool
    ensures { result ≡ is_wrong_use (setexpr_of words.entry) }
{
    match setexpr(words) {
        Ok(_calculated) => false,
        Err(SetexprFault::WrongUse) => true,
        Err(SetexprFault::DivisionByZero) => false,
    }
}
