//! The names that the program answers to, and the subcommands of `fwenv`.
ghost use Rattle.std.specs.Prelude.{◌≡◌, ◌||◌, ◌∷◌, map};
ghost use Rattle.std.specs.Str.{bytes_eq};
ghost use Rattle.fw_arguments.specs.ProgramNames.{fwenv_by, is_named, name_by, name_in};
ghost use Rattle.fw_arguments.specs.Table.{called_view, is_called, row_of};
ghost use Rattle.std.specs.List.{find};

use crate::command_rows::{
    BOOT, CHECK, EXPORT, FIND, IMAGE, IMPORT, PRINTENV, RESTORE, RUN, SESSION, SETENV, STATUS,
};
use crate::table::Called;
use std::convert::AsStr;

/// A name under which the program is called.
#[derive(Clone, Copy, Debug, PartialEq, Eq)]
pub enum ProgramName {
    /// `fwenv`, or any other name.
    Fwenv,
    /// The same, and the argument after it is a subcommand.
    FwenvWith(Subcommand),
    /// `fw_printenv`
    Printenv,
    /// `fw_setenv`
    Setenv,
}

/// A subcommand of `fwenv`.
#[derive(Clone, Copy, Debug, PartialEq, Eq)]
pub enum Subcommand {
    /// `printenv`
    Printenv,
    /// `setenv`
    Setenv,
    /// `import`
    Import,
    /// `export`
    Export,
    /// `restore`
    Restore,
    /// `status`
    Status,
    /// `find`
    Find,
    /// `image`
    Image,
    /// `run`
    Run,
    /// `boot`
    Boot,
    /// `check`
    Check,
    /// `session`
    Session,
}

impl ProgramName {
    /// The name that the arguments begin with.
    pub fn of<S: AsStr>(words: &[S]) -> ProgramName
        ensures { result ≡ name_in (map S.text words.now) }
    {
        match words.split_first() {
            None => ProgramName::Fwenv,
            Some((path, rest)) => name_by(path.as_str().as_bytes(), rest),
        }
    }
}

/// Every subcommand, in the order of the help.
pub const SUBCOMMANDS: [Subcommand; 12] = [
    Subcommand::Printenv,
    Subcommand::Setenv,
    Subcommand::Import,
    Subcommand::Export,
    Subcommand::Restore,
    Subcommand::Status,
    Subcommand::Find,
    Subcommand::Image,
    Subcommand::Run,
    Subcommand::Boot,
    Subcommand::Check,
    Subcommand::Session,
];

impl Subcommand {
    /// Its row.
    pub(crate) fn row(self) -> Called
        ensures { called_view (λ t. t.now) (λ o. o.now) result ≡ row_of self }
    {
        match self {
            Subcommand::Printenv => PRINTENV,
            Subcommand::Setenv => SETENV,
            Subcommand::Import => IMPORT,
            Subcommand::Export => EXPORT,
            Subcommand::Restore => RESTORE,
            Subcommand::Status => STATUS,
            Subcommand::Find => FIND,
            Subcommand::Image => IMAGE,
            Subcommand::Run => RUN,
            Subcommand::Boot => BOOT,
            Subcommand::Check => CHECK,
            Subcommand::Session => SESSION,
        }
    }

    /// Whether this is its name.
    fn is_called(self, name: &str) -> bool
        ensures { result ≡ is_called name.now self }
    {
        self.row().name == name
    }
}

/// The first of these that has a name.
fn named_in(subcommands: &[Subcommand], name: &str) -> Option<Subcommand>
    ensures { result ≡ find (is_called name.now) subcommands.now }
{
    for subcommand in subcommands {
        if subcommand.is_called(name) {
            return Some(*subcommand);
        }
    }
    None
}

/// The name in a path, which these arguments follow.
fn name_by<S: AsStr>(path: &[u8], words: &[S]) -> ProgramName
    ensures { result ≡ name_by path.now (map S.text words.now) }
{
    if is_named(path, b"fw_printenv", b"/fw_printenv") {
        return ProgramName::Printenv;
    }
    if is_named(path, b"fw_setenv", b"/fw_setenv") {
        return ProgramName::Setenv;
    }
    fwenv_by(words)
}

/// `fwenv` with these arguments after its name.
fn fwenv_by<S: AsStr>(words: &[S]) -> ProgramName
    ensures { result ≡ fwenv_by (map S.text words.now) }
{
    match words.first() {
        None => ProgramName::Fwenv,
        Some(first) => match named_in(&SUBCOMMANDS, first.as_str()) {
            None => ProgramName::Fwenv,
            Some(subcommand) => ProgramName::FwenvWith(subcommand),
        },
    }
}

/// Whether the last part of a path is this name, which is given alone and after a slash.
fn is_named(path: &[u8], name: &[u8], part: &[u8]) -> bool
    requires { part.now ≡ 47 ∷ name.now }
    ensures { result ≡ is_named name.now path.now }
{
    path == name || path.ends_with(part)
}
