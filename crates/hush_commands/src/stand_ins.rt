//! Stand-ins: names of commands that need hardware, each with the status that it answers and how it leaves the board.
ghost use Rattle.hush_commands.specs.CommandNames.{stub_names, with_names};
ghost use Rattle.std.specs.Prelude.{◌≡◌, map, Some, Ok, IfOk, IfErr, OnOk, OnErr};
ghost use Rattle.std.specs.FinMap as names;
ghost use Rattle.hush_commands.specs.Stubs.{stand_ins_of, with_line, with_stand_in, IsFaultOf};
ghost use Rattle.hush_commands.specs.Stubs.{status_of_name, leaving_by, leaving_of, with_leaving};

use crate::command_names::Found;
use crate::departure::{Leaving, leaving_with};
use crate::stand_in_line::{StubFault, read_line};
use std::alloc::{AllocError, Global};
use std::collections::BTreeMap;
use std::marker::Model;
use text_parts::numbered_lines;

/// What a stand-in does, besides printing its line.
#[derive(Clone, Copy)]
pub(crate) struct Role {
    /// The status that it answers.
    pub(crate) status: u8,
    /// How the board is left if the status is 0, by a command that doesn't come back then.
    pub(crate) leaves: Option<Leaving>,
}

/// The stand-ins of a run: the commands that only hardware has, each with the status that it answers here.
#[derive(Drop)]
pub struct Stubs {
    roles: BTreeMap<Vec<u8>, Role>,
}

impl Model for Stubs {
    ghost use Rattle.std.specs.Prelude.{T};
    ghost use Rattle.std.specs.FinMap.Entries.{is_sorted};
    ghost use Rattle.std.specs.FinMap as names;
    ghost use Rattle.hush_commands.specs.Stubs.{Statuses, name_order, statuses_code};
    ghost use Rattle.hush_commands.specs.Entries.{entries_view, role_view};

    ghost Value = { Statuses };

    ghost coded = { statuses_code };

    ghost view = { λ a. names.from_sorted (entries_view role_view a.roles.entries) };

    ghost invariant = { λ a. T (is_sorted name_order (entries_view role_view a.roles.entries)) };
}

impl Stubs {
    /// Reads a stand-in file: in each line a name, and perhaps a status (docs/runs.md, "Stand-ins").
    ///
    /// The first line that is at fault decides: `Line` if it has another form or holds a 0 byte, else `Builtin` if the
    /// name is a builtin's, else `Twice` if an earlier line has it. `Memory` when a growth was refused. Each stand-in comes back.
    pub fn parse(alloc: Global, text: &[u8]) -> Result<Stubs, StubFault>
        ensures read { IfOk result (λ stand_ins. stand_ins_of text.now ≡ Ok stand_ins) }
        ensures refused { IfErr result (IsFaultOf (stand_ins_of text.now)) }
    {
        let mut stubs = Stubs::empty(alloc);
        for (number, line) in numbered_lines(text) {
            stubs.add_line(alloc, number, line)?;
        }
        Ok(stubs)
    }

    /// The status of a name, if it has a stand-in.
    pub fn status(&self, name: &[u8]) -> Option<u8>
        ensures { result ≡ status_of_name self.now name.now }
    {
        match self.roles.get(name) {
            Some(role) => Some(role.status),
            None => None,
        }
    }

    /// From now on a stand-in of this name leaves the board so if its status is 0, which ends a run. If the name has no
    /// stand-in, or a growth is refused, nothing has changed.
    pub fn leave(&mut self, alloc: Global, name: &[u8], leaving: Leaving) -> Result<(), AllocError>
        ensures ok { OnOk result (self.new ≡ with_leaving leaving self.old name.now) }
        ensures err { OnErr result (self.new ≡ self.old) }
    {
        match self.status(name) {
            Some(status) => self.set_leaving(alloc, name, status, leaving),
            None => Ok(()),
        }
    }

    /// Gives a name a stand-in that leaves the board. If a growth is refused, nothing has changed.
    fn set_leaving(
        &mut self,
        alloc: Global,
        name: &[u8],
        status: u8,
        leaving: Leaving,
    ) -> Result<(), AllocError>
        ensures ok { OnOk result (self.new ≡ leaving_by leaving self.old name.now (Some status)) }
        ensures err { OnErr result (self.new ≡ self.old) }
    {
        let name = Vec::from_slice(alloc, name)?;
        let role = Role {
            status,
            leaves: Some(leaving),
        };
        self.roles.insert(name, role)?;
        Ok(())
    }

    /// How the stand-in of a name leaves the board, if it does.
    pub(crate) fn leaving(&self, name: &[u8]) -> Option<Leaving>
        ensures { result ≡ leaving_of (names.get self.now name.now) }
    {
        match self.roles.get(name) {
            Some(role) => leaving_with(role.leaves, role.status),
            None => None,
        }
    }

    /// What was found, and the names of these that begin with a word.
    pub(crate) fn with_names<'a>(&'a self, word: &[u8], found: Found<'a>) -> Found<'a>
        ensures { result ≡ with_names word.now found.entry (stub_names self.now) }
    {
        names_of(&self.roles, word, found)
    }

    /// No stand-ins. It takes no memory.
    pub fn empty(alloc: Global) -> Stubs
        ensures { result ≡ names.empty }
    {
        Stubs {
            roles: BTreeMap::new(alloc),
        }
    }

    /// Adds what a line holds.
    fn add_line(&mut self, alloc: Global, number: usize, line: &[u8]) -> Result<(), StubFault>
        ensures read { IfOk result (λ _. with_line self.old (number, line.now) ≡ Ok self.new) }
        ensures refused { IfErr result (IsFaultOf (with_line self.old (number, line.now))) }
    {
        match read_line(number, line)? {
            Some((name, status)) => self.add(alloc, number, name, status),
            None => Ok(()),
        }
    }

    /// Adds the stand-in of a name, which may have none yet. If it has one, that is replaced, and these stand-ins are
    /// no longer used.
    fn add(
        &mut self,
        alloc: Global,
        number: usize,
        name: &[u8],
        status: u8,
    ) -> Result<(), StubFault>
        ensures read { IfOk result (λ _. with_stand_in number self.old name.now status ≡ Ok self.new) }
        ensures refused { IfErr result (IsFaultOf (with_stand_in number self.old name.now status)) }
    {
        let name = Vec::from_slice(alloc, name)?;
        let role = Role {
            status,
            leaves: None,
        };
        match self.roles.insert(name, role)? {
            Some(_old) => Err(StubFault::Twice(number)),
            None => Ok(()),
        }
    }
}

/// What was found, and the names of roles that begin with a word.
fn names_of<'a>(roles: &'a BTreeMap<Vec<u8>, Role>, word: &[u8], found: Found<'a>) -> Found<'a>
    ensures { result ≡ with_names word.now found.entry (map (λ entry. entry.0.items) roles.now.entries) }
{
    let mut so_far = found;
    for (name, _role) in roles {
        so_far = so_far.with(word, name.as_slice());
    }
    so_far
}
