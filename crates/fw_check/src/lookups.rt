//! What the names in a script are looked up in.
ghost use Rattle.std.specs.Prelude.{◌≡◌, Some, IfOk, option_copied, option_map};
ghost use Rattle.fw_check.specs.Commands.{command_fault, has_stand_in, is_unknown};
ghost use Rattle.fw_check.specs.Knowing.{constant, is_defined, is_lacking, is_reread, is_undefined, is_written, short_value};
ghost use Rattle.hush_commands.specs.CommandNames.{name_among};
ghost use Rattle.hush_words.specs.Parts.{word_atoms};
ghost use Rattle.fw_check.specs.Called.{called_by, is_after_env};
ghost use Rattle.fw_check.specs.Looking.{hardware_in, known_in, known_view, rules_in};

use crate::commands::{CommandFault, lack_of};
use crate::literals::{is_word_of, literal};
use crate::name_set::ScriptNames;
use crate::reread::RereadNames;
use crate::rules::Rules;
use envvars_core::Vars;
use hush_commands::{BoardRules, Stubs, command_name, has_answer, names_command, stands_for};
use hush_syntax::{Text, Word};
use std::alloc::{AllocError, Global};

/// What the names of variables are looked up in.
#[derive(Clone, Copy)]
pub(crate) struct Variables<'k> {
    pub(crate) vars: &'k Vars,
    /// Which names the scripts give, foresee and write.
    pub(crate) names: &'k ScriptNames,
    /// Whose values a board reads anew.
    pub(crate) values: &'k RereadNames,
}

/// The variables that U-Boot and its commands set by themselves, and the one that its scripts use whether it is defined
/// or not.
const SET_BY_COMMANDS: [&[u8]; 35] = [
    b"boardver",
    b"bootargs",
    b"bootcount",
    b"bootfile",
    b"devnum",
    b"devtype",
    b"distro_bootpart",
    b"dnsip",
    b"dnsip2",
    b"domain",
    b"ethact",
    b"ethaddr",
    b"fdtaddr",
    b"fdtcontroladdr",
    b"fileaddr",
    b"filesize",
    b"gatewayip",
    b"hostname",
    b"ipaddr",
    b"llipaddr",
    b"mtddevname",
    b"mtddevnum",
    b"mtdids",
    b"mtdparts",
    b"netmask",
    b"ntpserverip",
    b"partition",
    b"prefix",
    b"rootpath",
    b"serverip",
    b"stderr",
    b"stdin",
    b"stdout",
    b"timeoffset",
    b"ver",
];

/// The most bytes of a value that may be a name: each word that substitutes it has them read.
const MOST_VALUE: usize = 4096;

/// A value, if it isn't too long for a name.
fn short_value(value: Option<&[u8]>) -> Option<&[u8]>
    ensures { option_copied result ≡ short_value (option_copied value.entry) }
{
    match value {
        Some(value) if value.len() <= MOST_VALUE => Some(value),
        _ => None,
    }
}

impl<'k> Variables<'k> {
    /// Whether the environment has a variable of this name.
    fn has(&self, name: &[u8]) -> bool
        ensures { result ≡ is_defined (Some (known_view self.now)) name.now }
    {
        self.vars.get(name).is_some()
    }

    /// Whether nothing defines a variable of this name.
    fn lacks(&self, name: &[u8]) -> bool
        ensures { result ≡ is_lacking (Some (known_view self.now)) name.now }
    {
        !(self.has(name) || is_word_of(&SET_BY_COMMANDS, name) || self.names.given.has(name))
    }

    /// The value of a variable that nothing sets but the environment.
    fn constant(&self, name: &[u8]) -> Option<&'k [u8]>
        ensures { option_copied result ≡ constant (Some (known_view self.now)) name.now }
    {
        if is_word_of(&SET_BY_COMMANDS, name) || self.names.given.has(name) {
            None
        } else {
            short_value(self.vars.get(name))
        }
    }

    /// Whether a board reads its value anew, in particular where it cuts words.
    fn rereads(&self, cut: bool, name: &[u8]) -> bool
        ensures { result ≡ is_reread (Some (known_view self.now)) cut name.now }
    {
        self.values.reread.has(name) || (cut && self.values.recut.has(name))
    }

    /// Whether no variable of this name is there, and none is foreseen.
    fn misses(&self, name: &[u8]) -> bool
        ensures { result ≡ is_undefined (Some (known_view self.now)) name.now }
    {
        !(self.has(name) || self.names.foreseen.has(name))
    }
}

/// What the names in a script are looked up in, and the allocator for that.
#[derive(Clone, Copy)]
pub(crate) struct Lookups<'k> {
    pub(crate) alloc: Global,
    /// By what rules it is read.
    pub(crate) rules: Rules<'k>,
    /// `None` if names of variables aren't looked up.
    pub(crate) variables: Option<Variables<'k>>,
}

impl<'k> Lookups<'k> {
    /// The name of the command that a word calls; `None` if it has a substitution.
    pub(crate) fn called(&self, text: &Text, word: Word) -> Result<Option<Vec<u8>>, AllocError>
        ensures { IfOk result (λ name. option_map (λ v. v.items) name ≡ called_by (rules_in self.now) (word_atoms text.now word)) }
    {
        match literal(self.alloc, text, word)? {
            Some(bytes) => Ok(Some(self.command_name(&bytes)?)),
            None => Ok(None),
        }
    }

    /// The name that the shell finds by a word.
    fn command_name(&self, word: &[u8]) -> Result<Vec<u8>, AllocError>
        ensures { IfOk result (λ name. name.items ≡ name_among self.now.rules.shell (hardware_in self.now) word.now) }
    {
        let shell = self.rules.shell;
        match self.rules.hardware {
            Some(hardware) => {
                command_name(self.alloc, shell, hardware.stand_ins, hardware.board, word)
            }
            None => {
                let (none, nothing) = (Stubs::empty(self.alloc), BoardRules::none(self.alloc));
                command_name(self.alloc, shell, &none, &nothing, word)
            }
        }
    }

    /// Whether a word after `env` stands for a name of which a board needs so many bytes.
    pub(crate) fn is_after_env(&self, least: usize, name: &[u8], word: &Option<Vec<u8>>) -> bool
        ensures { result ≡ is_after_env self.now.rules.shell least name.now (option_map (λ v. v.items) word.now) }
    {
        match word {
            Some(word) => stands_for(self.rules.shell, least, name, word),
            None => false,
        }
    }

    /// Whether the environment has a variable of this name.
    pub(crate) fn is_defined(&self, name: &[u8]) -> bool
        ensures { result ≡ is_defined (known_in self.now) name.now }
    {
        match self.variables {
            Some(variables) => variables.has(name),
            None => false,
        }
    }

    /// The value of a variable that nothing sets but the environment.
    pub(crate) fn constant(&self, name: &[u8]) -> Option<&'k [u8]>
        ensures { option_copied result ≡ constant (known_in self.now) name.now }
    {
        match self.variables {
            Some(variables) => variables.constant(name),
            None => None,
        }
    }

    /// Whether neither the environment has it nor a script foresees it.
    pub(crate) fn is_undefined(&self, name: &[u8]) -> bool
        ensures { result ≡ is_undefined (known_in self.now) name.now }
    {
        match self.variables {
            Some(variables) => variables.misses(name),
            None => false,
        }
    }

    /// Whether a script sets a variable of this name.
    pub(crate) fn is_written(&self, name: &[u8]) -> bool
        ensures { result ≡ is_written (known_in self.now) name.now }
    {
        match self.variables {
            Some(variables) => variables.names.written.has(name),
            None => false,
        }
    }

    /// Whether a board reads the value of this name anew, in particular where it cuts words.
    pub(crate) fn is_reread(&self, cut: bool, name: &[u8]) -> bool
        ensures { result ≡ is_reread (known_in self.now) cut name.now }
    {
        match self.variables {
            Some(variables) => variables.rereads(cut, name),
            None => false,
        }
    }

    /// Whether neither the environment nor anything else defines it.
    pub(crate) fn is_lacking(&self, name: &[u8]) -> bool
        ensures { result ≡ is_lacking (known_in self.now) name.now }
    {
        match self.variables {
            Some(variables) => variables.lacks(name),
            None => false,
        }
    }

    /// What is wrong with a command of this name; `opens`: its arguments begin with `()`.
    pub(crate) fn command_fault(&self, opens: bool, name: &[u8]) -> Option<CommandFault>
        ensures { result ≡ command_fault self.now.rules.shell (hardware_in self.now) opens name.now }
    {
        if self.has_stand_in(name) {
            return None;
        }
        match lack_of(opens, name) {
            Some(fault) => Some(fault),
            None if self.is_unknown(name) => Some(CommandFault::Unknown),
            None => None,
        }
    }

    /// Whether a rule or a stand-in may answer a call of this name.
    fn has_stand_in(&self, name: &[u8]) -> bool
        ensures { result ≡ has_stand_in (hardware_in self.now) name.now }
    {
        match self.rules.hardware {
            Some(hardware) => has_answer(hardware.stand_ins, hardware.board, name),
            None => false,
        }
    }

    /// Whether the shell finds no command that is there by this name.
    fn is_unknown(&self, name: &[u8]) -> bool
        ensures { result ≡ is_unknown self.now.rules.shell (hardware_in self.now) name.now }
    {
        let shell = self.rules.shell;
        match self.rules.hardware {
            Some(hardware) => !names_command(shell, hardware.stand_ins, hardware.board, name),
            None => false,
        }
    }
}
