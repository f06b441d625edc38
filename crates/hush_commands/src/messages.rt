//! What a run prints when a command fails (docs/runs.md, "Messages").
ghost use Rattle.std.specs.Prelude.{◌≡◌};
ghost use Rattle.hush_commands.specs.Output.{Prints, PrintsWhole, Answers, LacksRoom, OnMemory, answer};
ghost use Rattle.hush_commands.specs.Messages.{text_of, parts_of};

use crate::output::{Output, PrintFault};
use envvars_core::Refusal;

/// A text about a name. Each ends with a newline.
#[derive(Clone, Copy, Debug, PartialEq, Eq)]
pub enum Message {
    /// `printenv`, `run` or `env delete` finds no variable of the name.
    NotDefined,
    /// No command has the name.
    UnknownCommand,
    /// The command of the name has no such words.
    WrongUse,
    /// A write is refused.
    Refused(Refusal),
    /// An assignment or a for's variable has the name of a variable of the environment.
    IsVariable,
    /// The value that `run` was to start isn't a script.
    NoScript,
    /// `setexpr` divides by zero; no name is reported.
    DivisionByZero,
}

impl Message {
    /// Prints the text about a name, given as raw bytes, or nothing of it.
    pub fn tell(self, name: &[u8], output: &mut Output) -> Result<(), PrintFault>
        ensures prints { Prints (text_of self name.now) output.old output.new result }
        ensures whole { PrintsWhole (text_of self name.now) output.old output.new result }
    {
        let (front, name, back) = self.parts(name);
        output.print_parts(front, name, back)
    }

    /// Prints the text of a command that fails, which has status 1.
    pub(crate) fn fail(self, name: &[u8], output: &mut Output) -> Result<u8, PrintFault>
        ensures answers { Answers (answer 1 (text_of self name.now)) output.old output.new result }
        ensures memory { OnMemory result (LacksRoom (text_of self name.now) output.old) }
    {
        self.tell(name, output)?;
        Ok(1)
    }

    /// What is before the name, the name, and what is after it.
    fn parts(self, name: &[u8]) -> (&'static [u8], &[u8], &'static [u8])
        ensures { (result.0.now, result.1.now, result.2.now) ≡ parts_of self name.now }
    {
        match self {
            Message::NotDefined => (b"## Error: \"", name, b"\" not defined\n"),
            Message::UnknownCommand => (b"Unknown command '", name, b"' - try 'help'\n"),
            Message::WrongUse => (b"## Error: wrong use of '", name, b"'\n"),
            Message::Refused(refusal) => (refusal.before_name(), name, refusal.after_name()),
            Message::IsVariable => (b"## Error: \"", name, b"\" is an environment variable\n"),
            Message::NoScript => (b"## Error: syntax error in \"", name, b"\"\n"),
            Message::DivisionByZero => (b"## Error: division by zero", b"", b"\n"),
        }
    }
}
