//! The text that a run prints.
ghost use Rattle.std.specs.Prelude.{◌≡◌, ◌≤◌, [], ◌+◌, ◌++◌, length, take, vec_len, vec_capacity};
ghost use Rattle.std.specs.Option.{SomeIff};
ghost use Rattle.hush_commands.specs.Output.{printed, Prints, PrintsWhole};
ghost use Rattle.hush_commands.specs.Saving.{saved_line, Saves};

use env_session::{Session, Side};
use std::alloc::{AllocError, Global};
use std::marker::Model;
use thiserror::Error;

/// Why a text isn't printed.
#[derive(Clone, Copy, Debug, PartialEq, Eq, Error)]
pub enum PrintFault {
    /// It would bring the text of the run past its limit.
    #[error("Output")]
    Output,
    /// A growth was refused.
    #[error("Memory")]
    Memory,
}

impl From<AllocError> for PrintFault {
    ghost use Rattle.hush_commands.specs.declared.output.PrintFault.TheVariants.{Memory};

    ghost from_gives = { λ _ fault. fault ≡ Memory };

    fn from(_refused: AllocError) -> PrintFault {
        PrintFault::Memory
    }
}

/// The text that a run prints, and how long it may be.
#[derive(Drop)]
pub struct Output {
    text: Vec<u8>,
    limit: u32,
}

impl Model for Output {
    ghost use Rattle.std.specs.Prelude.{◌≤◌, length};
    ghost use Rattle.hush_commands.specs.Output.{Printed, printed};

    ghost Value = { Printed };

    ghost view = { λ a. printed a.text.items a.limit };

    ghost invariant = { λ a. length a.text.items ≤ a.limit };
}

impl Output {
    /// No text, with room for `limit` bytes. It takes no memory.
    pub fn new(alloc: Global, limit: u32) -> Output
        ensures { result ≡ printed [] limit }
    {
        Output {
            text: Vec::new(alloc),
            limit,
        }
    }

    /// What was printed.
    pub fn text(&self) -> &[u8]
        ensures text { result.now ≡ self.now.text }
        ensures within { length result.now ≤ self.now.limit }
    {
        self.text.as_slice()
    }

    /// What was printed, for its owner.
    pub fn into_text(self) -> Vec<u8>
        ensures { result.items ≡ self.text }
    {
        let Output { text, limit: _ } = self;
        text
    }

    /// Prints a text, or nothing.
    pub(crate) fn print(&mut self, text: &[u8]) -> Result<(), PrintFault>
        ensures prints { Prints text.now self.old self.new result }
        ensures whole { PrintsWhole text.now self.old self.new result }
    {
        if text.len() > self.limit as usize - self.text.len() {
            return Err(PrintFault::Output);
        }
        self.text.extend_from_slice(text)?;
        Ok(())
    }

    /// Keeps the first bytes of what was printed, at most `len`.
    pub(crate) fn cut(&mut self, len: usize)
        ensures { self.new ≡ printed (take len self.old.text) self.old.limit }
    {
        self.text.truncate(len);
    }

    /// Prints three texts, or nothing. Room for all three is reserved before the first is printed.
    pub(crate) fn print_parts(
        &mut self,
        front: &[u8],
        middle: &[u8],
        back: &[u8],
    ) -> Result<(), PrintFault>
        ensures prints { Prints (front.now ++ (middle.now ++ back.now)) self.old self.new result }
        ensures whole { PrintsWhole (front.now ++ (middle.now ++ back.now)) self.old self.new result }
    {
        let room = self.limit as usize - self.text.len();
        let Some(len) = len_within(room, front, middle, back) else {
            return Err(PrintFault::Output);
        };
        self.text.reserve(len)?;
        append(&mut self.text, front);
        append(&mut self.text, middle);
        append(&mut self.text, back);
        Ok(())
    }

    /// `saveenv`: saves the session, and prints which copy was written. Its room is reserved before anything is saved.
    pub fn save(&mut self, session: &mut Session) -> Result<(), PrintFault>
        ensures { Saves session.old session.new self.old self.new result }
    {
        if SAVED_LEN > self.limit as usize - self.text.len() {
            return Err(PrintFault::Output);
        }
        self.text.reserve(SAVED_LEN)?;
        match session.save() {
            Ok(side) => {
                append(&mut self.text, saved_line(side));
                Ok(())
            }
            Err(_) => Err(PrintFault::Memory),
        }
    }
}

/// How many bytes three texts have together, if that is at most `room`.
fn len_within(room: usize, front: &[u8], middle: &[u8], back: &[u8]) -> Option<usize>
    ensures { SomeIff result (length front.now + (length middle.now + length back.now) ≤ room)
        (length front.now + (length middle.now + length back.now)) }
{
    let left = room
        .checked_sub(front.len())?
        .checked_sub(middle.len())?
        .checked_sub(back.len())?;
    Some(room - left)
}

/// Appends a text for which there is room.
fn append(output: &mut Vec<u8>, text: &[u8])
    requires { vec_len output.old + length text.now ≤ vec_capacity output.old }
    ensures items { output.new.items ≡ output.old.items ++ text.now }
    ensures len { vec_len output.new ≡ vec_len output.old + length text.now }
    ensures capacity { vec_capacity output.old ≤ vec_capacity output.new }
{
    let appended = output.extend_from_slice(text);
    // It tells the prover that there is room, so this isn't refused.
    prove!(appended.is_ok());
}

/// The length of the line that a save prints.
const SAVED_LEN: usize = 13;

/// The line that a save of this copy prints.
fn saved_line(side: Side) -> &'static [u8]
    ensures text { result.now ≡ saved_line side }
    ensures len { length result.now ≡ SAVED_LEN }
{
    match side {
        Side::First => b"Saved copy 1\n",
        Side::Second => b"Saved copy 2\n",
    }
}
