//! The commands that a run does, as a text (docs/dry-runs.md, "A trace").
ghost use Rattle.std.specs.Prelude.{◌≡◌, IfOk};
ghost use Rattle.hush_syntax.specs.Trees.{name_in};
ghost use Rattle.hush_run.specs.Traces.{Notes, assignment_of, traced_line};

use crate::frames::Frames;
use crate::name_words::read_name;
use fw_engines::{Place, place_of};
use hush_commands::FieldBuffer;
use hush_syntax::{Text, Word};
use itoa::Buffer;
use std::alloc::{AllocError, Global};

/// The name of a text that answers a call.
const ANSWER: &[u8] = b"answer";

/// The commands that a run does, a line for each before it is done, if that is wanted.
#[derive(Drop)]
pub struct Trace {
    /// Whether the next command gets a line.
    goes_on: bool,
    /// The name of the script.
    script: Vec<u8>,
    /// The name of the text that runs.
    name: Vec<u8>,
    /// The lines.
    text: Vec<u8>,
    /// How many bytes these may have.
    limit: u32,
}

impl Trace {
    /// No lines are wanted. It takes no memory.
    pub(crate) fn none(alloc: Global) -> Trace {
        Trace {
            goes_on: false,
            script: Vec::new(alloc),
            name: Vec::new(alloc),
            text: Vec::new(alloc),
            limit: 0,
        }
    }

    /// Lines are wanted, of a run of the script of this name.
    pub(crate) fn of(alloc: Global, script: &[u8], limit: u32) -> Trace {
        let mut trace = Trace::none(alloc);
        trace.limit = limit;
        trace.goes_on = trace.script.extend_from_slice(script).is_ok();
        trace
    }

    /// The lines of the first commands.
    pub fn text(&self) -> &[u8]
        ensures { result.now ≡ self.now.text.items }
    {
        self.text.as_slice()
    }

    /// Whether each command has its line: the limit wasn't met, and memory wasn't refused.
    pub fn is_whole(&self) -> bool
        ensures { result ≡ self.now.goes_on }
    {
        self.goes_on
    }

    /// Takes the name of the text that runs under these frames.
    #[inline(always)]
    pub(crate) fn find_text(&mut self, frames: &Frames) {
        if self.goes_on {
            self.goes_on = self.take_name(frames).is_ok();
        }
    }

    /// The same.
    fn take_name(&mut self, frames: &Frames) -> Result<(), AllocError> {
        self.name.clear();
        match frames.started() {
            None => self.name.extend_from_slice(&self.script),
            Some(names) => match names.fields().next() {
                None => self.name.extend_from_slice(ANSWER),
                Some(name) => self.name.extend_from_slice(name),
            },
        }
    }

    /// Notes a simple command of these words, which are expanded to these fields. One without words is none.
    #[inline(always)]
    pub(crate) fn note_command(
        &mut self,
        alloc: Global,
        text: &Text,
        words: &[Word],
        fields: &FieldBuffer,
    ) {
        if self.goes_on && !words.is_empty() {
            self.note_words(alloc, text, words[0], fields);
        }
    }

    /// The same of one that begins with this word.
    fn note_words(&mut self, alloc: Global, text: &Text, first: Word, fields: &FieldBuffer) {
        let place = place_of(text.source(), first.start as usize);
        match fields.fields().joined(alloc) {
            Ok(words) => self.note(alloc, place, &words),
            Err(_) => self.goes_on = false,
        }
    }

    /// Notes an assignment of the first of these fields to a name, which begins it.
    #[inline(always)]
    pub(crate) fn note_assigned(
        &mut self,
        alloc: Global,
        text: &Text,
        name: Word,
        fields: &FieldBuffer,
    ) {
        if self.goes_on {
            let value = fields.fields().next().unwrap_or(&[]);
            self.note_assignment(alloc, text, name, value);
        }
    }

    /// Notes an assignment of a value to a name, which begins it.
    pub(crate) fn note_assignment(&mut self, alloc: Global, text: &Text, name: Word, value: &[u8]) {
        if !self.goes_on {
            return;
        }
        let place = place_of(text.source(), name.start as usize);
        match assignment(alloc, text, name, value) {
            Ok(words) => self.note(alloc, place, &words),
            Err(_) => self.goes_on = false,
        }
    }

    /// Appends the line of what begins at this place, or ends before it.
    fn note(&mut self, alloc: Global, place: Place, words: &[u8])
        ensures { Notes (traced_line self.old.name.items place words.now) self.old self.new }
    {
        let room = (self.limit as usize).saturating_sub(self.text.len());
        self.goes_on = match line_of(alloc, &self.name, place, words) {
            Ok(line) => line.len() <= room && self.text.extend_from_slice(&line).is_ok(),
            Err(_) => false,
        };
    }
}

/// An assignment of a value to a name.
fn assignment(alloc: Global, text: &Text, name: Word, value: &[u8]) -> Result<Vec<u8>, AllocError>
    ensures { IfOk result (λ words. words.items ≡ assignment_of (name_in text.now name) value.now) }
{
    let mut words = Vec::new(alloc);
    read_name(text, name, &mut words)?;
    words.extend_from_slice(b"=")?;
    words.extend_from_slice(value)?;
    Ok(words)
}

/// The line of a command of these words at a place of the text of this name.
fn line_of(alloc: Global, name: &[u8], place: Place, words: &[u8]) -> Result<Vec<u8>, AllocError>
    ensures { IfOk result (λ line. line.items ≡ traced_line name.now place words.now) }
{
    let mut digits = Buffer::new();
    let mut line = Vec::from_slice(alloc, name)?;
    line.extend_from_slice(b":")?;
    line.extend_from_slice(digits.format(place.line).as_bytes())?;
    line.extend_from_slice(b":")?;
    line.extend_from_slice(digits.format(place.column).as_bytes())?;
    line.extend_from_slice(b": ")?;
    line.extend_from_slice(words)?;
    line.extend_from_slice(b"\n")?;
    Ok(line)
}
