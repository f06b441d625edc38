//! Places in the text that an environment was read from.
ghost use Rattle.std.specs.Prelude.{◌≡◌, ◌≤◌, Ok, false, length, map};
ghost use Rattle.std.specs.List.{after_first};
ghost use Rattle.envcfg_core.specs.Entries.{entry_view};
ghost use Rattle.envcfg_core.specs.Import.{import_of};
ghost use Rattle.envimg_core.specs.Environment.{is_equals};
ghost use Rattle.text_parts.specs.Bytes.{is_newline};
ghost use Rattle.fw_check.specs.EntryPlaces.{AreThere, Spells, after_lines, below, entry_of, is_escape, line_with, lines_before, place_in_entry, spelled_length, text_view};

use envcfg_core::TextEntry;
use fw_engines::{Place, Pointer};
use hush_calc::is_text;
use memchr::memchr;
use std::marker::Model;

/// The text that an environment was read from.
#[derive(Clone, Copy, Debug)]
pub struct EnvironmentText<'t> {
    /// The path of its file.
    pub path: &'t [u8],
    /// What is in it, as a text for import.
    pub text: &'t [u8],
    /// Its entries.
    pub entries: &'t [TextEntry],
}

/// The places in the value of an entry. Those that are asked for in ascending order take one pass over it together.
#[derive(Drop)]
pub(crate) struct EntryPlaces<'t> {
    /// How many lines are before the entry.
    before: usize,
    /// The text from the value on, and how many bytes of its first line are before it.
    value: &'t [u8],
    start: usize,
    /// So many bytes of the value are spelled by so many of its text.
    count: usize,
    spelled: usize,
    pointer: Pointer<'t>,
}

impl<'t> Model for EntryPlaces<'t> {
    ghost use Rattle.std.specs.Prelude.{◌≡◌, ◌≤◌, ◌<◌, ◌^◌, ◌-◌, false, length};
    ghost use Rattle.fw_check.specs.EntryPlaces.{EntryText, spelled_length};

    ghost Value = { EntryText };

    ghost view = { λ a. record { before = a.before; text = a.pointer; value = a.value.now } };

    ghost invariant = { λ a. (a.start ≡ length a.pointer - length a.value.now) × (length a.value.now ≤ length a.pointer)
        × (a.spelled ≡ spelled_length false a.count a.value.now) × (a.spelled ≤ length a.value.now) × (length a.pointer < 2 ^ 64) };
}

impl<'t> EntryPlaces<'t> {
    /// Those of the last entry of a name.
    pub(crate) fn of(text: EnvironmentText<'t>, name: &[u8]) -> EntryPlaces<'t>
        ensures entry { result ≡ entry_of (text_view text.entry) name.now }
        ensures there { import_of text.entry.text.now ≡ Ok (map entry_view text.entry.entries.now)
            → AreThere text.entry.text.now (map entry_view text.entry.entries.now) }
    {
        let before = lines_before(text.entries, name);
        let line = after_lines(text.text, before);
        let value = after_equals(line);
        EntryPlaces {
            before,
            value,
            start: line.len() - value.len(),
            count: 0,
            spelled: 0,
            pointer: Pointer::new(line),
        }
    }

    /// The place after `count` bytes of the value.
    pub(crate) fn place(&mut self, count: usize) -> Place
        ensures place { result ≡ place_in_entry self.old count }
        ensures kept { self.new ≡ self.old }
    {
        let (known, spelled) = self.known(count);
        self.spelled = spelled + spelled_length(&self.value[spelled..], count - known);
        self.count = count;
        below(self.before, self.pointer.place(self.start + self.spelled))
    }

    /// A known place at or before `count` bytes of the value: how many of them are before it, and of its text.
    fn known(&self, count: usize) -> (usize, usize)
        ensures before { result.0 ≤ count }
        ensures spelled { result.1 ≡ spelled_length false result.0 self.now.value }
        ensures few { result.1 ≤ length self.now.value }
    {
        if self.count <= count {
            (self.count, self.spelled)
        } else {
            (0, 0)
        }
    }
}

/// How many lines are before the last entry of a name.
fn lines_before(entries: &[TextEntry], name: &[u8]) -> usize
    ensures { result ≡ lines_before (map entry_view entries.now) name.now }
{
    let mut before = 0;
    for entry in entries {
        before = line_with(name, before, entry);
    }
    before
}

/// The same for one entry more.
fn line_with(name: &[u8], before: usize, entry: &TextEntry) -> usize
    ensures { result ≡ line_with name.now before (entry_view entry.now) }
{
    if is_text(name, &entry.name) {
        entry.line.saturating_sub(1)
    } else {
        before
    }
}

/// What follows so many lines.
fn after_lines(text: &[u8], count: usize) -> &[u8]
    ensures { result.now ≡ after_lines count text.now }
{
    let mut rest = text;
    for _ in 0..count {
        rest = after_newline(rest);
    }
    rest
}

/// What is after the first newline, or nothing if there is no newline.
fn after_newline(text: &[u8]) -> &[u8]
    ensures { result.now ≡ after_first is_newline text.now }
{
    match memchr(b'\n', text) {
        Some(at) => &text[at + 1..],
        None => &[],
    }
}

/// What is after the first `=`, or nothing.
fn after_equals(text: &[u8]) -> &[u8]
    ensures rest { result.now ≡ after_first is_equals text.now }
    ensures shorter { length result.now ≤ length text.now }
{
    match memchr(b'=', text) {
        Some(at) => &text[at + 1..],
        None => &[],
    }
}

/// How many bytes of a value's text spell the first `count` bytes of the value.
fn spelled_length(text: &[u8], count: usize) -> usize
    ensures value { result ≡ spelled_length false count text.now }
    ensures few { result ≤ length text.now }
    ensures spells { Spells text.now count result }
{
    let mut left = count;
    let mut escaped = false;
    let mut length = 0;
    for byte in text {
        if left == 0 {
            return length;
        }
        length += 1;
        escaped = is_escape(escaped, *byte);
        if !escaped {
            left -= 1;
        }
    }
    length
}

/// Whether a byte makes the next one literal.
fn is_escape(escaped: bool, byte: u8) -> bool
    ensures { result ≡ is_escape escaped byte }
{
    byte == b'\\' && !escaped
}

/// A place as it counts after so many lines.
fn below(before: usize, place: Place) -> Place
    ensures { result ≡ below before place }
{
    Place {
        line: before.saturating_add(place.line),
        column: place.column,
    }
}
