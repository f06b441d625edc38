//! The forms of a word that the grammar asks for (docs/scripts.md, "Grammar").

ghost use Rattle.std.specs.Prelude.{◌≡◌, take, drop, is_some, map, IfSome};
ghost use Rattle.std.specs.List.{list_all};
ghost use Rattle.std.specs.Option.{option_map};
ghost use Rattle.hush_words.specs.Forms.{is_plain, goes_on, name_of, assignment_of, split_of};
ghost use Rattle.hush_words.specs.Parts.{part_atoms, range_bytes, word_atoms};
ghost use Rattle.hush_words.specs.Reading.{piece_atoms_left, piece_at};
ghost use Rattle.hush_words.specs.Views.{SidesBegin, assignment_view, equals_place};
ghost use Rattle.hush_words.specs.Words.{is_bare};
ghost use Rattle.hush_words.specs.Words.Atom.{Plain};
ghost use Rattle.hush_words.specs.Steps.{PlainRest, NameStep, NameFrom, SplitsAt, StandsAt};
ghost use Rattle.hush_words.specs.Ranges.{Fits, IsShort};

use crate::classes::{
    Class, begins_name, byte_at, ends_word, is_bare, is_in_name, is_joined_line, is_special,
    run_end, stands_at,
};
use crate::reads::NamePlace;
use crate::words::piece;
use crate::{Part, Parts, Text, Word};

/// The two sides of an assignment.
#[derive(Clone, Copy, Debug, PartialEq, Eq)]
pub struct Assignment {
    /// The variable: a word that is a name.
    pub name: Word,
    /// What is after the `=`. It may have no bytes.
    pub value: Word,
}

impl Word {
    /// Whether the word is this text, in unquoted plain bytes alone. A joined line within it doesn't count.
    pub fn is_plain(self, text: &Text, bytes: &[u8]) -> bool
        ensures { result ≡ is_plain bytes.now (word_atoms text.now self) }
    {
        are_plain(text.parts(self), text.source(), bytes)
    }

    /// The bytes that the word is written in, if each of them stands for itself.
    pub fn bare(self, text: &Text) -> Option<&[u8]>
        ensures bytes { IfSome result (λ bytes. word_atoms text.now self ≡ map Plain bytes.now) }
        ensures only { is_some result ≡ list_all is_bare (range_bytes text.now.source self.start self.end) }
    {
        let bytes = written_in(self, text.source());
        if are_bare(bytes) { Some(bytes) } else { None }
    }

    /// Whether the word is a name, in unquoted plain bytes alone: a letter or `_`, then letters, digits and `_`.
    pub fn is_name(self, text: &Text) -> bool
        ensures { result ≡ is_some (name_of (word_atoms text.now self)) }
    {
        is_name_at(front(text.source(), self.end), self.start as usize)
    }

    /// The two sides of an assignment; `None` if the word doesn't have that form.
    pub fn assignment(self, text: &Text) -> Option<Assignment>
        ensures sides { option_map (assignment_view text.now) result ≡ split_of (word_atoms text.now self) }
        ensures places { IfSome result (SidesBegin text.now self.start) }
    {
        match equals_from(front(text.source(), self.end), self.start as usize) {
            Some(at) => Some(Assignment {
                name: Word {
                    start: self.start,
                    end: at as u32,
                },
                value: Word {
                    start: at as u32 + 1,
                    end: self.end,
                },
            }),
            None => None,
        }
    }
}

/// The bytes before a place, as far as there are any.
fn front(source: &[u8], end: u32) -> &[u8]
    ensures { result.now ≡ take end source.now }
{
    &source[..(end as usize).min(source.len())]
}

/// The bytes that a word is written in, as far as there are any.
fn written_in(word: Word, source: &[u8]) -> &[u8]
    ensures { result.now ≡ range_bytes source.now word.start word.end }
{
    let front = front(source, word.end);
    &front[(word.start as usize).min(front.len())..]
}

/// Whether each byte stands for itself.
fn are_bare(bytes: &[u8]) -> bool
    ensures { result ≡ list_all is_bare bytes.now }
{
    bytes.iter().all(|b| is_bare(*b))
}

/// Whether the parts are this text, in unquoted plain bytes alone.
fn are_plain(parts: Parts<'_>, source: &[u8], text: &[u8]) -> bool
    requires { parts.source ≡ source.now }
    ensures { result ≡ is_plain text.now parts.entry.atoms }
{
    let mut left = parts;
    let mut rest = text;
    while let Some(part) = left.next_part() {
        match plain_rest(part, source, rest) {
            Some(behind) => rest = behind,
            None => return false,
        }
    }
    rest.is_empty()
}

/// What the text has left after a part in unquoted plain bytes; `None` if it doesn't begin with them.
fn plain_rest<'a>(part: Part, source: &[u8], text: &'a [u8]) -> Option<&'a [u8]>
    requires { Fits source.now part }
    ensures { PlainRest (part_atoms source.now part) text.now (option_map (λ behind. behind.now) result) }
{
    match part.plain(source) {
        Some(span) => {
            let bytes = span.of(source);
            if text.starts_with(bytes) {
                Some(&text[bytes.len()..])
            } else {
                None
            }
        }
        None => None,
    }
}

/// Whether a word that begins at the place is a name.
fn is_name_at(source: &[u8], start: usize) -> bool
    requires { IsShort source.now }
    ensures { result ≡ is_some (name_of (piece_atoms_left (drop start source.now))) }
{
    let name = name_from(source, start);
    if is_piece_at(source, name.at) {
        false
    } else {
        name.begun
    }
}

/// Whether a piece of a word is at the place.
fn is_piece_at(source: &[u8], at: usize) -> bool
    requires { IsShort source.now }
    ensures { result ≡ is_some (piece_at (drop at source.now)) }
{
    match byte_at(source, at) {
        Some(first) => begins_piece(source, at, first),
        None => false,
    }
}

/// The same if this byte is at the place.
fn begins_piece(source: &[u8], at: usize, first: u8) -> bool
    requires few { IsShort source.now }
    requires here { StandsAt source.now at first }
    ensures { result ≡ is_some (piece_at (drop at source.now)) }
{
    if ends_word(first) {
        false
    } else if is_special(first) {
        piece(source, at, first).is_ok()
    } else {
        true
    }
}

/// Where the `=` of an assignment that begins at the place is.
fn equals_from(source: &[u8], start: usize) -> Option<usize>
    requires { IsShort source.now }
    ensures splits { SplitsAt source.now start result }
    ensures first { IfSome result (λ at. at ≡ equals_place source.now start) }
{
    let name = name_from(source, start);
    if !name.begun {
        None
    } else if stands_at(source, name.at, b'=') {
        Some(name.at)
    } else {
        None
    }
}

/// Where the name that unquoted plain bytes at the place begin ends, and whether it has any.
fn name_from(source: &[u8], start: usize) -> NamePlace
    requires { IsShort source.now }
    ensures name { NameFrom source.now start result }
    ensures before { equals_place source.now start ≡ equals_place source.now result.at }
{
    let mut here = NamePlace {
        at: start,
        begun: false,
    };
    while let Some(next) = name_step(source, here) {
        here = next;
    }
    here
}

/// Where the name goes on after what continues it at the place, be it a joined line; `None` if nothing does.
fn name_step(source: &[u8], here: NamePlace) -> Option<NamePlace>
    requires { IsShort source.now }
    ensures goes { NameStep source.now here result }
    ensures before { IfSome result (λ next. equals_place source.now here.at ≡ equals_place source.now next.at) }
{
    match byte_at(source, here.at) {
        Some(first) => name_step_from(source, here, first),
        None => None,
    }
}

/// The same if this byte is at the place.
fn name_step_from(source: &[u8], here: NamePlace, first: u8) -> Option<NamePlace>
    requires few { IsShort source.now }
    requires here { StandsAt source.now here.at first }
    ensures goes { NameStep source.now here result }
    ensures before { IfSome result (λ next. equals_place source.now here.at ≡ equals_place source.now next.at) }
{
    if goes_on(here.begun, first) {
        Some(NamePlace {
            at: run_end(Class::Name, source, here.at),
            begun: true,
        })
    } else if is_joined_line(source, here.at) {
        Some(NamePlace {
            at: here.at + 2,
            begun: here.begun,
        })
    } else {
        None
    }
}

/// Whether a name can go on with this byte, or begin with it.
fn goes_on(begun: bool, b: u8) -> bool
    ensures { result ≡ goes_on begun b }
{
    if begun { is_in_name(b) } else { begins_name(b) }
}
