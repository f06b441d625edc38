//! The parts of a word, read from its bytes one by one.

ghost use Rattle.std.specs.Prelude.{◌≡◌, ℕ, ◌+◌, ◌<◌, ◌≤◌, List, Some, true, length, drop, map};
ghost use Rattle.hush_words.specs.Bytes.{double_quote, dollar, single_quote, backslash};
ghost use Rattle.hush_words.specs.Words.{is_special};
ghost use Rattle.hush_words.specs.Words.Atom.{Quoted};
ghost use Rattle.hush_words.specs.Parts.{range_bytes};
ghost use Rattle.hush_words.specs.Ranges.{IsShort, TakesPart, FitsSome};
ghost use Rattle.hush_words.specs.declared.parts.Part.TheVariants as part;
ghost use Rattle.hush_words.specs.Steps.{StandsAt, Closes, Steps, StepsTo, place_in, optional_atoms};

use crate::classes::{Class, byte_at, ends_word, is_bare, place_of, run_end};
use crate::dollars::{byte_part, dollar};
use crate::quotes::{double, inner, single};
use crate::reads::{Inside, Place, PlaceRead};
use crate::{Part, Span};
use std::marker::Model;

/// The parts of a word that aren't taken yet. They are read from the word's bytes as they are taken, without memory.
#[derive(Debug, Drop)]
pub struct Parts<'t> {
    source: &'t [u8],
    end: usize,
    place: Place,
}

impl<'t> Model for Parts<'t> {
    ghost use Rattle.std.specs.Prelude.{◌≤◌, ◌-◌, length, take, drop};
    ghost use Rattle.hush_words.specs.Ranges.{IsShort, PartsLeft};
    ghost use Rattle.hush_words.specs.Steps.{atoms_left, Closes};

    ghost Value = { PartsLeft };

    ghost view = { λ p. record {
      source = p.source.now;
      atoms = atoms_left p.place.inside (drop p.place.at (take p.end p.source.now));
      bytes = p.end - p.place.at;
    } };

    ghost invariant = { λ p. IsShort p.source.now × (p.end ≤ length p.source.now) × Closes p.place.inside (drop p.place.at (take p.end p.source.now)) };
}

impl<'t> Parts<'t> {
    ghost use Rattle.hush_words.specs.Reading.{piece_atoms_left};

    /// The parts of these bytes of the source, as far as there are such bytes.
    pub(crate) fn new(source: &'t [u8], start: usize, end: usize) -> Parts<'t>
        requires { IsShort source.now }
        ensures source { result.source ≡ source.now }
        ensures atoms { result.atoms ≡ piece_atoms_left (range_bytes source.now start end) }
        ensures bytes { result.bytes ≤ length source.now }
    {
        Parts {
            source,
            end: end.min(source.len()),
            place: Place {
                at: start,
                inside: Inside::Nothing,
            },
        }
    }

    /// Takes the part that comes next, if one is left.
    #[inline(always)]
    pub fn next_part(&mut self) -> Option<Part>
        ensures { TakesPart self.old self.new result }
    {
        match part_from(&self.source[..self.end], self.place) {
            Some((part, place)) => {
                self.place = place;
                Some(part)
            }
            None => None,
        }
    }
}

/// Reads the part that comes next at a place of a word, whose bytes end with this source.
#[inline(always)]
fn part_from(source: &[u8], place: Place) -> Option<(Part, Place)>
    requires few { IsShort source.now }
    requires closes { Closes place.inside (drop place.at source.now) }
    ensures { StepsTo source.now place result }
{
    let mut here = place;
    while let Some(PlaceRead { part, next }) = step(source, here) {
        match part {
            Some(part) => return found(part, next),
            None => here = next,
        }
    }
    None
}

/// A part, and the place after it.
fn found(part: Part, next: Place) -> Option<(Part, Place)>
    ensures { result ≡ Some (part, next) }
{
    Some((part, next))
}

/// Reads what is at a place of a word; `None` if the word ends.
#[inline(always)]
fn step(source: &[u8], place: Place) -> Option<PlaceRead>
    requires few { IsShort source.now }
    requires closes { Closes place.inside (drop place.at source.now) }
    ensures { Steps source.now place result }
{
    match place.inside {
        Inside::Nothing => match byte_at(source, place.at) {
            Some(first) => step_from(source, place.at, first),
            None => None,
        },
        Inside::Single => Some(single_rest(source, place.at)),
        Inside::Double => Some(double_step(source, place.at)),
    }
}

/// Reads what begins with this byte outside of quotes; `None` if it ends the word.
#[inline(always)]
fn step_from(source: &[u8], at: usize, first: u8) -> Option<PlaceRead>
    requires few { IsShort source.now }
    requires here { StandsAt source.now at first }
    ensures { Steps source.now (place_in Inside.Nothing at) result }
{
    if is_bare(first) {
        let end = run_end(Class::Plain, source, at);
        Some(PlaceRead {
            part: Some(Part::Plain(Span::new(at, end))),
            next: outside(end),
        })
    } else if ends_word(first) {
        None
    } else {
        special(source, at, first)
    }
}

/// A place outside of quotes.
fn outside(at: usize) -> Place
    ensures { result ≡ place_in Inside.Nothing at }
{
    Place {
        at,
        inside: Inside::Nothing,
    }
}

/// Reads what begins with this byte outside of quotes, one of `$`, `\` and the quotes; `None` if it can't be there.
fn special(source: &[u8], at: usize, first: u8) -> Option<PlaceRead>
    requires few { IsShort source.now }
    requires here { StandsAt source.now at first }
    requires special { is_special first ≡ true }
    ensures { Steps source.now (place_in Inside.Nothing at) result }
{
    if first == b'$' {
        dollar_step(source, at)
    } else if first == b'\\' {
        backslash(source, at)
    } else if first == b'\'' {
        single_opens(source, at)
    } else {
        double_opens(source, at)
    }
}

/// Reads what an unquoted `$` begins.
fn dollar_step(source: &[u8], at: usize) -> Option<PlaceRead>
    requires few { IsShort source.now }
    requires here { StandsAt source.now at dollar }
    ensures { Steps source.now (place_in Inside.Nothing at) result }
{
    match dollar(source, at, false) {
        Some(read) => Some(PlaceRead {
            part: Some(read.part),
            next: outside(read.end),
        }),
        None => None,
    }
}

/// Reads an unquoted `\` and the byte after it.
fn backslash(source: &[u8], at: usize) -> Option<PlaceRead>
    requires few { IsShort source.now }
    requires here { StandsAt source.now at backslash }
    ensures { Steps source.now (place_in Inside.Nothing at) result }
{
    match byte_at(source, at + 1) {
        Some(next) => Some(backslash_before(source, at, next)),
        None => None,
    }
}

/// Reads an unquoted `\` before this byte.
fn backslash_before(source: &[u8], at: usize, next: u8) -> PlaceRead
    requires few { IsShort source.now }
    requires backslash { StandsAt source.now at backslash }
    requires next { StandsAt source.now (at + 1) next }
    ensures { Steps source.now (place_in Inside.Nothing at) (Some result) }
{
    PlaceRead {
        part: if next == b'\n' {
            None
        } else {
            Some(byte_part(at + 1, true).part)
        },
        next: outside(at + 2),
    }
}

/// The mark that a pair of quotes is, and the place after the one that opens it.
fn opened(at: usize, inside: Inside) -> PlaceRead
    requires { at < u32.MAX }
    ensures { result ≡ record { part = Some part.Mark; next = place_in inside (at + 1) } }
{
    PlaceRead {
        part: Some(Part::Mark),
        next: Place { at: at + 1, inside },
    }
}

/// Goes into a pair of single quotes, if it is closed.
fn single_opens(source: &[u8], at: usize) -> Option<PlaceRead>
    requires few { IsShort source.now }
    requires here { StandsAt source.now at single_quote }
    ensures { Steps source.now (place_in Inside.Nothing at) result }
{
    match single(source, at) {
        Ok(_) => Some(opened(at, Inside::Single)),
        Err(_) => None,
    }
}

/// Goes into a pair of double quotes, if it is closed.
fn double_opens(source: &[u8], at: usize) -> Option<PlaceRead>
    requires few { IsShort source.now }
    requires here { StandsAt source.now at double_quote }
    ensures { Steps source.now (place_in Inside.Nothing at) result }
{
    match double(source, at) {
        Ok(_) => Some(opened(at, Inside::Double)),
        Err(_) => None,
    }
}

/// Reads what is left between single quotes, with the one that closes them.
fn single_rest(source: &[u8], at: usize) -> PlaceRead
    requires few { IsShort source.now }
    requires closes { Closes Inside.Single (drop at source.now) }
    ensures { Steps source.now (place_in Inside.Single at) (Some result) }
{
    let end = place_of(b'\'', source, at);
    PlaceRead {
        part: quoted_part(at, end),
        next: outside(end + 1),
    }
}

/// The bytes of the range as a part, if there are any.
fn quoted_part(start: usize, end: usize) -> Option<Part>
    requires { end ≤ u32.MAX }
    ensures atoms { (source : List ℕ) → optional_atoms source result ≡ map Quoted (range_bytes source start end) }
    ensures fits { (source : List ℕ) → end ≤ length source → FitsSome source result }
{
    if start < end {
        Some(Part::Quoted(Span::new(start, end)))
    } else {
        None
    }
}

/// Reads what is at a place between double quotes, the one that closes them too.
fn double_step(source: &[u8], at: usize) -> PlaceRead
    requires few { IsShort source.now }
    requires closes { Closes Inside.Double (drop at source.now) }
    ensures { Steps source.now (place_in Inside.Double at) (Some result) }
{
    match inner(source, at) {
        Some(read) => PlaceRead {
            part: read.part,
            next: Place {
                at: read.end,
                inside: Inside::Double,
            },
        },
        None => PlaceRead {
            part: None,
            next: outside(at + 1),
        },
    }
}
