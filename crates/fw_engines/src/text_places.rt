//! Lines and columns of a text.
ghost use Rattle.std.specs.Prelude.{◌≡◌, ◌≤◌, ◌+◌, ◌-◌, length, take, drop};
ghost use Rattle.fw_engines.specs.TextPlaces.{place_of, after_bytes};

use std::marker::Model;

/// A place in a text.
#[derive(Clone, Copy, Debug, PartialEq, Eq)]
pub struct Place {
    /// The line, from 1.
    pub line: usize,
    /// The byte in that line, from 1.
    pub column: usize,
}

/// The start of a text.
const START: Place = Place { line: 1, column: 1 };

/// The place after `count` bytes of a text.
pub fn place_of(text: &[u8], count: usize) -> Place
    ensures { result ≡ place_of text.now count }
{
    Pointer::new(text).place(count)
}

/// A place in a text that moves on: places that are asked for in ascending order take one pass over the text together.
/// To ask for an earlier place starts at the beginning again.
#[derive(Drop)]
pub struct Pointer<'t> {
    text: &'t [u8],
    /// How many bytes of the text are before it.
    count: usize,
    place: Place,
}

impl<'t> Model for Pointer<'t> {
    ghost use Rattle.std.specs.Prelude.{◌≡◌, ◌≤◌, ◌+◌, ℕ, List, length};
    ghost use Rattle.fw_engines.specs.TextPlaces.{place_of};

    ghost Value = { List ℕ };

    ghost view = { λ a. a.text.now };

    ghost invariant = { λ a. (a.place ≡ place_of a.text.now a.count) × (a.count ≤ length a.text.now)
        × (a.place.line + a.place.column ≤ a.count + 2) × (1 ≤ a.place.column) };
}

impl<'t> Pointer<'t> {
    /// The start of a text.
    pub fn new(text: &'t [u8]) -> Pointer<'t>
        ensures { result ≡ text.now }
    {
        Pointer {
            text,
            count: 0,
            place: START,
        }
    }

    /// The place after `count` bytes of the text.
    pub fn place(&mut self, count: usize) -> Place
        ensures place { result ≡ place_of self.old count }
        ensures text { self.new ≡ self.old }
    {
        let count = count.min(self.text.len());
        let (start, known) = self.known(count);
        self.place = place_after(&self.text[start..count], known, start);
        self.count = count;
        self.place
    }

    /// A known place at or before `count` bytes of the text: how many bytes are before it, and the place.
    fn known(&self, count: usize) -> (usize, Place)
        ensures before { result.0 ≤ count }
        ensures place { result.1 ≡ place_of self.now result.0 }
        ensures bound { result.1.line + result.1.column ≤ result.0 + 2 }
        ensures least { 1 ≤ result.1.column }
    {
        if self.count <= count {
            (self.count, self.place)
        } else {
            (0, START)
        }
    }
}

/// The place after these bytes, if `count` others and this place are before them.
fn place_after(bytes: &[u8], first: Place, count: usize) -> Place
    requires few { count + length bytes.now ≤ usize.MAX - 2 }
    requires bound { first.line + first.column ≤ count + 2 }
    requires least { 1 ≤ first.column }
    ensures place { result ≡ after_bytes first bytes.now }
    ensures bound { result.line + result.column ≤ count + length bytes.now + 2 }
    ensures least { 1 ≤ result.column }
{
    let mut place = first;
    for byte in bytes {
        if *byte == b'\n' {
            place.line += 1;
            place.column = 1;
        } else {
            place.column += 1;
        }
    }
    place
}
