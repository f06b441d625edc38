//! Words, and the parts that they are made of.
ghost use Rattle.std.specs.Prelude.{◌≡◌, ◌≤◌, IfSome};
ghost use Rattle.std.specs.Option.{option_map};
ghost use Rattle.hush_words.specs.Parts.{span_of, word_between, part_atoms, span_bytes};
ghost use Rattle.hush_words.specs.Ranges.{IsWithin, Fits};
ghost use Rattle.hush_words.specs.Steps.{ArePlain};

/// A range of the source: the bytes from `start` up to but not including `end`.
#[derive(Clone, Copy, Debug, PartialEq, Eq)]
pub struct Span {
    /// How many bytes are before the range.
    pub start: u32,
    /// How many bytes are before what follows the range.
    pub end: u32,
}

/// A part of a word (docs/scripts.md, "Words").
#[derive(Clone, Copy, Debug, PartialEq, Eq)]
pub enum Part {
    /// Bytes that stand for themselves, outside of quotes.
    Plain(Span),
    /// Bytes that stand for themselves, in quotes or after a `\`.
    Quoted(Span),
    /// A pair of quotes: no bytes, but with it even an empty word is there.
    Mark,
    /// The value of a variable: the range of its name, and whether it is in double quotes.
    Value(Span, bool),
    /// The status in decimal, and whether it is in double quotes.
    Status(bool),
}

/// A word: the bytes of the source that it is written in, from `start` up to but not including `end`. Its parts are
/// read from them anew each time.
#[derive(Clone, Copy, Debug, PartialEq, Eq)]
pub struct Word {
    /// How many bytes are before the word.
    pub start: u32,
    /// How many bytes are before what follows the word.
    pub end: u32,
}

impl Span {
    /// The range of these bounds.
    pub(crate) fn new(start: usize, end: usize) -> Span
        requires start { start ≤ u32.MAX }
        requires end { end ≤ u32.MAX }
        ensures { result ≡ span_of start end }
    {
        Span {
            start: start as u32,
            end: end as u32,
        }
    }

    /// The bytes of the range.
    pub(crate) fn of(self, source: &[u8]) -> &[u8]
        requires { IsWithin source.now self }
        ensures { result.now ≡ span_bytes source.now self }
    {
        &source[self.start as usize..self.end as usize]
    }
}

impl Word {
    /// The word of these bounds.
    pub(crate) fn new(start: usize, end: usize) -> Word
        requires start { start ≤ u32.MAX }
        requires end { end ≤ u32.MAX }
        ensures { result ≡ word_between start end }
    {
        let end = end as u32;
        Word {
            start: start as u32,
            end,
        }
    }
}

impl Part {
    /// The range of a part that is plain bytes alone, or no bytes at all.
    pub(crate) fn plain(self, source: &[u8]) -> Option<Span>
        requires { Fits source.now self }
        ensures plain { ArePlain (part_atoms source.now self) (option_map (span_bytes source.now) result) }
        ensures range { IfSome result (IsWithin source.now) }
    {
        match self {
            Part::Plain(span) => Some(span),
            Part::Quoted(span) => {
                if span.of(source).is_empty() {
                    Some(span)
                } else {
                    None
                }
            }
            Part::Mark | Part::Value(_, _) | Part::Status(_) => None,
        }
    }
}
