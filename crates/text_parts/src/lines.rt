//! The lines of a text, lent one by one with their numbers.
ghost use Rattle.std.specs.Prelude.{◌≡◌, ◌+◌, ◌<◌, ◌^◌, List, [], ◌∷◌, length, MatchOption, IfSome};
ghost use Rattle.std.specs.List.{slice_split};
ghost use Rattle.std.specs.Option.{option_map_or};
ghost use Rattle.std.specs.Iterator.{YieldsFirstBy, item_count};
ghost use Rattle.text_parts.specs.Bytes.{is_newline};
ghost use Rattle.text_parts.specs.Lines.{Line, line_view, lines_from, numbered_lines};
ghost use Rattle.text_parts.specs.LineSteps.{CutsLine};

use memchr::memchr;
use std::marker::Model;

/// The lines of a text that are left, each with its number.
#[derive(Drop)]
pub struct Lines<'a> {
    rest: Option<&'a [u8]>,
    number: usize,
}

impl<'a> Model for Lines<'a> {
    ghost Value = { List Line };

    ghost view = { λ s. option_map_or (λ rest. lines_from s.number rest.now) s.rest [] };

    ghost invariant = { λ s. IfSome s.rest (λ rest. s.number + length rest.now < 2 ^ 64) };
}

/// The lines of a text, counted from 1.
pub fn numbered_lines(text: &[u8]) -> Lines<'_>
    ensures { result ≡ numbered_lines text.now }
{
    Lines {
        rest: Some(text),
        number: 1,
    }
}

impl<'a> Iterator for Lines<'a> {
    type Item = (usize, &'a [u8]);

    ghost next_gives = { YieldsFirstBy line_view (λ s. s) };

    ghost remaining = { item_count (λ s. s) };

    fn next(&mut self) -> Option<(usize, &'a [u8])> {
        let (line, rest) = cut_line(self.rest?);
        let number = self.number;
        self.rest = rest;
        if rest.is_some() {
            self.number += 1;
        }
        Some((number, line))
    }
}

/// The first line of a text, and what follows its newline.
fn cut_line(text: &[u8]) -> (&[u8], Option<&[u8]>)
    ensures { MatchOption result.1 (slice_split is_newline text.now ≡ result.0.now ∷ [])
        (λ rest. CutsLine text.now result.0.now rest.now) }
{
    match memchr(b'\n', text) {
        Some(at) => (&text[..at], Some(&text[at + 1..])),
        None => (text, None),
    }
}
