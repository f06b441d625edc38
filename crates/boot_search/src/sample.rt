//! A board for trying the search: it counts its power-ons, and at a count it does something else.
ghost use Rattle.std.specs.Prelude.{◌≡◌, ◌<◌, map, slice_index, IfOk};
ghost use Rattle.boot_search.specs.Outcomes.{asks, ended, given_of, outcome_of};
ghost use Rattle.boot_search.specs.Sample.{counted, counts, full_by, tells_count};

use crate::{Answer, Board, End, Powered, Turn};
use itoa::Buffer;
use std::alloc::{AllocError, Global};

/// The call that saves.
const SAVE: &[u8] = b"saveenv\0";

/// The call that starts the system.
const BOOT: &[u8] = b"bootm\00x42000000\0";

/// It saves its count plus one (cut: 1), then starts the system (it fails: 1); at the full count it ends at once.
#[derive(Drop)]
pub(crate) struct CountedBoard {
    /// The full count.
    pub(crate) most: u8,
    /// How it ends then.
    pub(crate) full: End,
}

impl Board for CountedBoard {
    type With = Counted;

    ghost runs = { λ board state answers. counted board.most board.full state answers };

    ghost tells = { λ board state. tells_count state };

    fn with(&self, alloc: Global, stored: &[u8]) -> Result<Counted, AllocError> {
        Ok(Counted {
            most: self.most,
            full: self.full,
            state: stored.to_vec(alloc)?,
        })
    }

    fn tell(&self, alloc: Global, text: &mut Vec<u8>, stored: &[u8]) -> Result<(), AllocError> {
        let mut digits = Buffer::new();
        text.extend_from_slice(b"  count ")?;
        text.extend_from_slice(digits.format(count_of(stored)).as_bytes())?;
        text.extend_from_slice(b"\n")
    }
}

/// The board with a stored count.
#[derive(Drop)]
pub(crate) struct Counted {
    most: u8,
    full: End,
    state: Vec<u8>,
}

impl Powered for Counted {
    ghost run = { λ board answers. counted board.most board.full board.state.items answers };

    fn power_on(&mut self, alloc: Global, answers: &[Answer]) -> Result<Turn, AllocError> {
        let state = self.state.as_slice();
        let count = count_of(state);
        if count >= self.most {
            return ends(alloc, self.full, full_by(self.full), state);
        }
        counted_turn(alloc, count, state, answers)
    }
}

/// The stored count.
fn count_of(state: &[u8]) -> u8
    ensures { result ≡ slice_index state.now 0 }
{
    match state {
        [count, ..] => *count,
        [] => 0,
    }
}

/// What a power-on below the full count comes to.
fn counted_turn(
    alloc: Global,
    count: u8,
    state: &[u8],
    answers: &[Answer],
) -> Result<Turn, AllocError>
    requires { count < 255 }
    ensures { IfOk result (λ turn. outcome_of turn ≡ counts count state.now (map given_of answers.now)) }
{
    match answers {
        [] => asks(alloc, SAVE),
        [save, ..] if save.choice != 0 => ends(alloc, End::Resets, SAVE, state),
        [_] => asks(alloc, BOOT),
        [_, boot, ..] if boot.choice != 0 => ends(alloc, End::Resets, b"reset\0", &[count + 1]),
        [_, _, ..] => ends(alloc, End::Boots, BOOT, &[count + 1]),
    }
}

/// A question with two answers.
fn asks(alloc: Global, question: &[u8]) -> Result<Turn, AllocError>
    ensures { IfOk result (λ turn. outcome_of turn ≡ asks question.now 2) }
{
    Ok(Turn::Asks {
        question: question.to_vec(alloc)?,
        choices: 2,
    })
}

/// An end.
fn ends(alloc: Global, end: End, by: &[u8], next: &[u8]) -> Result<Turn, AllocError>
    ensures { IfOk result (λ turn. outcome_of turn ≡ ended end by.now next.now) }
{
    Ok(Turn::Ends {
        end,
        by: by.to_vec(alloc)?,
        next: next.to_vec(alloc)?,
    })
}

/// What ends it at the full count.
fn full_by(end: End) -> &'static [u8]
    ensures { result.now ≡ full_by end }
{
    match end {
        End::Boots => b"bootm\00x42000000\0",
        End::Unknown => b"steps\0",
        End::Resets | End::GivesUp => b"",
    }
}
