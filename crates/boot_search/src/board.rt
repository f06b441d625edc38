//! A board: what a power-on does over a stored environment, for the answers that its hardware gives.
ghost use Rattle.std.specs.Prelude.{◌≡◌, ◌++◌, List, ℕ, IfOk, OnOk, map};
ghost use Rattle.boot_search.specs.Outcomes.{Given, Outcome, given_of, outcome_of};

use std::alloc::{AllocError, Global};

/// How a power-on ended (docs/boot.md).
#[derive(Clone, Copy, Debug, PartialEq, Eq)]
pub enum End {
    /// A system was started.
    Boots,
    /// The board was reset.
    Resets,
    /// The script came to its end and nothing was started.
    GivesUp,
    /// It can't be told: a limit of the run was met.
    Unknown,
}

/// An answer that the hardware gives to a question (docs/boot.md).
#[derive(Drop)]
pub struct Answer {
    /// The words of the call that it is given to, a 0 byte after each.
    pub question: Vec<u8>,
    /// Which of the question's answers it is, from 0.
    pub choice: u8,
}

/// What a power-on came to with the answers that it was given (docs/boot.md).
#[derive(Drop)]
pub enum Turn {
    /// It asks one more question.
    Asks {
        /// The words of the call that asks, a 0 byte after each.
        question: Vec<u8>,
        /// How many answers the question has: 0, 1 and on.
        choices: u8,
    },
    /// It ended.
    Ends {
        /// How it ended.
        end: End,
        /// What ended it: the words of a command, a 0 byte after each; the name of a limit and a 0 byte; or nothing.
        by: Vec<u8>,
        /// The environment that is stored then.
        next: Vec<u8>,
    },
}

/// A board with an environment stored on it, on which a power-on can be tried again and again: a try leaves no trace
/// (docs/boot.md).
pub trait Powered: Drop {
    /// What a power-on comes to, with the answers to its questions in the order in which they come up.
    ghost run: { Self → List Given → Outcome };

    /// One power-on with these answers. If memory runs out it answers `AllocError`, and may be left in any state.
    fn power_on(&mut self, alloc: Global, answers: &[Answer]) -> Result<Turn, AllocError>
        ensures turn { IfOk result (λ turn. outcome_of turn ≡ run self.old (map given_of answers.now)) }
        ensures same { OnOk result (run self.new ≡ run self.old) };
}

/// A board, on which any environment can be stored (docs/boot.md).
pub trait Board {
    /// The board with an environment stored on it.
    type With: Powered;

    /// What a power-on over a stored environment comes to, with the answers to its questions in the order in which
    /// they come up.
    ghost runs: { Self → List ℕ → List Given → Outcome };

    /// The lines that say what a stored environment is.
    ghost tells: { Self → List ℕ → List ℕ };

    /// The board with this environment stored on it. If memory runs out it answers `AllocError`.
    fn with(&self, alloc: Global, stored: &[u8]) -> Result<Self::With, AllocError>
        ensures { IfOk result (λ powered. Self.With.run powered ≡ runs self.now stored.now) };

    /// Appends whole lines that say what a stored environment is. If memory runs out it answers `AllocError`.
    fn tell(&self, alloc: Global, text: &mut Vec<u8>, stored: &[u8]) -> Result<(), AllocError>
        ensures { OnOk result (text.new.items ≡ text.old.items ++ tells self.now stored.now) };
}
