//! The limits of a run.
ghost use Rattle.std.specs.Prelude.{◌≡◌, ◌≤◌, SomeIff};
ghost use Rattle.run_limits.specs.Limits.{Bounds, AreInRange};

use std::marker::Model;

/// The most steps that a run may be given.
pub const MOST_STEPS: u32 = 1_000_000;

/// The most starts of variables by `run` inside one another that a run may be given.
pub const MOST_DEPTH: u32 = 16;

/// The most bytes that a run may be given for a word.
pub const MOST_WORD: u32 = 65_536;

/// The most bytes that a run may be given for the text that it prints.
pub const MOST_OUTPUT: u32 = 16_777_216;

/// How far a run may go: its steps, starts of variables inside one another, bytes of a word, and bytes of its text; and
/// from which step on its saves are asked for.
#[derive(Clone, Copy, Debug, PartialEq, Eq)]
pub struct Limits {
    steps: u32,
    depth: u32,
    word: u32,
    output: u32,
    saves: Option<u32>,
}

impl Model for Limits {
    ghost use Rattle.run_limits.specs.Limits.{Bounds, AreInRange, bounds};

    ghost Value = { Bounds };

    ghost view = { λ l. record (bounds l.steps l.depth l.word l.output) { saves = l.saves } };

    ghost invariant = { λ l. AreInRange (bounds l.steps l.depth l.word l.output) };

    ghost inverse = { λ b. record { steps = b.steps; depth = b.depth; word = b.word; output = b.output; saves = b.saves } };
}

impl Limits {
    ghost use Rattle.run_limits.specs.Limits.{asking_saves, bounds, most_steps, most_depth, most_word, most_output};

    /// Limits on the steps, the starts inside one another, the bytes of a word and those of the text: `None` if one
    /// is above [`MOST_STEPS`], [`MOST_DEPTH`], [`MOST_WORD`] or [`MOST_OUTPUT`].
    pub fn new(steps: u32, depth: u32, word: u32, output: u32) -> Option<Limits>
        ensures { SomeIff result (AreInRange (bounds steps depth word output))
            (bounds steps depth word output) }
    {
        if steps > MOST_STEPS || depth > MOST_DEPTH || word > MOST_WORD || output > MOST_OUTPUT {
            return None;
        }
        Some(Limits {
            steps,
            depth,
            word,
            output,
            saves: None,
        })
    }

    /// The same limits, but a save is asked for, and not done, once this many steps are counted.
    pub fn asking_saves(self, from: u32) -> Limits
        ensures { result ≡ asking_saves self from }
    {
        let Limits {
            steps,
            depth,
            word,
            output,
            saves: _,
        } = self;
        Limits {
            steps,
            depth,
            word,
            output,
            saves: Some(from),
        }
    }

    /// How many steps are counted at most.
    pub fn steps(&self) -> u32
        ensures value { result ≡ self.now.steps }
        ensures in_range { result ≤ most_steps }
    {
        self.steps
    }

    /// How many starts of variables may be inside one another.
    pub fn depth(&self) -> u32
        ensures value { result ≡ self.now.depth }
        ensures in_range { result ≤ most_depth }
    {
        self.depth
    }

    /// How many bytes a word has at most.
    pub fn word(&self) -> u32
        ensures value { result ≡ self.now.word }
        ensures in_range { result ≤ most_word }
    {
        self.word
    }

    /// How many bytes the text has at most.
    pub fn output(&self) -> u32
        ensures value { result ≡ self.now.output }
        ensures in_range { result ≤ most_output }
    {
        self.output
    }

    /// How many steps are counted before a save is asked for: `None` if each is done.
    pub fn saves(&self) -> Option<u32>
        ensures { result ≡ self.now.saves }
    {
        self.saves
    }
}
