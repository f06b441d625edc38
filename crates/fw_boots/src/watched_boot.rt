//! A board whose power-ons somebody watches: it does what it does unwatched. What it has stored first is read once.

use crate::boot_board::Boot;
use crate::changes::push_changes;
use crate::powered_board::{PoweredBoard, with_stored};
use boot_search::{Answer, Board, Powered, Turn};
use envvars_core::Vars;
use std::alloc::{AllocError, Global};

/// Who watches how far a search through a board's power-ons has come (docs/boot.md).
pub trait Watch {
    /// Power-ons begin over one more stored environment.
    fn stored(&self);

    /// One more way was found: a power-on that ended.
    fn way(&self);
}

/// A board that is watched.
#[derive(Drop)]
pub(crate) struct WatchedBoot<'b, 'a, W: Watch> {
    pub(crate) boot: &'b Boot<'a>,
    /// The variables that it has stored before the first power-on.
    pub(crate) first: &'b Vars,
    pub(crate) watch: &'b W,
}

impl<'b, 'a, W: Watch> Board for WatchedBoot<'b, 'a, W> {
    ghost use Rattle.fw_boots.specs.Boots.{power_of, runs_of, tells_from};

    type With = WatchedBoard<'b, 'a, W>;

    ghost runs = { λ b stored. runs_of (power_of b.boot.now) stored };

    ghost tells = { λ b stored. tells_from b.first.now.env (power_of b.boot.now) stored };

    fn with(&self, alloc: Global, stored: &[u8]) -> Result<WatchedBoard<'b, 'a, W>, AllocError> {
        let board = with_stored(alloc, self.boot, stored)?;
        self.watch.stored();
        Ok(WatchedBoard {
            board,
            watch: self.watch,
        })
    }

    fn tell(&self, alloc: Global, text: &mut Vec<u8>, stored: &[u8]) -> Result<(), AllocError> {
        let now = self.boot.session(alloc, stored)?;
        push_changes(text, self.first, now.vars())
    }
}

/// A board that is watched, with an environment stored on it.
#[derive(Drop)]
pub(crate) struct WatchedBoard<'b, 'a, W: Watch> {
    board: PoweredBoard<'a>,
    watch: &'b W,
}

impl<'b, 'a, W: Watch> Powered for WatchedBoard<'b, 'a, W> {
    ghost use Rattle.env_session.specs.Session.{undone};
    ghost use Rattle.fw_boots.specs.Boots.{outcome_over, power_of};

    ghost run = { λ b. outcome_over (power_of b.board.boot) (undone 0 b.board.session) };

    fn power_on(&mut self, alloc: Global, answers: &[Answer]) -> Result<Turn, AllocError> {
        let turn = self.board.power_on(alloc, answers)?;
        if let Turn::Ends { .. } = &turn {
            self.watch.way();
        }
        Ok(turn)
    }
}
