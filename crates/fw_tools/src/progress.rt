//! How far the power-ons of a board have come, for somebody who watches standard error at a terminal.

use fw_boots::Watch;
use fw_engines::streams::say;
use fw_files::System;
use std::alloc::AllocError;
use std::cell::Cell;
use std::time::Duration;

/// How many seconds nothing is shown, and how many a line stays.
const PAUSE: u64 = 1;

/// What wipes the line.
const WIPE: &[u8] = b"\r\x1b[K";

/// A line on the screen of `rt` that tells how far a search has come.
#[derive(Drop)]
pub(crate) struct Progress<'a, X: System + AllocGlobal> {
    rt: &'a X,
    stored: Cell<u64>,
    ways: Cell<u64>,
    /// When the next line is shown; never if nobody watches.
    next: Cell<Option<Duration>>,
    is_shown: Cell<bool>,
}

impl<'a, X: System + AllocGlobal> Progress<'a, X> {
    /// That of a search that begins.
    pub(crate) fn new(rt: &'a X) -> Progress<'a, X> {
        let next = match rt.watched() {
            Some(_screen) => rt.time().checked_add(Duration::from_secs(PAUSE)),
            None => None,
        };
        Progress {
            rt,
            stored: Cell::new(0),
            ways: Cell::new(0),
            next: Cell::new(next),
            is_shown: Cell::new(false),
        }
    }

    /// Wipes the line, if there is one.
    pub(crate) fn wipe(&self) {
        if self.is_shown.get() {
            self.show(WIPE);
        }
    }

    /// Shows how far the search has come, if a line is due.
    fn show_due(&self) {
        let Some(due) = self.next.get() else {
            return;
        };
        let now = self.rt.time();
        if now < due {
            return;
        }
        self.next.set(now.checked_add(Duration::from_secs(PAUSE)));
        if let Ok(line) = self.line() {
            self.show(line.as_bytes());
            self.is_shown.set(true);
        }
    }

    /// The line, in the place of the one before.
    fn line(&self) -> Result<String, AllocError> {
        let (ways, stored) = (self.ways.get(), self.stored.get());
        format!(in self.rt.alloc(); "\r\x1b[Kstored environments: {stored}, ways: {ways}")
    }

    /// Writes on the screen, as far as that takes it.
    fn show(&self, text: &[u8]) {
        if let Some(mut screen) = self.rt.watched() {
            say(&mut screen, text);
        }
    }
}

impl<X: System + AllocGlobal> Watch for Progress<'_, X> {
    fn stored(&self) {
        self.stored.set(self.stored.get().saturating_add(1));
    }

    fn way(&self) {
        self.ways.set(self.ways.get().saturating_add(1));
        self.show_due();
    }
}
