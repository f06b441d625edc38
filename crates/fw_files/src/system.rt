//! What the program asks of its system besides std's files: files that are read or made whole, locks on open files, the
//! time, and whether somebody types the input or watches what is said.
ghost use Rattle.std.specs.Prelude.{IfOk};
ghost use Rattle.fw_files.specs.FileTexts.{GivesHeld, Holds, TakesWritten};

use std::fs::{File, OpenOptions, TryLockError};
use std::io::{self, IsTerminal, Stderr, Write};
use std::rt::Files;
use std::thread;
use std::time::{Clock, Duration, Instant};

/// How often a lock is tried at most before it is waited for, with a pause of so many milliseconds after each time.
const TRIES: u32 = 100;

const PAUSE: u64 = 10;

/// Who else may have a lock on the same file.
#[derive(Clone, Copy, Debug, PartialEq, Eq)]
pub enum Hold {
    /// Others that read.
    Shared,
    /// Nobody.
    Alone,
}

/// What tries to lock a file came to.
#[derive(Clone, Copy, Debug, PartialEq, Eq)]
pub enum Attempt {
    /// It is locked.
    Locked,
    /// Another program has a lock on it.
    Held,
    /// It can't be locked.
    Failed,
}

/// The system under the program. A test replaces it, as it does std's files.
pub trait System: Files {
    /// Which bytes the file at a path holds. No code can tell for any system, so a contract that says of a text that a file
    /// holds it is met only by what that file gives when it is opened here and read to its end.
    ghost holds: { Self → Holds };

    /// Which bytes were written into the file at a path, emptied before.
    ghost wrote: { Self → Holds };

    /// Opens the file at a path to be read.
    fn open_to_read(&self, path: &str) -> io::Result<Self::File>
        ensures { IfOk result (GivesHeld Self.File Self.File.remaining (holds self.now path.now)) };

    /// Opens the file at a path to be written, emptied, or made if it isn't there.
    fn open_emptied(&self, path: &str) -> io::Result<Self::File>
        ensures { IfOk result (TakesWritten Self.File Self.File.contents (wrote self.now path.now)) };

    /// Tries for a second to take the advisory lock on an open file, which lasts until the file is closed.
    fn try_lock(&self, file: &Self::File, hold: Hold) -> Attempt;

    /// Waits for that lock; false if the file can't be locked.
    fn lock(&self, file: &Self::File, hold: Hold) -> bool;

    /// A writer to somebody at a terminal.
    type Screen: Write + Drop;

    /// That to somebody who types the input, if it is typed at a terminal.
    fn screen(&self) -> Option<Self::Screen>;

    /// That to somebody who watches standard error, if it is a terminal.
    fn watched(&self) -> Option<Self::Screen>;

    /// How much time has gone by since some moment; nothing if there is no clock.
    fn time(&self) -> Duration;
}

impl System for HostRuntime {
    ghost holds = { λ _ _ _. Unit {0} };

    ghost wrote = { λ _ _ _. Unit {0} };

    fn open_to_read(&self, path: &str) -> io::Result<File> {
        OpenOptions::new().read(true).open(self, path)
    }

    fn open_emptied(&self, path: &str) -> io::Result<File> {
        OpenOptions::new()
            .write(true)
            .create(true)
            .truncate(true)
            .open(self, path)
    }

    fn try_lock(&self, file: &File, hold: Hold) -> Attempt {
        let begun = Instant::now(self).ok();
        for _ in 0..TRIES {
            match tried_once(file, hold) {
                Attempt::Held if !is_over(self, &begun) => thread::sleep(
                    self,
                    Duration::from_millis(PAUSE),
                ),
                attempt => return attempt,
            }
        }
        Attempt::Held
    }

    fn lock(&self, file: &File, hold: Hold) -> bool {
        let locked = match hold {
            Hold::Shared => file.lock_shared(),
            Hold::Alone => file.lock(),
        };
        locked.is_ok()
    }

    type Screen = Stderr;

    fn screen(&self) -> Option<Stderr> {
        if self.stdin().is_terminal() {
            Some(self.stderr())
        } else {
            None
        }
    }

    fn watched(&self) -> Option<Stderr> {
        let errors = self.stderr();
        if errors.is_terminal() {
            Some(errors)
        } else {
            None
        }
    }

    fn time(&self) -> Duration {
        self.monotonic().unwrap_or(Duration::ZERO)
    }
}

/// What one try comes to.
fn tried_once(file: &File, hold: Hold) -> Attempt {
    let tried = match hold {
        Hold::Shared => file.try_lock_shared(),
        Hold::Alone => file.try_lock(),
    };
    match tried {
        Ok(()) => Attempt::Locked,
        Err(TryLockError::WouldBlock) => Attempt::Held,
        Err(TryLockError::Error(_)) => Attempt::Failed,
    }
}

/// Whether a second has gone by, as far as the clock says.
fn is_over(clock: &impl Clock, begun: &Option<Instant>) -> bool {
    match begun {
        Some(begun) => matches!(begun.elapsed(clock), Ok(passed) if passed.as_secs() > 0),
        None => false,
    }
}
