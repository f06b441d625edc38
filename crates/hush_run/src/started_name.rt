//! The variable whose text runs.
ghost use Rattle.std.specs.Prelude.{◌≡◌};
ghost use Rattle.hush_run.specs.Resume.{place_of, variable_above};

use crate::frames::{Frame, Frames};
use hush_commands::FieldQueue;
use std::marker::Model;

/// The name of a variable whose text `run` started. It takes no memory: it owns the names that `run` was given.
#[derive(Drop)]
pub struct StartedName {
    names: FieldQueue,
}

impl Model for StartedName {
    ghost use Rattle.std.specs.Prelude.{ℕ, List, [], get_or};

    ghost Value = { List ℕ };

    ghost view = { λ a. get_or a.names 0 [] };
}

impl StartedName {
    /// Its bytes.
    pub fn as_bytes(&self) -> &[u8]
        ensures { result.now ≡ self.now }
    {
        match self.names.fields().next() {
            Some(name) => name,
            None => &[],
        }
    }
}

/// Takes frames until one comes after a text that `run` started: its name. `None` if no text was started.
pub(crate) fn running_name(frames: &mut Frames) -> Option<StartedName>
    ensures { result ≡ place_of frames.old.frames }
{
    while let Some(frame) = frames.pop() {
        if let Some(name) = name_above(frame) {
            return Some(name);
        }
    }
    None
}

/// The variable whose text a frame comes after, if any.
fn name_above(frame: Frame) -> Option<StartedName>
    ensures { result ≡ variable_above frame }
{
    match frame {
        Frame::Started { names } => {
            if names.is_empty() {
                None
            } else {
                Some(StartedName { names })
            }
        }
        _ => None,
    }
}
