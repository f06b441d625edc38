//! How a board is left by a command that doesn't come back (docs/runs.md, "Boards").
ghost use Rattle.std.specs.Prelude.{◌≡◌};
ghost use Rattle.hush_commands.specs.Departures.{is_asking, leaving_with};

use crate::field_queue::FieldQueue;

/// How a command leaves the board that doesn't come back.
#[derive(Clone, Copy, Debug, PartialEq, Eq)]
pub enum Leaving {
    /// It boots a system.
    Boots,
    /// It resets the board.
    Resets,
    /// It asks what the hardware answers it.
    Asks,
}

/// The call with which a run has left the board.
#[derive(Drop)]
pub struct Departure {
    /// How it leaves the board.
    pub leaving: Leaving,
    /// Its words, its name first.
    pub words: FieldQueue,
}

/// Whether the answer of a call is open.
pub(crate) fn is_asking(leaves: Option<Leaving>) -> bool
    ensures { result ≡ is_asking leaves }
{
    match leaves {
        Some(Leaving::Asks) => true,
        Some(Leaving::Boots | Leaving::Resets) | None => false,
    }
}

/// How the board is left with this status: a command that fails comes back.
pub(crate) fn leaving_with(leaves: Option<Leaving>, status: u8) -> Option<Leaving>
    ensures { result ≡ leaving_with leaves status }
{
    if status == 0 { leaves } else { None }
}
