//! Which of two copies is current.
ghost use Rattle.std.specs.Prelude.{◌≡◌};
ghost use Rattle.envimg_core.specs.State.{choice_of, choice_by_flags};

use crate::state::CopyState;

/// The flag that counts up to 0.
const LAST_FLAG: u8 = 255;

/// Which stored copy holds the environment.
#[derive(Clone, Copy, Debug, PartialEq, Eq)]
pub enum Choice {
    /// The first copy, or the only one.
    First,
    /// The second copy.
    Second,
    /// No copy is good: the default environment is used.
    Neither,
}

/// The current copy of two, by their states; of a single image the second is `BadLength`.
///
/// docs/images.md, "Choice", has the table and its reasons.
pub fn choose(first: CopyState, second: CopyState) -> Choice
    ensures { result ≡ choice_of first second }
{
    match (first, second) {
        (CopyState::Good(first), CopyState::Good(second)) => newer(first, second),
        (CopyState::Good(_), _) => Choice::First,
        (_, CopyState::Good(_)) => Choice::Second,
        _ => Choice::Neither,
    }
}

/// The newer of two good copies: flags count up by one with each save, and 0 comes after the last.
fn newer(first: u8, second: u8) -> Choice
    ensures { result ≡ choice_by_flags first second }
{
    match (first, second) {
        (LAST_FLAG, 0) => Choice::Second,
        (0, LAST_FLAG) => Choice::First,
        _ if first < second => Choice::Second,
        _ => Choice::First,
    }
}
