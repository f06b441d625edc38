//! Marks: each begins a span, in which is kept what an undo to it brings back.

ghost use Rattle.std.specs.Prelude.{◌≡◌, ◌↔◌, ◌<◌, length, OnOk, OnErr, IfOk};
ghost use Rattle.env_session.specs.Requests.{Step, MarkNow};
ghost use Rattle.env_session.specs.Session.{marked, most_marks};
ghost use Rattle.env_session.specs.SpanSteps.{on_nth, beginning};

use crate::session::Session;
use envimg_core::Choice;
use envvars_core::Olds;

/// The most marks that there may be (`most_marks`).
const MARKS_MAX: u32 = 64;

/// A span for the opening, and one for each mark.
pub(crate) const SPANS: usize = MARKS_MAX as usize + 1;

/// Why a mark is refused.
#[derive(Clone, Copy, Debug, PartialEq, Eq)]
pub enum MarkFault {
    /// There are 64 marks.
    Full,
}

impl Session {
    /// Makes a mark if there are fewer than 64, and returns its number, from 1. It takes no memory.
    ///
    /// # Errors
    ///
    /// `Full` if there are 64; nothing has changed then.
    pub fn mark(&mut self) -> Result<u32, MarkFault>
        ensures full { result ≡ Err MarkFault.Full ↔ (most_marks < length self.old.marks) }
        ensures number { IfOk result (λ n. n ≡ length self.old.marks) }
        ensures marked { OnOk result (self.new ≡ marked self.old) }
        ensures unchanged { OnErr result (self.new ≡ self.old) }
        ensures step { Step self.old MarkNow self.new }
    {
        if self.marks >= MARKS_MAX {
            return Err(MarkFault::Full);
        }
        begin(&mut self.spans, self.marks as usize + 1, self.current);
        self.marks += 1;
        Ok(self.marks)
    }
}

/// What was kept since a mark was made, so that the state then can be brought back.
#[derive(Drop)]
pub(crate) struct Span {
    /// The old values of the names that changed.
    pub(crate) olds: Olds,
    /// The first copy as it was, if it was written.
    pub(crate) first: Option<Vec<u8>>,
    /// The second copy as it was, if it was written.
    pub(crate) second: Option<Vec<u8>>,
    /// Which copy was current.
    pub(crate) current: Choice,
}

/// Begins a span in which nothing is kept.
pub(crate) fn begin(spans: &mut [Span], at: usize, current: Choice)
    requires { at < length spans.old }
    ensures { spans.new ≡ on_nth (beginning current) at spans.old }
{
    let span = &mut spans[at];
    span.current = current;
}
