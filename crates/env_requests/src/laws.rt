//! Laws over the definitions alone: each function does nothing, and its contract is the law.

ghost use Rattle.env_requests.specs.Laws.{
  RunIsRequests,
  RunKeepsMarks,
  MarksStand,
  UndoReturns,
  UndoRestores,
  AllUndosReturn,
  QuietUndo,
  OpeningIsStarted,
};

/// What a run leaves of a session, under whatever limits, a list of writes and saves leaves, each of which was done.
pub fn run_is_requests()
    ensures { RunIsRequests }
{}

/// A run leaves as many marks as before, and at each the state that was there.
pub fn run_keeps_marks()
    ensures { RunKeepsMarks }
{}

/// After any list of requests that doesn't take a mark away, it is there, and the state at it is as when it was made.
pub fn marks_stand()
    ensures { MarksStand }
{}

/// After any list of requests that doesn't take a mark away, an undo to it gives the state when it was made.
pub fn undo_returns()
    ensures { UndoReturns }
{}

/// After any list of requests, each done or stopped when out of memory, an undo of everything gives the opening: the
/// variables with their attributes, every byte of the copies, and the choice of copy.
pub fn undo_restores()
    ensures { UndoRestores }
{}

/// Wherever an undo in a list of requests answers Ok, all that is shown is what was shown when its mark was made.
pub fn all_undos_return()
    ensures { AllUndosReturn }
{}

/// If no accepted write changed a value in any span, no undo is refused as out of memory.
pub fn quiet_undo()
    ensures { QuietUndo }
{}

/// Of a session that was just started the opening is what its stored copies and its defaults give.
pub fn opening_is_started()
    ensures { OpeningIsStarted }
{}
