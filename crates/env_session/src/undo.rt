//! Undoing.

ghost use Rattle.std.specs.Prelude.{◌≡◌, ℕ, ◌<◌, ◌≤◌, length, OnOk, OnErr, IsTrue, not};
ghost use Rattle.envimg_core.specs.Environment.{used};
ghost use Rattle.envvars_core.specs.Olds.{restored, goes_in_place};
ghost use Rattle.env_session.specs.Requests.{Step, UndoTo};
ghost use Rattle.env_session.specs.Session.{undone, UndoesTo, IsStoppedUndo, MayRefuse};
ghost use Rattle.env_session.specs.Spans.{now_of, back};
ghost use Rattle.env_session.specs.SpanSteps.{on_nth, emptied, olds_at, back_at, last_undone, last_removed};

use crate::marks::Span;
use crate::session::{Session, Stored};
use envimg_core::Choice;
use envvars_core::{Memory, Vars};

/// Why an undo is refused.
#[derive(Clone, Copy, Debug, PartialEq, Eq)]
pub enum UndoFault {
    /// There is no such mark.
    Gone,
    /// Memory ran out.
    Memory,
}

impl Session {
    /// Brings back the state when a mark was made; 0 is the start. The marks above it are gone.
    ///
    /// # Errors
    ///
    /// `Gone` if there is no such mark; nothing has changed. At `Memory` the spans above some mark of at least `n` are
    /// undone, that of this mark isn't, and a later undo goes on from there.
    pub fn undo_to(&mut self, n: u32) -> Result<(), UndoFault>
        ensures undone { UndoesTo n self.old self.new result }
        ensures step { Step self.old (UndoTo n) self.new }
    {
        if n > self.marks() {
            return Err(UndoFault::Gone);
        }
        'spans: while self.marks() > n {
            match self.remove_last() {
                Ok(()) => {}
                Err(Memory) => return Err(UndoFault::Memory),
            }
        }
        match self.undo_last() {
            Ok(()) => Ok(()),
            Err(Memory) => Err(UndoFault::Memory),
        }
    }

    /// Brings back the state at the start.
    pub fn undo(&mut self) -> Result<(), Memory>
        ensures undone { OnOk result (self.new ≡ undone 0 self.old) }
        ensures memory { OnErr result ((k : ℕ) × IsStoppedUndo 0 self.old self.new k) }
        ensures step { Step self.old (UndoTo 0) self.new }
    {
        // for the proof: the opening is there
        let _marks = self.marks();
        match self.undo_to(0) {
            Ok(()) => Ok(()),
            Err(UndoFault::Gone) => unreachable!(),
            Err(UndoFault::Memory) => Err(Memory),
        }
    }

    /// Undoes the last span, whose mark stays.
    fn undo_last(&mut self) -> Result<(), Memory>
        ensures undone { OnOk result (self.new ≡ last_undone self.old) }
        ensures unchanged { OnErr result (self.new ≡ self.old) }
        ensures refused_only { OnErr result (MayRefuse self.old) }
    {
        undo_in(
            &mut self.spans,
            self.marks as usize,
            &mut self.vars,
            &mut self.stored,
            &mut self.current,
        )
    }

    /// Undoes the last span, whose mark goes.
    fn remove_last(&mut self) -> Result<(), Memory>
        requires { 1 < length self.old.marks }
        ensures undone { OnOk result (self.new ≡ last_removed self.old) }
        ensures unchanged { OnErr result (self.new ≡ self.old) }
        ensures refused_only { OnErr result (MayRefuse self.old) }
    {
        undo_in(
            &mut self.spans,
            self.marks as usize,
            &mut self.vars,
            &mut self.stored,
            &mut self.current,
        )?;
        self.marks -= 1;
        Ok(())
    }
}

/// Undoes a span: what it kept comes back, and nothing is kept any more.
fn undo_in(
    spans: &mut [Span],
    last: usize,
    vars: &mut Vars,
    stored: &mut Stored,
    current: &mut Choice,
) -> Result<(), Memory>
    requires within { last < length spans.old }
    requires fits { used (restored vars.old.env (olds_at spans.old last)) ≤ vars.old.room }
    ensures back { OnOk result (now_of stored.new vars.new current.new ≡ back_at spans.old last (now_of stored.old vars.old current.old)) }
    ensures spans { OnOk result (spans.new ≡ on_nth emptied last spans.old) }
    ensures room { vars.new.room ≡ vars.old.room }
    ensures shape { stored.new.geometry ≡ stored.old.geometry }
    ensures err { OnErr result ((vars.new ≡ vars.old) × (stored.new ≡ stored.old) × (current.new ≡ current.old) × (spans.new ≡ spans.old)) }
    ensures refused_only { OnErr result (IsTrue (not (goes_in_place vars.old.env (olds_at spans.old last)))) }
{
    let span = &mut spans[last];
    take_back(span, vars, stored, current)
}

/// The same for one span.
fn take_back(
    span: &mut Span,
    vars: &mut Vars,
    stored: &mut Stored,
    current: &mut Choice,
) -> Result<(), Memory>
    requires fits { used (restored vars.old.env span.old.olds) ≤ vars.old.room }
    ensures back { OnOk result (now_of stored.new vars.new current.new ≡ back span.old (now_of stored.old vars.old current.old)) }
    ensures span { OnOk result (span.new ≡ emptied span.old) }
    ensures room { vars.new.room ≡ vars.old.room }
    ensures shape { stored.new.geometry ≡ stored.old.geometry }
    ensures err { OnErr result ((vars.new ≡ vars.old) × (stored.new ≡ stored.old) × (current.new ≡ current.old) × (span.new ≡ span.old)) }
    ensures refused_only { OnErr result (IsTrue (not (goes_in_place vars.old.env span.old.olds))) }
{
    vars.restore(&mut span.olds)?;
    if let Some(image) = span.first.take() {
        stored.first = image;
    }
    if let Some(image) = span.second.take() {
        stored.second = Some(image);
    }
    *current = span.current;
    Ok(())
}
