//! Saving.

ghost use Rattle.std.specs.Prelude.{◌≡◌, suc, take, drop, false, ◌<◌, ◌≤◌, length, IfOk, IfSome, OnOk, OnErr, IsTrue, IsSomeAnd, is_none};
ghost use Rattle.envimg_core.specs.Environment.{used};
ghost use Rattle.envimg_core.specs.Geometry.{head, room_of};
ghost use Rattle.envimg_core.specs.Image.{image_of};
ghost use Rattle.envvars_core.specs.Variables.{Contents};
ghost use Rattle.envimg_core.specs.declared.geometry.Layout.TheVariants.{Redundant};
ghost use Rattle.env_session.specs.declared.session.Side.TheVariants as Side;
ghost use Rattle.env_session.specs.Requests.{Step, Save};
ghost use Rattle.env_session.specs.Session.{bytes_of, IsSound, with_copy, saving, on_last, saved, saved_side, saved_flag, saved_image, side_of, last_saved};
ghost use Rattle.env_session.specs.SpanSteps.{choice_of_side};
ghost use Rattle.env_session.specs.Spans.{mark_of, marks_of, now_of};

use crate::images::save_over;
use crate::marks::Span;
use crate::session::{Session, Side, Stored};
use envimg_core::{Choice, Layout};
use envvars_core::{Memory, Vars};
use std::alloc::Global;

impl Session {
    /// Writes the copy that isn't current, with the current flag plus one; it becomes current. Returns which it is.
    /// It takes no memory if that copy was written since the last mark.
    pub fn save(&mut self) -> Result<Side, Memory>
        ensures side { IfOk result (λ s. s ≡ side_of self.old) }
        ensures saved { OnOk result (self.new ≡ saved self.old) }
        ensures unchanged { OnErr result (self.new ≡ self.old) }
        ensures refused_only { OnErr result (last_saved (side_of self.old) self.old.marks ≡ false) }
        ensures step { Step self.old Save self.new }
    {
        let side = save_in(
            self.alloc,
            &mut self.spans,
            self.marks as usize,
            &self.vars,
            &mut self.stored,
            self.current,
        )?;
        self.current = choice_of_side(side);
        Ok(side)
    }
}

/// Writes the copy that isn't current, and keeps it in a span as it was. Returns which it is.
fn save_in(
    alloc: Global,
    spans: &mut [Span],
    last: usize,
    vars: &Vars,
    stored: &mut Stored,
    current: Choice,
) -> Result<Side, Memory>
    requires within { last < length spans.old }
    requires sound { IsSound stored.old.geometry (now_of stored.old vars.now current) }
    ensures side { IfOk result (λ s. s ≡ saved_side stored.old.geometry.layout current) }
    ensures now { IfOk result (λ s. now_of stored.new vars.now (choice_of_side s)
        ≡ with_copy s (saved_image stored.old.geometry (now_of stored.old vars.now current)) (now_of stored.old vars.now current)) }
    ensures marks { IfOk result (λ s. marks_of (take (suc last) spans.new) (now_of stored.new vars.now (choice_of_side s))
        ≡ on_last (saving s) (marks_of (take (suc last) spans.old) (now_of stored.old vars.now current))) }
    ensures sound { IfOk result (λ s. IsSound stored.old.geometry (now_of stored.new vars.now (choice_of_side s))) }
    ensures later { drop (suc last) spans.new ≡ drop (suc last) spans.old }
    ensures many { length spans.new ≡ length spans.old }
    ensures shape { stored.new.geometry ≡ stored.old.geometry }
    ensures err { OnErr result ((spans.new ≡ spans.old) × (stored.new ≡ stored.old)) }
    ensures refused_only { OnErr result (last_saved (saved_side stored.old.geometry.layout current)
        (marks_of (take (suc last) spans.old) (now_of stored.old vars.now current)) ≡ false) }
{
    let layout = stored.geometry.layout();
    let flag = next_flag(layout, stored, current);
    let span = &mut spans[last];
    match saved_side(layout, current) {
        Side::First => match save_first(alloc, span, flag, vars, stored) {
            Ok(()) => Ok(Side::First),
            Err(memory) => Err(memory),
        },
        Side::Second => match save_second(alloc, span, flag, vars, stored) {
            Ok(()) => Ok(Side::Second),
            Err(memory) => Err(memory),
        },
    }
}

/// The copy that a save writes.
fn saved_side(layout: Layout, current: Choice) -> Side
    ensures { result ≡ saved_side layout current }
{
    match (layout, current) {
        (Layout::Single, _) => Side::First,
        (Layout::Redundant, Choice::First) => Side::Second,
        (Layout::Redundant, Choice::Second) => Side::First,
        (Layout::Redundant, Choice::Neither) => Side::First,
    }
}

/// The flag that a save writes: that of the current copy plus one.
fn next_flag(layout: Layout, stored: &Stored, current: Choice) -> u8
    requires first { head Redundant ≤ length stored.now.first.items }
    requires second { IfSome (bytes_of stored.now.second) (λ s. head Redundant ≤ length s) }
    ensures { (vars : Contents) → result ≡ saved_flag layout (now_of stored.now vars current) current }
{
    match current {
        Choice::First => layout.flag(&stored.first).wrapping_add(1),
        Choice::Second => match &stored.second {
            Some(second) => layout.flag(second).wrapping_add(1),
            None => 1,
        },
        Choice::Neither => 1,
    }
}

/// Writes the first copy with a flag, and keeps it in a span as it was.
fn save_first(
    alloc: Global,
    span: &mut Span,
    flag: u8,
    vars: &Vars,
    stored: &mut Stored,
) -> Result<(), Memory>
    requires size { length stored.old.first.items ≡ stored.old.geometry.size }
    requires fits { used vars.now.env ≤ room_of stored.old.geometry }
    ensures now { OnOk result ((current : Choice) → now_of stored.new vars.now Choice.First
        ≡ with_copy Side.First (image_of stored.old.geometry flag vars.now.env) (now_of stored.old vars.now current)) }
    ensures mark { OnOk result ((current : Choice) → mark_of span.new (now_of stored.new vars.now Choice.First)
        ≡ saving Side.First (mark_of span.old (now_of stored.old vars.now current))) }
    ensures size { OnOk result (length stored.new.first.items ≡ stored.old.geometry.size) }
    ensures shape { stored.new.geometry ≡ stored.old.geometry }
    ensures err { OnErr result ((span.new ≡ span.old) × (stored.new ≡ stored.old)) }
    ensures refused_only { OnErr result (IsTrue (is_none span.old.first)) }
{
    save_over(
        alloc,
        stored.geometry,
        vars,
        flag,
        &mut stored.first,
        &mut span.first,
    )
}

/// The same with the second copy, which is there.
fn save_second(
    alloc: Global,
    span: &mut Span,
    flag: u8,
    vars: &Vars,
    stored: &mut Stored,
) -> Result<(), Memory>
    requires size { IsSomeAnd (bytes_of stored.old.second) (λ s. length s ≡ stored.old.geometry.size) }
    requires fits { used vars.now.env ≤ room_of stored.old.geometry }
    ensures now { OnOk result ((current : Choice) → now_of stored.new vars.now Choice.Second
        ≡ with_copy Side.Second (image_of stored.old.geometry flag vars.now.env) (now_of stored.old vars.now current)) }
    ensures mark { OnOk result ((current : Choice) → mark_of span.new (now_of stored.new vars.now Choice.Second)
        ≡ saving Side.Second (mark_of span.old (now_of stored.old vars.now current))) }
    ensures size { OnOk result (IsSomeAnd (bytes_of stored.new.second) (λ s. length s ≡ stored.old.geometry.size)) }
    ensures shape { stored.new.geometry ≡ stored.old.geometry }
    ensures err { OnErr result ((span.new ≡ span.old) × (stored.new ≡ stored.old)) }
    ensures refused_only { OnErr result (IsTrue (is_none span.old.second)) }
{
    let geometry = stored.geometry;
    match &mut stored.second {
        Some(second) => save_over(alloc, geometry, vars, flag, second, &mut span.second),
        None => unreachable!(),
    }
}

/// The choice of a copy.
fn choice_of_side(side: Side) -> Choice
    ensures { result ≡ choice_of_side side }
{
    match side {
        Side::First => Choice::First,
        Side::Second => Choice::Second,
    }
}
