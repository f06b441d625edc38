//! The start of a session.

ghost use Rattle.std.specs.Prelude.{◌≡◌, ◌+◌, ◌<◌, ◌≤◌, ◌==◌, ◌&&◌, ℕ, length, slice_index_or, IfOk, OnOk, IsTrue, Result};
ghost use Rattle.std.specs.List.{AllByRecursion};
ghost use Rattle.envimg_core.specs.Environment.{used};
ghost use Rattle.envimg_core.specs.Geometry.{room_of, area_of};
ghost use Rattle.envimg_core.specs.Pieces.{vars_of, entries_of};
ghost use Rattle.envimg_core.specs.State.{state_of};
ghost use Rattle.env_session.specs.Session.{bytes_of, most_marks, has_lengths, has_second, second_state, opening_choice, opening_env, StartsAs};
ghost use Rattle.env_session.specs.SpanSteps.{IsNewSpan};
ghost use Rattle.env_session.specs.Spans.{IsEmptySpan};
ghost use Rattle.env_session.specs.StartSteps.{is_good};

use crate::marks::{SPANS, Span, begin};
use crate::session::{Session, Stored};
use envimg_core::{Choice, CopyState, Geometry, Layout, check_copy, choose};
use envvars_core::{Memory, Olds, Vars};
use std::alloc::Global;
use std::array;

/// Why a start is refused.
#[derive(Clone, Copy, Debug, PartialEq, Eq)]
pub enum StartFault {
    /// A copy doesn't have the size, or the second copy is there for one copy or missing for two.
    Length,
    /// The default environment doesn't fit the data area.
    DefaultTooBig,
    /// Memory ran out.
    Memory,
}

impl Session {
    /// A session over stored copies, with a default environment.
    ///
    /// # Errors
    ///
    /// The copies come back, with the first of these that applies: `Length`, one doesn't have the geometry's length, or
    /// is missing or too many; `DefaultTooBig`, the defaults don't fit into a copy; `Memory`.
    pub fn start(
        alloc: Global,
        stored: Stored,
        defaults: Vars,
    ) -> Result<Session, (Stored, StartFault)>
        ensures { StartsAs stored defaults result }
    {
        if !has_lengths(&stored) {
            return Err((stored, StartFault::Length));
        }
        if defaults.used() > stored.geometry.room() {
            return Err((stored, StartFault::DefaultTooBig));
        }
        match opened(alloc, &stored, &defaults) {
            Ok((vars, current)) => {
                // for the proof: the variables fit
                let _size = vars.used();
                match new_spans(alloc, current) {
                    Ok(spans) => Ok(Session {
                        alloc,
                        stored,
                        defaults,
                        vars,
                        current,
                        spans,
                        marks: 0,
                    }),
                    Err(Memory) => Err((stored, StartFault::Memory)),
                }
            }
            Err(Memory) => Err((stored, StartFault::Memory)),
        }
    }
}

/// Whether the copies have the lengths that the geometry wants.
fn has_lengths(stored: &Stored) -> bool
    ensures { result ≡ has_lengths stored.now.geometry stored.now.first.items (bytes_of stored.now.second) }
{
    let size = stored.geometry.size() as usize;
    stored.first.len() == size && has_second(stored.geometry.layout(), size, stored)
}

/// Whether the second copy is there exactly if the layout has one, and has the size.
fn has_second(layout: Layout, size: usize, stored: &Stored) -> bool
    ensures { result ≡ has_second layout size (bytes_of stored.now.second) }
{
    match (layout, &stored.second) {
        (Layout::Single, None) => true,
        (Layout::Single, Some(_)) => false,
        (Layout::Redundant, None) => false,
        (Layout::Redundant, Some(copy)) => copy.len() == size,
    }
}

/// The spans of a session that begins: the opening's is new, and the others are for marks to come.
fn new_spans(alloc: Global, current: Choice) -> Result<Vec<Span>, Memory>
    ensures first { IfOk result (λ spans. (d : _) → IsNewSpan current (slice_index_or spans.items 0 d)) }
    ensures empty { IfOk result (λ spans. AllByRecursion IsEmptySpan spans.items) }
    ensures many { IfOk result (λ spans. length spans.items ≡ most_marks + 1) }
{
    let mut spans = empty_spans(alloc);
    begin(&mut spans, 0, current);
    match Vec::from_array(alloc, spans) {
        Ok(spans) => Ok(spans),
        Err(_) => Err(Memory),
    }
}

/// Spans in which nothing is kept.
fn empty_spans(alloc: Global) -> [Span; SPANS]
    ensures empty { (i : ℕ) (d : _) → i < most_marks + 1 → IsEmptySpan (slice_index_or result i d) }
    ensures many { length result ≡ most_marks + 1 }
{
    array::from_fn(|_index| empty_span(alloc))
}

/// A span in which nothing is kept.
fn empty_span(alloc: Global) -> Span
    ensures { IsEmptySpan result }
{
    Span {
        olds: Olds::new(alloc),
        first: None,
        second: None,
        current: Choice::Neither,
    }
}

/// The variables and the choice with which a session begins.
fn opened(alloc: Global, stored: &Stored, defaults: &Vars) -> Result<(Vars, Choice), Memory>
    requires fits { used defaults.now.env ≤ room_of stored.now.geometry }
    ensures current { IfOk result (λ r. r.1 ≡ opening_choice stored.now.geometry stored.now.first.items (bytes_of stored.now.second)) }
    ensures vars { IfOk result (λ r. r.0 ≡ record {
      env = opening_env stored.now.geometry stored.now.first.items (bytes_of stored.now.second) defaults.now.env r.1;
      room = room_of stored.now.geometry;
    }) }
{
    let first = check_copy(&stored.geometry, &stored.first);
    let second = state_of_second(stored);
    let current = choose(first, second);
    let vars = match current {
        Choice::First => load_copy(alloc, &stored.geometry, &stored.first)?,
        Choice::Second => match &stored.second {
            Some(copy) => load_copy(alloc, &stored.geometry, copy)?,
            None => unreachable!(),
        },
        Choice::Neither => defaults.copy(alloc, stored.geometry.room())?,
    };
    Ok((vars, current))
}

/// The state of the second copy; if there is none, its length is wrong.
fn state_of_second(stored: &Stored) -> CopyState
    ensures { result ≡ second_state stored.now.geometry (bytes_of stored.now.second) }
{
    match &stored.second {
        Some(copy) => check_copy(&stored.geometry, copy),
        None => CopyState::BadLength,
    }
}

/// The variables of a good copy.
fn load_copy(alloc: Global, geometry: &Geometry, copy: &[u8]) -> Result<Vars, Memory>
    requires { IsTrue (is_good (state_of geometry.now copy.now)) }
    ensures { IfOk result (λ vars. vars ≡ record { env = vars_of (entries_of (area_of geometry.now copy.now)); room = room_of geometry.now }) }
{
    match geometry.area(copy) {
        Some(area) => Vars::load(alloc, area),
        None => unreachable!(),
    }
}
