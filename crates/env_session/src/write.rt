//! Writes.

ghost use Rattle.std.specs.Prelude.{◌≡◌, ◌<◌, ◌≤◌, length, IfSome, IfNone, OnOk, OnErr, IsOk, IsOkUnless, IsTrue, option_copied};
ghost use Rattle.std.specs.FinMap as env;
ghost use Rattle.envimg_core.specs.Environment.{used};
ghost use Rattle.envimg_core.specs.Geometry.{room_of};
ghost use Rattle.envvars_core.specs.Refusals.{refusal, given, after};
ghost use Rattle.envvars_core.specs.Olds.{same_value};
ghost use Rattle.env_session.specs.Requests.{Step, Write};
ghost use Rattle.env_session.specs.Session.{written};
ghost use Rattle.env_session.specs.SpanSteps.{on_nth, keeping};

use crate::marks::Span;
use crate::session::Session;
use envvars_core::{Refusal, Vars};

impl Session {
    /// Writes a new value, or deletes the variable if there is no value or an empty one; `force` leaves out the access.
    ///
    /// # Errors
    ///
    /// The first check that refuses (docs/variables.md), whatever memory there is; `Memory` only if none refuses and
    /// the value changes. Refused, nothing has changed.
    pub fn write(&mut self, name: &[u8], new: Option<&[u8]>, force: bool) -> Result<(), Refusal>
        ensures refused { IfSome
            (refusal self.old.now.env self.old.defaults.env (room_of self.old.shape) name.now (option_copied new.entry) force)
            (λ r. result ≡ Err r) }
        ensures accepted { IfNone
            (refusal self.old.now.env self.old.defaults.env (room_of self.old.shape) name.now (option_copied new.entry) force)
            (IsOkUnless result Refusal.Memory) }
        ensures idle { IfNone
            (refusal self.old.now.env self.old.defaults.env (room_of self.old.shape) name.now (option_copied new.entry) force)
            (IsTrue (same_value (env.get self.old.now.env name.now) (given (option_copied new.entry))) → IsOk result) }
        ensures written { OnOk result (self.new ≡ written self.old name.now (option_copied new.entry)) }
        ensures unchanged { OnErr result (self.new ≡ self.old) }
        ensures step { Step self.old (Write name.now (option_copied new.entry) force) self.new }
    {
        write_in(
            &mut self.spans,
            self.marks as usize,
            &mut self.vars,
            &self.defaults,
            name,
            new,
            force,
        )
    }
}

/// Writes a value and keeps the old one in a span.
fn write_in(
    spans: &mut [Span],
    last: usize,
    vars: &mut Vars,
    defaults: &Vars,
    name: &[u8],
    new: Option<&[u8]>,
    force: bool,
) -> Result<(), Refusal>
    requires { last < length spans.old }
    ensures refused { IfSome
        (refusal vars.old.env defaults.now.env vars.old.room name.now (option_copied new.entry) force)
        (λ r. result ≡ Err r) }
    ensures accepted { IfNone
        (refusal vars.old.env defaults.now.env vars.old.room name.now (option_copied new.entry) force)
        (IsOkUnless result Refusal.Memory) }
    ensures idle { IfNone
        (refusal vars.old.env defaults.now.env vars.old.room name.now (option_copied new.entry) force)
        (IsTrue (same_value (env.get vars.old.env name.now) (given (option_copied new.entry))) → IsOk result) }
    ensures written { OnOk result (vars.new ≡ record vars.old { env = after vars.old.env name.now (option_copied new.entry) }) }
    ensures kept { OnOk result (spans.new ≡ on_nth (keeping vars.old.env name.now (option_copied new.entry)) last spans.old) }
    ensures fits { used vars.new.env ≤ vars.new.room }
    ensures unchanged { OnErr result (vars.new ≡ vars.old) }
    ensures spans_unchanged { OnErr result (spans.new ≡ spans.old) }
{
    let span = &mut spans[last];
    let answer = vars.write_kept(name, new, force, defaults, &mut span.olds);
    // for the proof: the variables fit
    let _size = vars.used();
    answer
}
