//! The default environment, from the entries of a text.
ghost use Rattle.std.specs.Prelude.{◌≡◌, ◌≤◌, IfNone, IfSome, IsOkUnless, OnOk, map};
ghost use Rattle.envcfg_core.specs.Entries.{entry_view};
ghost use Rattle.envvars_core.specs.Refusals.{after};
ghost use Rattle.fw_engines.specs.Defaults.{GivesDefaults, entry_refusal};

use envcfg_core::TextEntry;
use envvars_core::{Refusal, Vars};
use std::alloc::Global;

/// The environment that the entries leave, written in their order into an empty one of `room` bytes; the access
/// that `.flags` gives is not checked (forced writes).
///
/// # Errors
///
/// The line and the refusal of the first entry that is refused; `Memory` only if memory ran out.
pub fn defaults(alloc: Global, room: u32, entries: &[TextEntry]) -> Result<Vars, (usize, Refusal)>
    requires { 1 ≤ room }
    ensures { GivesDefaults room (map entry_view entries.now) result }
{
    let none = Vars::empty(alloc, room);
    let mut vars = Vars::empty(alloc, room);
    for entry in entries {
        match write_entry(&mut vars, entry, &none) {
            Ok(()) => {}
            Err(refusal) => return Err((entry.line, refusal)),
        }
    }
    Ok(vars)
}

/// Writes one entry, forced.
fn write_entry(vars: &mut Vars, entry: &TextEntry, none: &Vars) -> Result<(), Refusal>
    ensures refused { IfSome (entry_refusal vars.old.room vars.old.env (entry_view entry.now)) (λ r. result ≡ Err r) }
    ensures accepted { IfNone (entry_refusal vars.old.room vars.old.env (entry_view entry.now))
        (IsOkUnless result Refusal.Memory) }
    ensures written { OnOk result (vars.new
        ≡ record vars.old { env = after vars.old.env (entry_view entry.now).name (entry_view entry.now).value }) }
{
    match vars.write(&entry.name, entry.value_bytes(), true, none) {
        Ok(_was) => Ok(()),
        Err(refusal) => Err(refusal),
    }
}
