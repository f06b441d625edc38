//! What a stored environment has otherwise than the first.
ghost use Rattle.std.specs.Prelude.{◌≡◌, ◌++◌, OnOk, option_copied};
ghost use Rattle.std.specs.List.{flat_map};
ghost use Rattle.std.specs.FinMap as map;
ghost use Rattle.fw_boots.specs.Boots.{change_lines, changed_line, gone_line, gone_lines, is_value};

use envvars_core::Vars;
use hush_calc::is_text;
use std::alloc::AllocError;

/// Appends a line for each variable that differs from the first's, and for each that is gone.
pub(crate) fn push_changes(text: &mut Vec<u8>, first: &Vars, now: &Vars) -> Result<(), AllocError>
    ensures { OnOk result (text.new.items ≡ text.old.items ++ change_lines first.now.env now.now.env) }
{
    push_changed(text, first, now)?;
    push_gone(text, first, now)
}

/// Appends those that differ.
fn push_changed(text: &mut Vec<u8>, first: &Vars, now: &Vars) -> Result<(), AllocError>
    ensures { OnOk result (text.new.items ≡ text.old.items ++ flat_map (changed_line first.now.env) (map.entries now.now.env)) }
{
    for (name, value) in now.iter() {
        push_change(text, first, name, value)?;
    }
    Ok(())
}

/// Appends a variable if it differs.
fn push_change(
    text: &mut Vec<u8>,
    first: &Vars,
    name: &[u8],
    value: &[u8],
) -> Result<(), AllocError>
    ensures { OnOk result (text.new.items ≡ text.old.items ++ changed_line first.now.env (name.now, value.now)) }
{
    if is_value(value, first.get(name)) {
        return Ok(());
    }
    text.extend_from_slice(b"  ")?;
    text.extend_from_slice(name)?;
    text.extend_from_slice(b"=")?;
    text.extend_from_slice(value)?;
    text.extend_from_slice(b"\n")?;
    Ok(())
}

/// Whether a value is another, if there is one.
fn is_value(value: &[u8], other: Option<&[u8]>) -> bool
    ensures { result ≡ is_value value.now (option_copied other.entry) }
{
    match other {
        None => false,
        Some(other) => is_text(other, value),
    }
}

/// Appends those that are gone.
fn push_gone(text: &mut Vec<u8>, first: &Vars, now: &Vars) -> Result<(), AllocError>
    ensures { OnOk result (text.new.items ≡ text.old.items ++ gone_lines now.now.env (map.entries first.now.env)) }
{
    for (name, _value) in first.iter() {
        push_loss(text, now, name)?;
    }
    Ok(())
}

/// Appends a name if it is gone.
fn push_loss(text: &mut Vec<u8>, now: &Vars, name: &[u8]) -> Result<(), AllocError>
    ensures { OnOk result (text.new.items ≡ text.old.items ++ gone_line now.now.env name.now) }
{
    if now.get(name).is_some() {
        return Ok(());
    }
    text.extend_from_slice(b"  ")?;
    text.extend_from_slice(name)?;
    text.extend_from_slice(b" (gone)\n")?;
    Ok(())
}
