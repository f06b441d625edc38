//! The variables of a session in text form, printed.
ghost use Rattle.std.specs.Prelude.{◌≡◌, ◌++◌, IfOk, IsTrue, codes};
ghost use Rattle.std.specs.FinMap as env;
ghost use Rattle.std.specs.List.{flat_map};
ghost use Rattle.envimg_core.specs.Environment.{is_name, is_value};
ghost use Rattle.fw_engines.specs.TextForm.{export_message, export_text, export_texts, status_for};
ghost use Rattle.fw_engines.specs.Messages.{about};
ghost use Rattle.fw_engines.specs.Tool.{Printed, Prints};

use crate::streams::write_text;
use crate::tool_end::{StreamFault, ToolEnd};
use crate::tool_texts::{CANNOT_EXPORT, QUOTE};
use env_session::Session;
use envcfg_core::{ExportFault, export_entry};
use envvars_core::{Memory, Vars};
use std::alloc::Global;
use std::io::Write;

/// Prints every variable in text form, in ascending order of the names' bytes. A name that can not be read back prints
/// `## Error: can't export "NAME"` on `errors`, the others follow, and the status is 1.
pub fn export<W: Write, E: Write>(
    alloc: Global,
    session: &Session,
    output: &mut W,
    errors: &mut E,
) -> ToolEnd
    ensures { Printed result.fault (record { output = W.contents output.old; errors = E.contents errors.old })
        (record { output = W.contents output.new; errors = E.contents errors.new }) (export_texts session.now.now.env)
        result.status }
{
    match export_all(alloc, session.vars()) {
        Err(_) => ToolEnd::stopped(StreamFault::Memory),
        Ok((text, messages)) => print_both(&text, &messages, output, errors),
    }
}

/// Prints a text on each writer; the status is 1 if there are messages.
fn print_both<W: Write, E: Write>(
    text: &[u8],
    messages: &[u8],
    output: &mut W,
    errors: &mut E,
) -> ToolEnd
    ensures { Prints (record { output = W.contents output.old; errors = E.contents errors.old })
        (record { output = W.contents output.new; errors = E.contents errors.new })
        (record { output = text.now; errors = messages.now; status = status_for messages.now }) result }
{
    if !write_text(output, text) {
        return ToolEnd::stopped(StreamFault::Write);
    }
    if messages.is_empty() {
        return ToolEnd::done(0);
    }
    if !write_text(errors, messages) {
        return ToolEnd::stopped(StreamFault::Write);
    }
    ToolEnd::done(1)
}

/// The variables in text form, and the messages for those whose names can not be read back.
fn export_all(alloc: Global, vars: &Vars) -> Result<(Vec<u8>, Vec<u8>), Memory>
    ensures text { IfOk result (λ r. r.0.items ≡ flat_map export_text (env.entries vars.now.env)) }
    ensures messages { IfOk result (λ r. r.1.items ≡ flat_map export_message (env.entries vars.now.env)) }
{
    let mut text = Vec::new(alloc);
    let mut messages = Vec::new(alloc);
    for (name, value) in vars.iter() {
        export_one(name, value, &mut text, &mut messages)?;
    }
    Ok((text, messages))
}

/// Appends a variable in text form, or a message.
fn export_one(
    name: &[u8],
    value: &[u8],
    text: &mut Vec<u8>,
    messages: &mut Vec<u8>,
) -> Result<(), Memory>
    requires name { IsTrue (is_name name.now) }
    requires value { IsTrue (is_value value.now) }
    ensures text { IfOk result (λ _. text.new.items ≡ text.old.items ++ export_text (name.now, value.now)) }
    ensures messages { IfOk result (λ _. messages.new.items ≡ messages.old.items ++ export_message (name.now, value.now)) }
{
    match export_entry(name, value, text) {
        Ok(()) => Ok(()),
        Err(ExportFault::Memory) => Err(Memory),
        Err(ExportFault::Name) => add_message(name, messages),
    }
}

/// Appends the message for a name that can not be read back.
fn add_message(name: &[u8], messages: &mut Vec<u8>) -> Result<(), Memory>
    ensures { IfOk result (λ _. messages.new.items ≡ messages.old.items ++ about (codes "## Error: can't export \"") name.now) }
{
    messages.extend_from_slice(CANNOT_EXPORT)?;
    messages.extend_from_slice(name)?;
    messages.extend_from_slice(QUOTE)?;
    Ok(())
}
