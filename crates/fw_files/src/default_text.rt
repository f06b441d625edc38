//! The default environment of a session: which text it is, and its variables.
ghost use Rattle.std.specs.Prelude.{◌≡◌, ◌≤◌, false, IfErr, IfOk, None, Ok, OnOk, is_none, map, option_map};
ghost use Rattle.std.specs.FinMap as env;
ghost use Rattle.envcfg_core.specs.Entries.{entry_view};
ghost use Rattle.fw_arguments.specs.Calls.{defaults_view};
ghost use Rattle.fw_engines.specs.Defaults.{written};
ghost use Rattle.fw_files.specs.Stops.{IsAbout};
ghost use Rattle.fw_files.specs.BareLines.{bare_in};
ghost use Rattle.fw_files.specs.Source.{AreDefaultsAt, AreDefaultsOf, AreReadAt, AreReadIn, IsFound, IsParsed, IsRefused, default_fault, kept_view, takes_initial, with_entries};

use crate::bare_lines::bare_in;
use crate::file_fault::FileFault;
use crate::files::{import_from, read_text, source_from};
use crate::rewritten_text::{closed, escaped};
use crate::stop::Stop;
use crate::system::System;
use envcfg_core::TextEntry;
use envvars_core::{Refusal, Vars};
use fw_arguments::{Defaults, GivenText, TextForm};
use fw_engines::defaults;
use std::alloc::Global;

/// A text for import, and its entries.
#[derive(Drop)]
pub struct DefaultText {
    /// The text that was parsed.
    pub text: Vec<u8>,
    /// Its entries.
    pub entries: Vec<TextEntry>,
}

/// The variables of a default environment, and its text, if that is one for import.
#[derive(Drop)]
pub(crate) struct ReadDefaults {
    pub vars: Vars,
    pub text: Option<DefaultText>,
}

/// The text that is kept of one that was parsed, and its entries.
#[derive(Drop)]
struct Parsed {
    text: Option<Vec<u8>>,
    entries: Vec<TextEntry>,
}

/// The default environment of a board's build.
const INITIAL_ENVIRONMENT: &str = "/etc/u-boot-initial-env";

/// The default environment that is asked for, with the text of the board's build if none is given and it is there.
pub(crate) fn found_defaults<'w, X: System>(rt: &X, asked: Defaults<'w>) -> Defaults<'w>
    ensures { IsFound (defaults_view asked.entry) (defaults_view result) }
{
    if takes_initial(&asked) && is_there(rt, INITIAL_ENVIRONMENT) {
        return Defaults {
            path: Some(INITIAL_ENVIRONMENT),
            form: asked.form,
            need_copy: asked.need_copy,
            whole: asked.whole,
        };
    }
    asked
}

/// Whether it is that of the board's build, if that is there.
fn takes_initial(asked: &Defaults<'_>) -> bool
    ensures { result ≡ takes_initial (defaults_view asked.now) }
{
    asked.form.is_plain() && asked.path.is_none()
}

/// Whether a file can be opened.
fn is_there<X: System>(rt: &X, path: &str) -> bool {
    rt.open_to_read(path).is_ok()
}

/// The default environment of its text, or an empty one.
pub(crate) fn given_defaults<X: System + AllocGlobal>(
    rt: &X,
    room: u32,
    asked: &Defaults<'_>,
) -> Result<ReadDefaults, FileFault>
    requires { 1 ≤ room }
    ensures read { IfOk result
        (λ r. AreDefaultsOf (X.holds rt.now) room (defaults_view asked.now) (kept_view r.text) r.vars) }
    ensures at_fault { IfErr result (λ _. is_none asked.now.path ≡ false) }
{
    match asked.path {
        None => Ok(ReadDefaults {
            vars: Vars::empty(rt.alloc(), room),
            text: None,
        }),
        Some(path) => read_default(rt, room, path, asked.form),
    }
}

/// The variables of a text, in this room.
pub fn read_variables<'a, X: System + AllocGlobal>(
    rt: &X,
    room: u32,
    text: GivenText<'a>,
) -> Result<Vars, Stop<'a>>
    requires { 1 ≤ room }
    ensures read { IfOk result (AreDefaultsAt (X.holds rt.now) text.entry.path.now text.entry.form room) }
    ensures stopped { IfErr result (IsAbout text.entry.path.now) }
{
    match read_default(rt, room, text.path, text.form) {
        Ok(read) => Ok(read.vars),
        Err(fault) => Err(Stop::File(text.path, fault)),
    }
}

/// Reads the default environment.
fn read_default<X: System + AllocGlobal>(
    rt: &X,
    room: u32,
    path: &str,
    form: TextForm,
) -> Result<ReadDefaults, FileFault>
    requires { 1 ≤ room }
    ensures { IfOk result (λ r. AreReadAt (X.holds rt.now) path.now form room (kept_view r.text) r.vars) }
{
    let text = read_text(rt, path)?;
    default_from(rt.alloc(), room, form, text)
}

/// The default environment of a text.
fn default_from(
    alloc: Global,
    room: u32,
    form: TextForm,
    text: Vec<u8>,
) -> Result<ReadDefaults, FileFault>
    requires { 1 ≤ room }
    ensures { IfOk result (λ r. AreReadIn form text.items room (kept_view r.text) r.vars) }
{
    let parsed = parsed_in(alloc, form, text)?;
    let vars = written_in(alloc, room, &parsed.entries)?;
    Ok(ReadDefaults {
        vars,
        text: kept(parsed),
    })
}

/// What is kept of a text that was parsed.
fn kept(parsed: Parsed) -> Option<DefaultText>
    ensures { kept_view result
        ≡ with_entries (map entry_view parsed.entries.items) (option_map (λ t. t.items) parsed.text) }
{
    let Parsed { text, entries } = parsed;
    match text {
        Some(text) => Some(DefaultText { text, entries }),
        None => None,
    }
}

/// The default environment of these entries.
fn written_in(alloc: Global, room: u32, entries: &[TextEntry]) -> Result<Vars, FileFault>
    requires { 1 ≤ room }
    ensures written { IfOk result (λ vars. written room env.empty (map entry_view entries.now) ≡ Ok vars.env) }
    ensures room { IfOk result (λ vars. vars.room ≡ room) }
    ensures refused { IfErr result (IsRefused room (map entry_view entries.now)) }
{
    match defaults(alloc, room, entries) {
        Ok(vars) => Ok(vars),
        Err((line, refusal)) => Err(default_fault(line, refusal)),
    }
}

/// The fault of a default environment of which an entry is refused.
fn default_fault(line: usize, refusal: Refusal) -> FileFault
    ensures { result ≡ default_fault line refusal }
{
    match refusal {
        Refusal::Memory => FileFault::Memory,
        refused => FileFault::Default(line, refused),
    }
}

/// A text in this form, parsed.
fn parsed_in(alloc: Global, form: TextForm, text: Vec<u8>) -> Result<Parsed, FileFault>
    ensures { IfOk result (IsParsed form text.items) }
{
    match form {
        TextForm::Import => {
            let entries = import_from(alloc, &text)?;
            unless_bare(form, &text, &entries)?;
            Ok(Parsed {
                text: Some(text),
                entries,
            })
        }
        TextForm::Initial => {
            let closed = closed(alloc, &text)?;
            let entries = import_from(alloc, &closed)?;
            unless_bare(form, &text, &entries)?;
            Ok(Parsed {
                text: Some(closed),
                entries,
            })
        }
        TextForm::Plain => {
            let entries = import_from(alloc, &escaped(alloc, &text)?)?;
            Ok(Parsed {
                text: None,
                entries,
            })
        }
        TextForm::Source => {
            let entries = source_from(alloc, &text)?;
            Ok(Parsed {
                text: None,
                entries,
            })
        }
    }
}

/// Looks that no entry lacks its `=`, as an environment can't have it.
fn unless_bare(form: TextForm, text: &[u8], entries: &[TextEntry]) -> Result<(), FileFault>
    ensures { OnOk result (bare_in form text.now (map entry_view entries.now) ≡ None) }
{
    match bare_in(form, text, entries) {
        None => Ok(()),
        Some(line) => Err(FileFault::Bare(line)),
    }
}
