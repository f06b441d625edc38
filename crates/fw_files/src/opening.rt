//! The session over the copies that were read.
ghost use Rattle.std.specs.Prelude.{◌≡◌, false, true, IfErr, IfOk, None, OnOk, is_none};
ghost use Rattle.envimg_core.specs.declared.choice.Choice.TheVariants.{Neither};
ghost use Rattle.fw_files.specs.declared.file_fault.FileFault.TheVariants.{Memory};
ghost use Rattle.env_session.specs.Session.{bytes_of, opened};
ghost use Rattle.fw_arguments.specs.Calls.{defaults_view};
ghost use Rattle.fw_arguments.specs.GivenTexts.{is_plain};
ghost use Rattle.fw_files.specs.Misread.{IsMisreadStop};
ghost use Rattle.fw_files.specs.Opening.{IsOpened, IsOpenedWith, OpensOver, SparesIn, StopsOpening, StopsWith, current_of, is_silent, no_good_copy_in};
ghost use Rattle.fw_files.specs.Source.{kept_view, lacks_copy, second_bytes, warned};

use crate::default_text::{DefaultText, found_defaults, given_defaults};
use crate::file_fault::FileFault;
use crate::misread_copies::spare_misread;
use crate::source::Source;
use crate::stop::Stop;
use crate::system::System;
use env_session::{Session, Stored};
use envimg_core::{Choice, CopyState, check_copy, choose};
use envvars_core::Vars;
use fw_arguments::Defaults;
use std::alloc::{AllocError, Global};

/// A session just opened, and the text of its default environment, if that was taken and is one for import.
#[derive(Drop)]
pub struct Opened {
    /// The session.
    pub session: Session,
    /// The text as it was parsed, and its entries.
    pub text: Option<DefaultText>,
}

/// The session over these copies, with the default environment of a text, or an empty one; a text of plain lines is read
/// only if neither copy is good. It isn't opened if a copy has to be good and none is, or if copies are to be spared
/// (`spares`) and one of them is good in another way than the configuration has it.
pub fn open<'a, X: System + AllocGlobal>(
    rt: &X,
    source: &Source,
    asked: &Defaults<'a>,
    spares: bool,
) -> Result<Opened, Stop<'a>>
    ensures opened { IfOk result (IsOpened (X.holds rt.now) source.now (defaults_view asked.now) spares) }
    ensures stopped { IfErr result (StopsOpening source.now (defaults_view asked.now) spares) }
{
    if asked.form.is_plain() {
        open_plain(rt, source, asked, spares)
    } else {
        open_with(rt, source, asked, spares)
    }
}

/// The same if the text has plain lines, and may be that of the board's build.
fn open_plain<'a, X: System + AllocGlobal>(
    rt: &X,
    source: &Source,
    asked: &Defaults<'a>,
    spares: bool,
) -> Result<Opened, Stop<'a>>
    requires { is_plain asked.now.form ≡ true }
    ensures opened { IfOk result (IsOpened (X.holds rt.now) source.now (defaults_view asked.now) spares) }
    ensures stopped { IfErr result (StopsOpening source.now (defaults_view asked.now) spares) }
{
    let none = Vars::empty(rt.alloc(), source.geometry.room());
    let session = start(rt.alloc(), source, none)?;
    match session.current() {
        Choice::First => Ok(without_text(session)),
        Choice::Second => Ok(without_text(session)),
        Choice::Neither => {
            let found = found_defaults(rt, *asked);
            open_with(rt, source, &found, spares)
        }
    }
}

/// The session with the default environment of this text, or with an empty one.
fn open_with<'a, X: System + AllocGlobal>(
    rt: &X,
    source: &Source,
    asked: &Defaults<'a>,
    spares: bool,
) -> Result<Opened, Stop<'a>>
    ensures opened { IfOk result (IsOpenedWith (X.holds rt.now) source.now (defaults_view asked.now) spares) }
    ensures stopped { IfErr result
        (StopsWith source.now (current_of source.now) (defaults_view asked.now) spares) }
{
    match session_over(rt, source, asked) {
        Ok(opened) => accepted(rt, source, asked, spares, opened),
        Err(fault) => {
            let current = current_of(source);
            let warning = warning_of(is_silent(asked, current), current);
            Err(Stop::Defaults(asked.path.unwrap_or(""), fault, warning))
        }
    }
}

/// A session for which no text was taken.
fn without_text(session: Session) -> Opened
    ensures session { result.session ≡ session }
    ensures text { result.text ≡ None }
{
    Opened {
        session,
        text: None,
    }
}

/// The session, unless its copies are to be spared, or one has to be good and none is.
fn accepted<X: System + AllocGlobal>(
    rt: &X,
    source: &Source,
    asked: &Defaults<'_>,
    spares: bool,
    opened: Opened,
) -> Result<Opened, Stop<'static>>
    ensures opened { IfOk result (λ accepted. (accepted ≡ opened)
        × (lacks_copy (defaults_view asked.now) opened.session.now.current ≡ false)
        × SparesIn spares opened.session.now.current source.now) }
    ensures stopped { IfErr result
        (StopsWith source.now opened.session.now.current (defaults_view asked.now) spares) }
{
    let current = opened.session.current();
    spare(rt, source, spares, current)?;
    if lacks_copy(asked, current) {
        return Err(no_good_copy(source));
    }
    Ok(opened)
}

/// Looks whether the copies may be written over, if they are to be spared.
fn spare<X: System + AllocGlobal>(
    rt: &X,
    source: &Source,
    spares: bool,
    current: Choice,
) -> Result<(), Stop<'static>>
    ensures spared { OnOk result (SparesIn spares current source.now) }
    ensures stopped { IfErr result (λ stop. (current ≡ Neither) × (spares ≡ true)
        × IsMisreadStop source.now.geometry source.now.first.bytes.items (second_bytes source.now.second) stop) }
{
    match current {
        Choice::First => Ok(()),
        Choice::Second => Ok(()),
        Choice::Neither => {
            if spares {
                spare_misread(rt, source)
            } else {
                Ok(())
            }
        }
    }
}

/// Whether a copy has to be good, and no copy is.
fn lacks_copy(asked: &Defaults<'_>, current: Choice) -> bool
    ensures { result ≡ lacks_copy (defaults_view asked.now) current }
{
    match current {
        Choice::Neither => asked.need_copy && asked.path.is_none(),
        _ => false,
    }
}

/// Whether no warning that no copy is good is due: it isn't missed, or is an error.
fn is_silent(asked: &Defaults<'_>, current: Choice) -> bool
    ensures { result ≡ is_silent (defaults_view asked.now) current }
{
    asked.whole || lacks_copy(asked, current)
}

/// What is wrong with each copy.
fn no_good_copy(source: &Source) -> Stop<'static>
    ensures { result ≡ no_good_copy_in source.now }
{
    let second = match &source.second {
        None => None,
        Some(copy) => Some(check_copy(&source.geometry, &copy.bytes)),
    };
    Stop::NoGoodCopy(check_copy(&source.geometry, &source.first.bytes), second)
}

/// The session over these copies. A fault is that of the default text.
fn session_over<X: System + AllocGlobal>(
    rt: &X,
    source: &Source,
    asked: &Defaults<'_>,
) -> Result<Opened, FileFault>
    ensures opens { IfOk result
        (λ o. OpensOver (X.holds rt.now) source.now (defaults_view asked.now) (kept_view o.text) o.session) }
    ensures at_fault { IfErr result (λ fault. is_none asked.now.path ≡ true → fault ≡ Memory) }
{
    let given = given_defaults(rt, source.geometry.room(), asked)?;
    let session = start(rt.alloc(), source, given.vars)?;
    let text = given.text;
    Ok(Opened { session, text })
}

/// Starts the session over copies of the bytes that were read.
fn start(alloc: Global, source: &Source, given: Vars) -> Result<Session, AllocError>
    ensures { IfOk result (λ s. s ≡ opened source.now.geometry source.now.first.bytes.items (second_bytes source.now.second) given) }
{
    let stored = copies_of(alloc, source)?;
    match Session::start(alloc, stored, given) {
        Ok(session) => Ok(session),
        // no other refusal is possible: each copy was read in the configuration's size, and the defaults have its room
        Err(_) => Err(AllocError),
    }
}

/// Copies of the bytes that were read.
fn copies_of(alloc: Global, source: &Source) -> Result<Stored, AllocError>
    ensures geometry { IfOk result (λ s. s.geometry ≡ source.now.geometry) }
    ensures first { IfOk result (λ s. s.first.items ≡ source.now.first.bytes.items) }
    ensures second { IfOk result (λ s. bytes_of s.second ≡ second_bytes source.now.second) }
{
    let first = Vec::from_slice(alloc, &source.first.bytes)?;
    let second = match &source.second {
        None => None,
        Some(copy) => Some(Vec::from_slice(alloc, &copy.bytes)?),
    };
    Ok(Stored {
        geometry: source.geometry,
        first,
        second,
    })
}

/// Which copy is current.
fn current_of(source: &Source) -> Choice
    ensures { result ≡ current_of source.now }
{
    let second = match &source.second {
        None => CopyState::BadLength,
        Some(copy) => check_copy(&source.geometry, &copy.bytes),
    };
    choose(check_copy(&source.geometry, &source.first.bytes), second)
}

/// The warning that neither copy is good, or nothing if one is, or if it isn't missed (`is_silent`).
pub fn warning_of(is_silent: bool, current: Choice) -> &'static [u8]
    ensures { result.now ≡ warned is_silent current }
{
    match current {
        Choice::Neither if !is_silent => b"Warning: Bad CRC, using default environment\n",
        _ => b"",
    }
}
