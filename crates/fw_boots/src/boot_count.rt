//! U-Boot's own count of boots, as commands between `preboot` and what follows it.
ghost use Rattle.std.specs.Prelude.{◌≡◌, ◌%◌, IfOk};
ghost use Rattle.hush_calc.specs.Numbers.{front_number, modulus};
ghost use Rattle.hush_run.specs.Runs.{reason_of};
ghost use Rattle.fw_boots.specs.PowerOns.{IsCounted, boot_number, command_of, count_left, counted_text, goes_back, is_beyond};
ghost use Rattle.fw_boots.specs.PowerOns.{is_counted, number_in, number_of, save_of, start_of};

use crate::power_on_text::PREBOOT;
use env_session::Session;
use envvars_core::{Refusal, Vars};
use hush_run::Ending;
use itoa::Buffer;
use std::alloc::{AllocError, Global};
use text_parts::{Base, behind_0x, digits_in_front, wrapped_number};

/// The text of a board that counts, by what `preboot` left. `AllocError` if memory runs out, or did in `preboot`.
pub(crate) fn text_after(
    alloc: Global,
    ending: Ending,
    session: &Session,
    status: u8,
) -> Result<Vec<u8>, AllocError>
    ensures { IfOk result (λ text. IsCounted (reason_of ending) session.now status text.items) }
{
    match ending {
        Ending::Memory => Err(AllocError),
        Ending::Finished
        | Ending::Exited
        | Ending::Steps
        | Ending::Depth
        | Ending::Word
        | Ending::Output => counted_text(alloc, session, status),
    }
}

/// That text.
fn counted_text(alloc: Global, session: &Session, status: u8) -> Result<Vec<u8>, AllocError>
    ensures { IfOk result (λ text. text.items ≡ counted_text session.now status) }
{
    let vars = session.vars();
    let mut digits = Buffer::new();
    let mut text = Vec::from_slice(alloc, PREBOOT)?;
    text.extend_from_slice(b"; setenv bootcount ")?;
    text.extend_from_slice(digits.format(boot_number(vars)).as_bytes())?;
    text.extend_from_slice(save_of(is_counted(vars)))?;
    text.extend_from_slice(start_of(status))?;
    text.extend_from_slice(command_of(goes_back(session)))?;
    Ok(text)
}

/// Which power-on this is.
fn boot_number(vars: &Vars) -> u64
    ensures number { result ≡ boot_number vars.now.env }
{
    if is_counted(vars) {
        number_of(vars, b"bootcount").wrapping_add(1)
    } else {
        1
    }
}

/// Whether power-ons are counted.
fn is_counted(vars: &Vars) -> bool
    ensures { result ≡ is_counted vars.now.env }
{
    number_of(vars, b"upgrade_available") % 4_294_967_296 > 0
}

/// Whether this one is one too many.
fn goes_back(session: &Session) -> bool
    ensures { result ≡ goes_back session.now }
{
    is_counted(session.vars())
        && is_beyond(number_of(session.vars(), b"bootlimit"), count_left(session))
}

/// Whether a count is beyond a limit, if there is one.
fn is_beyond(limit: u64, count: u64) -> bool
    ensures { result ≡ is_beyond limit count }
{
    limit > 0 && count > limit
}

/// The count once that of this power-on is written: where checks refuse it the old one stays, but a board's memory has room
/// for each.
fn count_left(session: &Session) -> u64
    ensures { result ≡ count_left session.now }
{
    let count = boot_number(session.vars());
    let mut digits = Buffer::new();
    match session.check(b"bootcount", Some(digits.format(count).as_bytes()), false) {
        Ok(()) | Err(Refusal::Full) => count,
        Err(_) => number_of(session.vars(), b"bootcount"),
    }
}

/// The number that a variable begins with.
fn number_of(vars: &Vars, name: &[u8]) -> u64
    ensures { result ≡ number_of vars.now.env name.now }
{
    match vars.get(name) {
        None => 0,
        Some(value) => number_in(value),
    }
}

/// The number that a text begins with: decimal digits, or hexadecimal ones after `0x`.
fn number_in(text: &[u8]) -> u64
    ensures { result ≡ number_in text.now }
{
    match behind_0x(text) {
        Some(rest) => front_number(Base::Hexadecimal, rest),
        None => front_number(Base::Decimal, text),
    }
}

/// The number that the digits at the front of a text spell, modulo 2 to the 64th.
fn front_number(base: Base, text: &[u8]) -> u64
    ensures { result ≡ front_number base text.now % modulus }
{
    wrapped_number(base, digits_in_front(base, text))
}

/// The save of the count.
fn save_of(is_counted: bool) -> &'static [u8]
    ensures { result.now ≡ save_of is_counted }
{
    if is_counted { b"; saveenv" } else { b"" }
}

/// What follows, by the status of `preboot`.
fn start_of(status: u8) -> &'static [u8]
    ensures { result.now ≡ start_of status }
{
    if status == 0 {
        b"; if test \"${bootdelay}\" -ne -1; then run "
    } else {
        b"; if test \"${bootdelay}\" -ne -1; then false || run "
    }
}

/// Which variable that runs.
fn command_of(goes_back: bool) -> &'static [u8]
    ensures { result.now ≡ command_of goes_back }
{
    if goes_back {
        b"altbootcmd; fi"
    } else {
        b"bootcmd; fi"
    }
}
