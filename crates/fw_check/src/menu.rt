//! Entries of a boot menu, and the scripts of variables.
ghost use Rattle.std.specs.Prelude.{◌≡◌, ◌&&◌, ◌==◌, IfOk, length, not};
ghost use Rattle.std.specs.List.{list_all};
ghost use Rattle.std.specs.Char.{is_ascii_digit};
ghost use Rattle.fw_check.specs.Checking.{script_in};
ghost use Rattle.fw_check.specs.Following.{is_entry};
ghost use Rattle.fw_check.specs.Menus.{blank, blanked, is_entry_name, is_number};

use envvars_core::Vars;
use hush_calc::is_text;
use std::alloc::{AllocError, Global};
use text_parts::contains_byte;

/// What the name of an entry begins with.
pub(crate) const MENU: &[u8] = b"bootmenu_";

/// Whether a variable of this name is an entry of a boot menu that has a script.
pub(crate) fn is_entry(vars: &Vars, name: &[u8]) -> bool
    ensures { result ≡ is_entry vars.now.env name.now }
{
    is_entry_name(name) && contains_byte(b'=', vars.get(name).unwrap_or(b""))
}

/// Whether it is the name of an entry.
pub(crate) fn is_entry_name(name: &[u8]) -> bool
    ensures { result ≡ is_entry_name name.now }
{
    let (front, back) = name.split_at(MENU.len().min(name.len()));
    is_text(MENU, front) && is_number(back)
}

/// Whether a text is digits, one or more.
fn is_number(text: &[u8]) -> bool
    ensures { result ≡ is_number text.now }
{
    !text.is_empty() && are_digits(text)
}

fn are_digits(text: &[u8]) -> bool
    ensures { result ≡ list_all is_ascii_digit text.now }
{
    text.iter().all(|b| b.is_ascii_digit())
}

/// The script of a variable, no bytes if there is no such variable; of an entry what is after the first `=`, at its
/// place.
pub(crate) fn script(alloc: Global, vars: &Vars, name: &[u8]) -> Result<Vec<u8>, AllocError>
    ensures { IfOk result (λ text. text.items ≡ script_in vars.now.env name.now) }
{
    let value = vars.get(name).unwrap_or(b"");
    if is_entry_name(name) {
        blanked(alloc, value)
    } else {
        Vec::from_slice(alloc, value)
    }
}

/// An entry with blanks in the place of all that comes before its script.
fn blanked(alloc: Global, value: &[u8]) -> Result<Vec<u8>, AllocError>
    ensures { IfOk result (λ text. text.items ≡ blanked value.now) }
{
    let mut text = Vec::new(alloc);
    let mut left = value;
    while let Some((byte, others)) = left.split_first() {
        left = others;
        if *byte == b'=' {
            text.push(b' ')?;
            text.extend_from_slice(left)?;
            return Ok(text);
        }
        text.push(blank(*byte))?;
    }
    Ok(text)
}

/// A blank in the place of a byte; a newline stays one.
fn blank(b: u8) -> u8
    ensures { result ≡ blank b }
{
    if b == b'\n' { b'\n' } else { b' ' }
}
