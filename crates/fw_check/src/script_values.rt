//! Values of variables that look like scripts.
ghost use Rattle.std.specs.Prelude.{◌≡◌, ◌≤◌, codes, length, nat_eq, option_map};
ghost use Rattle.std.specs.List.{prefix_len, starts_with};
ghost use Rattle.fw_check.specs.Looking.{hardware_view};
ghost use Rattle.fw_check.specs.ScriptValues.{begins_script, is_gap, is_in_word, is_list_name, is_there, looks_like_script, without_gap};

use crate::literals::is_word_of;
use crate::menu::is_entry_name;
use crate::rules::Hardware;
use envvars_core::Vars;
use hush_commands::{Shell, is_builtin, names_command};

/// What begins a script and is no command.
const FORMS: [&[u8]; 4] = [b"if", b"for", b"while", b"until"];

/// What the names of lists begin with in which U-Boot has a `;` between entries.
const LISTS: &[u8] = b"dfu_alt_info";

/// Whether the value of this variable looks like a script: more follows its first word, which begins a form or is the name of a
/// command that is there, as it is written.
pub(crate) fn looks_like_script(hardware: Option<Hardware<'_>>, vars: &Vars, name: &[u8]) -> bool
    ensures { result ≡ looks_like_script (option_map hardware_view hardware.entry) vars.now.env name.now }
{
    !is_entry_name(name)
        && !is_list_name(name)
        && begins_script(hardware, without_gap(vars.get(name).unwrap_or(b"")))
}

/// Whether U-Boot reads a variable of this name as a list.
fn is_list_name(name: &[u8]) -> bool
    ensures { result ≡ is_list_name name.now }
{
    name.starts_with(LISTS)
}

/// Whether more follows the first word of a text, and a script may begin with that.
fn begins_script(hardware: Option<Hardware<'_>>, text: &[u8]) -> bool
    ensures { result ≡ begins_script (option_map hardware_view hardware.entry) text.now }
{
    let (word, rest) = text.split_at(word_len(text));
    (is_word_of(&FORMS, word) || is_there(hardware, word)) && !without_gap(rest).is_empty()
}

/// Whether a command of this name is there.
fn is_there(hardware: Option<Hardware<'_>>, name: &[u8]) -> bool
    ensures { result ≡ is_there (option_map hardware_view hardware.entry) name.now }
{
    match hardware {
        Some(hardware) => names_command(Shell::Strict, hardware.stand_ins, hardware.board, name),
        None => is_builtin(name),
    }
}

fn word_len(text: &[u8]) -> usize
    ensures word { result ≡ prefix_len is_in_word text.now }
    ensures within { result ≤ length text.now }
{
    text.iter().take_while(|b| is_in_word(**b)).count()
}

fn is_in_word(b: u8) -> bool
    ensures { result ≡ is_in_word b }
{
    !(is_gap(b) || b == b';' || b == b'&' || b == b'|')
}

/// A text without the blanks and newlines at its front.
fn without_gap(text: &[u8]) -> &[u8]
    ensures { result.now ≡ without_gap text.now }
{
    let mut rest = text;
    while let Some((first, others)) = rest.split_first() {
        if !is_gap(*first) {
            return rest;
        }
        rest = others;
    }
    rest
}

/// Whether a byte may be between words.
fn is_gap(b: u8) -> bool
    ensures { result ≡ is_gap b }
{
    b == b' ' || b == b'\t' || b == b'\n'
}
