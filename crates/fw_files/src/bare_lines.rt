//! Entries without `=`, which an environment can't have.
ghost use Rattle.std.specs.Prelude.{◌≡◌, map};
ghost use Rattle.envcfg_core.specs.Entries.{entry_view};
ghost use Rattle.fw_files.specs.BareLines.{bare_among, bare_in, bare_line};

use envcfg_core::TextEntry;
use fw_arguments::TextForm;
use text_parts::{contains_byte, numbered_lines};

/// The first line of a text in which an entry begins that has no `=`; a source or plain lines aren't looked at.
pub(crate) fn bare_in(form: TextForm, text: &[u8], entries: &[TextEntry]) -> Option<usize>
    ensures { result ≡ bare_in form text.now (map entry_view entries.now) }
{
    match form {
        TextForm::Import | TextForm::Initial => bare_line(text, entries),
        TextForm::Plain | TextForm::Source => None,
    }
}

/// The same of a text that has these entries.
fn bare_line(text: &[u8], entries: &[TextEntry]) -> Option<usize>
    ensures { result ≡ bare_line text.now (map entry_view entries.now) }
{
    let mut left = entries;
    for (number, line) in numbered_lines(text) {
        match left.split_first() {
            None => return None,
            Some((entry, others)) => {
                if entry.line == number {
                    if !contains_byte(b'=', line) {
                        return Some(number);
                    }
                    left = others;
                }
            }
        }
    }
    None
}
