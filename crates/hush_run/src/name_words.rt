//! Names that are written as words.
ghost use Rattle.std.specs.Prelude.{◌≡◌, ◌++◌, OnOk};
ghost use Rattle.hush_words.specs.Parts.{part_atoms};
ghost use Rattle.hush_words.specs.Ranges.{Fits};
ghost use Rattle.hush_syntax.specs.Trees.{name_in};
ghost use Rattle.hush_run.specs.Steps.{plain_bytes};

use hush_syntax::{Part, Parts, Text, Word};
use std::alloc::AllocError;

/// Reads the name that a word is, in place of what `name` holds; an empty one if it isn't one.
pub(crate) fn read_name(text: &Text, word: Word, name: &mut Vec<u8>) -> Result<(), AllocError>
    ensures { OnOk result (name.new.items ≡ name_in text.now word) }
{
    name.clear();
    if word.is_name(text) {
        append_plain(text, text.parts(word), name)?;
    }
    Ok(())
}

/// Appends the unquoted plain bytes of parts.
fn append_plain(text: &Text, parts: Parts<'_>, name: &mut Vec<u8>) -> Result<(), AllocError>
    requires { parts.source ≡ text.now.source }
    ensures { OnOk result (name.new.items ≡ name.old.items ++ plain_bytes parts.entry.atoms) }
{
    let mut left = parts;
    while let Some(part) = left.next_part() {
        name.extend_from_slice(plain_in(text, part))?;
    }
    Ok(())
}

/// The unquoted plain bytes of a part.
fn plain_in(text: &Text, part: Part) -> &[u8]
    requires { Fits text.now.source part }
    ensures { result.now ≡ plain_bytes (part_atoms text.now.source part) }
{
    match part {
        Part::Plain(span) => text.bytes(span),
        _ => &[],
    }
}
