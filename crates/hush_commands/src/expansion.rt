//! The fields of words (docs/runs.md, "Expansion").
ghost use Rattle.std.specs.Prelude.{◌≡◌, [], ◌∷◌, map, option_map, OnOk, MatchOption, false};
ghost use Rattle.hush_words.specs.Parts.{part_atoms, word_atoms};
ghost use Rattle.hush_words.specs.Ranges.{Fits};
ghost use Rattle.hush_commands.specs.Expansion.{Byte, splits, items_of, substituted, cut_items, expanded, expanded_whole, expanded_after, expanded_value, value_in};
ghost use Rattle.hush_commands.specs.Buffers.{with_items, kept, AddsItems, AddsPart, CutsAt, Expands};
ghost use Rattle.hush_commands.specs.Scopes.{known};
ghost use Rattle.hush_commands.specs.Shells.{cuts_list, list_words};

use crate::field_buffer::FieldBuffer;
use crate::locals::Locals;
use crate::shell::Shell;
use envvars_core::Vars;
use hush_syntax::{Part, Text, Word};
use itoa::Buffer;
use memchr::{memchr2, memchr3};
use std::alloc::AllocError;
use thiserror::Error;

/// What words are expanded with: their text, the variables of the environment, the local ones, and the status.
#[derive(Clone, Copy)]
pub struct Scope<'a> {
    /// The text of the words.
    pub text: &'a Text,
    /// The variables of the environment.
    pub vars: &'a Vars,
    /// The local variables.
    pub locals: &'a Locals,
    /// The status of what ran before.
    pub status: u8,
}

impl<'a> Scope<'a> {
    /// The value of a name: the environment's, else the local variable's, else nothing.
    pub(crate) fn value(&self, name: &[u8]) -> &'a [u8]
        ensures { result.now ≡ value_in (known self.now) name.now }
    {
        match self.vars.get(name) {
            Some(value) => value,
            None => match self.locals.get(name) {
                Some(value) => value,
                None => &[],
            },
        }
    }
}

/// Why words aren't expanded.
#[derive(Clone, Copy, Debug, PartialEq, Eq, Error)]
pub enum ExpansionFault {
    /// A word is larger than the limit.
    #[error("Word")]
    Word,
    /// A growth was refused.
    #[error("Memory")]
    Memory,
}

impl From<AllocError> for ExpansionFault {
    ghost use Rattle.hush_commands.specs.declared.expansion.ExpansionFault.TheVariants.{Memory};

    ghost from_gives = { λ _ fault. fault ≡ Memory };

    fn from(_refused: AllocError) -> ExpansionFault {
        ExpansionFault::Memory
    }
}

impl FieldBuffer {
    /// Makes the fields of words in place of those that it holds. A word has at most `limit` items that aren't marks.
    ///
    /// If they aren't made, what it holds then is unspecified; the next expansion begins anew.
    #[inline(always)]
    pub fn expand(
        &mut self,
        scope: &Scope<'_>,
        words: &[Word],
        limit: u32,
    ) -> Result<(), ExpansionFault>
        ensures { Expands (expanded (known scope.now) limit (map (word_atoms scope.now.text.now) words.now))
            self.new result }
    {
        self.clear();
        for word in words {
            self.add_word(scope, *word, false, limit as usize)?;
            self.end()?;
        }
        Ok(())
    }

    /// Makes the words of the list of a `for`, as a shell expands them, in place of the fields that it holds.
    pub fn expand_list(
        &mut self,
        scope: &Scope<'_>,
        words: &[Word],
        limit: u32,
        shell: Shell,
    ) -> Result<(), ExpansionFault>
        ensures { Expands (list_words shell (known scope.now) limit (map (word_atoms scope.now.text.now) words.now))
            self.new result }
    {
        match shell {
            Shell::Strict => self.expand(scope, words, limit),
            Shell::Board => self.expand_whole(scope, words, limit),
        }
    }

    /// Makes one field of each word, which isn't cut, in place of those that it holds. The limit is that of `expand`.
    fn expand_whole(
        &mut self,
        scope: &Scope<'_>,
        words: &[Word],
        limit: u32,
    ) -> Result<(), ExpansionFault>
        ensures { Expands (expanded_whole (known scope.now) limit (map (word_atoms scope.now.text.now) words.now))
            self.new result }
    {
        self.clear();
        for word in words {
            self.begin();
            self.add_word(scope, *word, true, limit as usize)?;
            self.end()?;
        }
        Ok(())
    }

    /// Makes one field, which is the value that an assignment's word gives, in place of those that it holds.
    pub fn expand_value(
        &mut self,
        scope: &Scope<'_>,
        word: Word,
        limit: u32,
    ) -> Result<(), ExpansionFault>
        ensures { Expands
            (option_map (λ v. v ∷ []) (expanded_value (known scope.now) limit (word_atoms scope.now.text.now word)))
            self.new result }
    {
        self.clear();
        self.begin();
        self.add_word(scope, word, true, limit as usize)?;
        self.end()?;
        Ok(())
    }

    /// Makes the fields of a word with these bytes before it, in place of those that it holds. The limit is the word's.
    pub fn expand_after(
        &mut self,
        scope: &Scope<'_>,
        front: &[u8],
        word: Word,
        limit: u32,
    ) -> Result<(), ExpansionFault>
        ensures { Expands (expanded_after (known scope.now) limit front.now (word_atoms scope.now.text.now word))
            self.new result }
    {
        self.clear();
        self.append(front)?;
        self.add_word(scope, word, false, limit as usize)?;
        self.end()?;
        Ok(())
    }

    /// Adds the items of a word, which is cut or not. Of those that aren't marks it may have `limit`; returns how many
    /// more it could have.
    #[inline(always)]
    fn add_word(
        &mut self,
        scope: &Scope<'_>,
        word: Word,
        uncut: bool,
        limit: usize,
    ) -> Result<usize, ExpansionFault>
        ensures { AddsItems (kept uncut (items_of (known scope.now) (word_atoms scope.now.text.now word)))
            limit self.old self.new result }
    {
        let mut left = limit;
        let mut parts = scope.text.parts(word);
        while let Some(part) = parts.next_part() {
            left = self.add_part(scope, part, uncut, left)?;
        }
        Ok(left)
    }

    /// Adds the items of a part.
    #[inline(always)]
    fn add_part(
        &mut self,
        scope: &Scope<'_>,
        part: Part,
        uncut: bool,
        left: usize,
    ) -> Result<usize, ExpansionFault>
        requires { Fits scope.now.text.now.source part }
        ensures { AddsPart (kept uncut (items_of (known scope.now) (part_atoms scope.now.text.now.source part)))
            left self.old self.new result }
    {
        match part {
            Part::Plain(span) => self.add_bytes(scope.text.bytes(span), left),
            Part::Quoted(span) => self.add_bytes(scope.text.bytes(span), left),
            Part::Mark => {
                self.begin();
                Ok(left)
            }
            Part::Value(span, quoted) => {
                let value = scope.value(scope.text.bytes(span));
                self.substitute(value, uncut | quoted, left)
            }
            Part::Status(quoted) => {
                let mut digits = Buffer::new();
                self.substitute(digits.format(scope.status).as_bytes(), uncut | quoted, left)
            }
        }
    }

    /// Adds a text that is substituted.
    fn substitute(
        &mut self,
        text: &[u8],
        quoted: bool,
        left: usize,
    ) -> Result<usize, ExpansionFault>
        ensures { AddsPart (substituted quoted text.now) left self.old self.new result }
    {
        if quoted {
            return self.add_bytes(text, left);
        }
        if text.len() > left {
            return Err(ExpansionFault::Word);
        }
        match self.add_split(text) {
            Ok(()) => Ok(left - text.len()),
            Err(_) => Err(ExpansionFault::Memory),
        }
    }

    /// Adds bytes.
    #[inline(always)]
    fn add_bytes(&mut self, bytes: &[u8], left: usize) -> Result<usize, ExpansionFault>
        ensures { AddsPart (map Byte bytes.now) left self.old self.new result }
    {
        if bytes.len() > left {
            return Err(ExpansionFault::Word);
        }
        match self.append(bytes) {
            Ok(()) => Ok(left - bytes.len()),
            Err(_) => Err(ExpansionFault::Memory),
        }
    }

    /// Adds a text that is cut at its blanks and newlines.
    fn add_split(&mut self, text: &[u8]) -> Result<(), AllocError>
        ensures { OnOk result (self.new ≡ with_items self.old (substituted false text.now)) }
    {
        let mut rest = text;
        while let Some((front, behind)) = cut_at_blank(rest) {
            self.append(front)?;
            self.end()?;
            rest = behind;
        }
        self.append(rest)
    }

    /// Adds a word of the list of a board's `for`, which is cut at its spaces and newlines.
    pub(crate) fn add_list_word(&mut self, text: &[u8]) -> Result<(), AllocError>
        ensures { OnOk result (self.new ≡ with_items self.old (cut_items cuts_list text.now)) }
    {
        let mut rest = text;
        while let Some((front, behind)) = cut_at_space(rest) {
            self.append(front)?;
            self.end()?;
            rest = behind;
        }
        self.append(rest)
    }
}

/// What is before the first space or newline of a text, and after it; `None` if it has none.
fn cut_at_space(text: &[u8]) -> Option<(&[u8], &[u8])>
    ensures { MatchOption result (cut_items cuts_list text.now ≡ map Byte text.now)
        (λ found. CutsAt cuts_list text.now found.0.now found.1.now) }
{
    match memchr2(b' ', b'\n', text) {
        Some(at) => Some((&text[..at], &text[at + 1..])),
        None => None,
    }
}

/// What is before the first blank or newline of a text, and after it; `None` if it has none.
fn cut_at_blank(text: &[u8]) -> Option<(&[u8], &[u8])>
    ensures { MatchOption result (substituted false text.now ≡ map Byte text.now)
        (λ found. CutsAt splits text.now found.0.now found.1.now) }
{
    match memchr3(b' ', b'\t', b'\n', text) {
        Some(at) => Some((&text[..at], &text[at + 1..])),
        None => None,
    }
}
