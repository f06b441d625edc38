//! The variables of a source as they are read line by line.
ghost use Rattle.std.specs.Prelude.{◌≡◌, IfOk, IfErr, Ok, map};
ghost use Rattle.std.specs.Map.{lookup};
ghost use Rattle.envcfg_core.specs.Entries.{entry_view};
ghost use Rattle.env_source.specs.Faults.{IsFaultOf, IsFlawOf};
ghost use Rattle.env_source.specs.Reading.{Defines, LeavesOut, appended_in, entries_of, entry_of, going_on, gone_on, is_called, is_lost, nothing_read, reading_view, set_in, so_far, told, variable_view, variables_view, with_current};
ghost use Rattle.env_source.specs.SourceLines.{said_view};
ghost use Rattle.env_source.specs.Sources.{finished};

use crate::source_fault::{Flaw, SourceFault};
use crate::source_line::SourceLine;
use envcfg_core::TextEntry;
use std::alloc::{AllocError, Global};
use std::collections::BTreeMap;

/// A value, and the line in which its last definition begins.
#[derive(Drop)]
pub(crate) struct Definition {
    pub(crate) line: usize,
    pub(crate) value: Vec<u8>,
}

/// Names with their values.
type Variables = BTreeMap<Vec<u8>, Definition>;

/// What was read of a source.
#[derive(Drop)]
pub(crate) struct Reading {
    /// The variables whose values have ended.
    pub(crate) ended: Variables,
    /// The name of the one that is being read, empty before the first.
    pub(crate) name: Vec<u8>,
    /// Its value so far.
    pub(crate) current: Definition,
    /// Whether the one before that had no value.
    pub(crate) after_empty: bool,
}

impl Reading {
    /// Nothing yet. It takes no memory.
    pub(crate) fn new(alloc: Global) -> Reading
        ensures { reading_view result ≡ nothing_read }
    {
        Reading {
            ended: BTreeMap::new(alloc),
            name: Vec::new(alloc),
            current: Definition {
                line: 0,
                value: Vec::new(alloc),
            },
            after_empty: false,
        }
    }

    /// What was read, and what this line says.
    pub(crate) fn with(
        self,
        alloc: Global,
        number: usize,
        line: SourceLine<'_>,
    ) -> Result<Reading, Flaw>
        ensures read { IfOk result (λ reading. told (reading_view self) number (said_view line.entry) ≡ Ok (reading_view reading)) }
        ensures refused { IfErr result (IsFlawOf (told (reading_view self) number (said_view line.entry))) }
    {
        match line {
            SourceLine::Skipped => Ok(self),
            SourceLine::GoesOn(text) => self.going_on(text),
            SourceLine::Sets(name, value) => Ok(self.set_in(alloc, number, name, value)?),
            SourceLine::Appends(name, value) => Ok(self.appended_in(alloc, number, name, value)?),
        }
    }

    /// The entries of all variables, once the last line is read.
    pub(crate) fn finish(self, alloc: Global) -> Result<Vec<TextEntry>, SourceFault>
        ensures read { IfOk result (λ entries. finished (reading_view self) ≡ Ok (map entry_view entries.items)) }
        ensures refused { IfErr result (IsFaultOf (finished (reading_view self))) }
    {
        if self.is_lost() {
            return Err(SourceFault {
                line: self.current.line,
                flaw: Flaw::Lost,
            });
        }
        let variables = self.with_current()?;
        Ok(entries_of(alloc, variables)?)
    }

    /// Whether U-Boot's build makes nothing of the text: at its end two variables have no value.
    fn is_lost(&self) -> bool
        ensures { result ≡ is_lost (reading_view self.now) }
    {
        self.current.value.is_empty() && self.after_empty && !self.ended.is_empty()
    }

    /// The value goes on with a text.
    fn going_on(self, text: &[u8]) -> Result<Reading, Flaw>
        ensures read { IfOk result (λ reading. going_on (reading_view self) text.now ≡ Ok (reading_view reading)) }
        ensures refused { IfErr result (IsFlawOf (going_on (reading_view self) text.now)) }
    {
        if self.name.is_empty() {
            return Err(Flaw::NoVariable);
        }
        let Reading {
            ended,
            name,
            current,
            after_empty,
        } = self;
        let line = current.line;
        let mut value = current.value;
        go_on(&mut value, text)?;
        Ok(Reading {
            ended,
            name,
            current: Definition { line, value },
            after_empty,
        })
    }

    /// A variable begins in this line.
    fn set_in(
        self,
        alloc: Global,
        line: usize,
        name: &[u8],
        value: &[u8],
    ) -> Result<Reading, AllocError>
        ensures { IfOk result (λ reading. reading_view reading ≡ set_in (reading_view self) line name.now value.now) }
    {
        let after_empty = self.current.value.is_empty();
        let ended = self.with_current()?;
        let name = Vec::from_slice(alloc, name)?;
        let value = Vec::from_slice(alloc, value)?;
        Ok(Reading {
            ended,
            name,
            current: Definition { line, value },
            after_empty,
        })
    }

    /// The same, and what the variable has so far is taken up again.
    fn appended_in(
        self,
        alloc: Global,
        line: usize,
        name: &[u8],
        value: &[u8],
    ) -> Result<Reading, AllocError>
        ensures { IfOk result (λ reading. reading_view reading ≡ appended_in (reading_view self) line name.now value.now) }
    {
        let after_empty = self.current.value.is_empty();
        let mut ended = self.with_current()?;
        let mut taken = taken_from(alloc, &mut ended, name);
        taken.extend_from_slice(value)?;
        let name = Vec::from_slice(alloc, name)?;
        Ok(Reading {
            ended,
            name,
            current: Definition { line, value: taken },
            after_empty,
        })
    }

    /// The variables, with the one that is being read.
    fn with_current(self) -> Result<Variables, AllocError>
        ensures { IfOk result (λ variables. variables_view variables.entries ≡ with_current (reading_view self)) }
    {
        let Reading {
            ended,
            name,
            current,
            after_empty: _,
        } = self;
        let mut variables = ended;
        define(&mut variables, name, current)?;
        Ok(variables)
    }
}

/// Gives a name a definition, unless that has no value.
fn define(
    variables: &mut Variables,
    name: Vec<u8>,
    definition: Definition,
) -> Result<(), AllocError>
    ensures { IfOk result (λ _. Defines variables.old.entries variables.new.entries name definition) }
{
    if definition.value.is_empty() {
        return Ok(());
    }
    variables.insert(name, definition)?;
    Ok(())
}

/// A value goes on with a space, unless nothing is before that, and a text.
fn go_on(value: &mut Vec<u8>, text: &[u8]) -> Result<(), AllocError>
    ensures { IfOk result (λ _. value.new.items ≡ gone_on value.old.items text.now) }
{
    if !value.is_empty() {
        value.push(b' ')?;
    }
    value.extend_from_slice(text)?;
    Ok(())
}

/// The value that a name has so far, which is taken out.
fn taken_from(alloc: Global, variables: &mut Variables, name: &[u8]) -> Vec<u8>
    ensures value { result.items ≡ so_far (lookup (is_called name.now) (variables_view variables.old.entries)) }
    ensures left { LeavesOut variables.old.entries variables.new.entries name.now }
{
    match variables.remove(name) {
        Some(definition) => definition.value,
        None => Vec::new(alloc),
    }
}

/// The entries of variables.
fn entries_of(alloc: Global, variables: Variables) -> Result<Vec<TextEntry>, AllocError>
    ensures { IfOk result (λ entries. map entry_view entries.items ≡ entries_of (variables_view variables.entries)) }
{
    let mut entries = Vec::new(alloc);
    for (name, definition) in variables {
        entries.push(entry_of(name, definition))?;
    }
    Ok(entries)
}

/// The entry of a variable.
fn entry_of(name: Vec<u8>, definition: Definition) -> TextEntry
    ensures { entry_view result ≡ entry_of (variable_view (name, definition)) }
{
    TextEntry {
        name,
        value: Some(definition.value),
        line: definition.line,
    }
}
