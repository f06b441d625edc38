//! Local variables.
ghost use Rattle.std.specs.Prelude.{◌≡◌, OnOk, OnErr, option_copied};
ghost use Rattle.std.specs.FinMap as env;
ghost use Rattle.std.specs.Prelude.{IfOk};
ghost use Rattle.hush_commands.specs.Hardware.{is_number, unnumbered, with_words};

use hush_calc::Fields;
use itoa::Buffer;
use std::alloc::{AllocError, Global};
use std::collections::BTreeMap;
use std::marker::Model;

/// The local variables of a run: names with values, which may be empty.
#[derive(Drop)]
pub struct Locals {
    values: BTreeMap<Vec<u8>, Vec<u8>>,
}

impl Model for Locals {
    ghost use Rattle.std.specs.Prelude.{T};
    ghost use Rattle.std.specs.FinMap.Entries.{is_sorted};
    ghost use Rattle.std.specs.FinMap as env;
    ghost use Rattle.envimg_core.specs.Environment.{Environment, bytes_cmp};
    ghost use Rattle.std.specs.Coded.{coded_list, coded_ℕ};
    ghost use Rattle.hush_commands.specs.Entries.{entries_view, bytes_view};

    ghost Value = { Environment };

    ghost coded = { env.code (coded_list coded_ℕ) (coded_list coded_ℕ) };

    ghost view = { λ a. env.from_sorted (entries_view bytes_view a.values.entries) };

    ghost invariant = { λ a. T (is_sorted bytes_cmp (entries_view bytes_view a.values.entries)) };
}

impl Locals {
    /// No local variables. It takes no memory.
    pub fn new(alloc: Global) -> Locals
        ensures { result ≡ env.empty }
    {
        Locals {
            values: BTreeMap::new(alloc),
        }
    }

    /// The value of a name, if it has one.
    pub fn get(&self, name: &[u8]) -> Option<&[u8]>
        ensures { option_copied result ≡ env.get self.now name.now }
    {
        match self.values.get(name) {
            Some(value) => Some(value.as_slice()),
            None => None,
        }
    }

    /// Gives a name a value. If a growth is refused, nothing has changed.
    pub fn set(&mut self, alloc: Global, name: &[u8], value: &[u8]) -> Result<(), AllocError>
        ensures ok { OnOk result (self.new ≡ env.insert self.old name.now value.now) }
        ensures err { OnErr result (self.new ≡ self.old) }
    {
        let name = Vec::from_slice(alloc, name)?;
        let value = Vec::from_slice(alloc, value)?;
        match self.values.insert(name, value) {
            Ok(_old) => Ok(()),
            Err(_) => Err(AllocError),
        }
    }

    /// The same, in memory of their own.
    fn again(&self) -> Result<Locals, AllocError>
        ensures { IfOk result (λ locals. locals ≡ self.now) }
    {
        let values = self.values.clone()?;
        Ok(Locals { values })
    }

    /// These without the words of an earlier call, in memory of their own.
    fn unnumbered(&self) -> Result<Locals, AllocError>
        ensures { IfOk result (λ locals. locals ≡ unnumbered self.now) }
    {
        let mut locals = self.again()?;
        locals.drop_numbers();
        Ok(locals)
    }

    /// Drops the names that are numbers.
    fn drop_numbers(&mut self)
        ensures { self.new ≡ unnumbered self.old }
    {
        self.values
            .retain(|name, _value| !is_number(name.as_slice()));
    }

    /// These, and the words of a call as `0`, `1`, `2` and so on; other names that are numbers are dropped.
    pub fn with_words(&self, alloc: Global, words: Fields<'_>) -> Result<Locals, AllocError>
        ensures { IfOk result (λ locals. locals ≡ with_words self.now words.entry) }
    {
        let mut locals = self.unnumbered()?;
        let mut rest = words;
        let mut number: usize = 0;
        while let Some(word) = rest.next() {
            let mut digits = Buffer::new();
            locals.set(alloc, digits.format(number).as_bytes(), word)?;
            let Some(next) = number.checked_add(1) else {
                return Err(AllocError);
            };
            number = next;
        }
        Ok(locals)
    }
}

/// Whether a name has digits alone.
fn is_number(name: &[u8]) -> bool
    ensures { result ≡ is_number name.now }
{
    name.iter().all(|byte| byte.is_ascii_digit())
}
