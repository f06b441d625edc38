//! Reading the value of `.flags` (docs/variables.md, "The variable .flags").

ghost use Rattle.std.specs.Prelude.{◌≡◌, ℕ, ◌≤◌, List, [], length, IfOk, OnOk};
ghost use Rattle.std.specs.List.{prefix_len, suffix_len, position_or_len};
ghost use Rattle.envvars_core.specs.Attributes.{is_blank, is_colon, trimmed, item_of, found_among, attr_among, attributes_in, attributes};
ghost use Rattle.envvars_core.specs.Steps.{found_after};

use crate::attributes::{Attr, attr_of};
use envvars_store::Variables;
use std::alloc::{AllocError, Global};
use std::collections::BTreeMap;
use std::marker::Model;

/// The name of the variable that gives the attributes.
pub(crate) const FLAGS_NAME: &[u8] = b".flags";

/// The attributes that a value of `.flags` gives names: for each name those of its last item.
#[derive(Drop)]
pub(crate) struct Flags {
    items: BTreeMap<Vec<u8>, Attr>,
}

impl Model for Flags {
    ghost use Rattle.std.specs.Prelude.{List, map};
    ghost use Rattle.envvars_core.specs.Attributes.{FlagsItem};

    ghost Value = { List FlagsItem };

    ghost view = { λ a. map (λ e. (e.0.items, e.1)) a.items.entries };
}

impl Flags {
    /// The attributes of no item at all.
    pub(crate) fn new(alloc: Global) -> Flags
        ensures { result ≡ [] }
    {
        Flags {
            items: BTreeMap::new(alloc),
        }
    }

    /// Reads a value of `.flags`.
    pub(crate) fn parse(alloc: Global, text: &[u8]) -> Result<Flags, AllocError>
        ensures { IfOk result (λ flags. (n : List ℕ) → attr_among flags n ≡ attributes_in text.now n) }
    {
        let mut flags = Flags::new(alloc);
        for piece in text.split(|b| *b == b',') {
            flags.add(alloc, piece)?;
        }
        Ok(flags)
    }

    /// Reads the value that `.flags` has among variables, if it has one.
    pub(crate) fn of(alloc: Global, variables: &Variables) -> Result<Flags, AllocError>
        ensures { IfOk result (λ flags. (n : List ℕ) → attr_among flags n ≡ attributes variables.now n) }
    {
        match variables.get(FLAGS_NAME) {
            Some(text) => Flags::parse(alloc, text),
            None => Ok(Flags::new(alloc)),
        }
    }

    /// Takes one more item, which decides for its name.
    fn add(&mut self, alloc: Global, piece: &[u8]) -> Result<(), AllocError>
        ensures { OnOk result ((n : List ℕ) → found_among self.new n ≡ found_after (item_of piece.now) self.old n) }
    {
        let (name, attr) = read_item(piece);
        if !name.is_empty() {
            self.items.insert(name.to_vec(alloc)?, attr)?;
        }
        Ok(())
    }

    /// The attributes of a name.
    pub(crate) fn attr(&self, name: &[u8]) -> Attr
        ensures { result ≡ attr_among self.now name.now }
    {
        self.items.get(name).copied().unwrap_or(Attr::PLAIN)
    }
}

/// Whether it is a space or a tab.
fn is_blank(byte: u8) -> bool
    ensures { result ≡ is_blank byte }
{
    byte == b' ' || byte == b'\t'
}

/// How many blanks are at the front.
fn leading_blanks(text: &[u8]) -> usize
    ensures blanks { result ≡ prefix_len is_blank text.now }
    ensures within { result ≤ length text.now }
{
    text.iter().take_while(|b| is_blank(**b)).count()
}

/// How many blanks are at the end.
fn trailing_blanks(text: &[u8]) -> usize
    ensures blanks { result ≡ suffix_len is_blank text.now }
    ensures within { result ≤ length text.now }
{
    text.iter().rev().take_while(|b| is_blank(**b)).count()
}

/// The text without the blanks around it.
fn trimmed(text: &[u8]) -> &[u8]
    ensures { result.now ≡ trimmed text.now }
{
    let start = leading_blanks(text);
    let text = &text[start..];
    let end = text.len() - trailing_blanks(text);
    &text[..end]
}

/// Where the name of an item ends.
fn name_end(piece: &[u8]) -> usize
    ensures colon { result ≡ position_or_len is_colon piece.now }
    ensures within { result ≤ length piece.now }
{
    piece.iter().take_while(|b| **b != b':').count()
}

/// An item: the name before the first `:`, and the attributes after it.
fn read_item(piece: &[u8]) -> (&[u8], Attr)
    ensures name { result.0.now ≡ (item_of piece.now).0 }
    ensures attr { result.1 ≡ (item_of piece.now).1 }
{
    let end = name_end(piece);
    let letters = if end < piece.len() {
        &piece[end + 1..]
    } else {
        &[]
    };
    (trimmed(&piece[..end]), attr_of(trimmed(letters)))
}
