//! The tables that hold a script's nodes.

ghost use Rattle.std.specs.Prelude.{◌≡◌, ◌≤◌, ◌-◌, ◌++◌, [], ◌∷◌, length, map, take, drop, IfOk, IfErr, OnOk};
ghost use Rattle.hush_syntax.specs.declared.refusal.Refusal.TheVariants.{Memory};

use crate::cursor::Tokens;
use crate::nodes::{Branch, Link, NodeId};
use crate::refusal::Refusal;
use crate::stored::{Block, Stored};
use hush_words::{Text, Word};
use std::alloc::{AllocError, Global};

/// The nodes of a script and their members, a table of each kind.
#[derive(Debug, Drop)]
pub(crate) struct Table {
    pub(crate) nodes: Vec<Stored>,
    pub(crate) words: Vec<Word>,
    pub(crate) chains: Vec<NodeId>,
    pub(crate) links: Vec<Link>,
    pub(crate) branches: Vec<Branch>,
}

/// The members of the nodes that aren't whole yet: those of an inner node after those of the node that it is in.
#[derive(Debug, Drop)]
pub(crate) struct Waiting {
    pub(crate) chains: Vec<NodeId>,
    pub(crate) links: Vec<Link>,
    pub(crate) branches: Vec<Branch>,
}

/// A table that is made, and the members that wait.
#[derive(Debug, Drop)]
pub(crate) struct Builder {
    pub(crate) table: Table,
    pub(crate) waiting: Waiting,
}

impl Builder {
    ghost use Rattle.hush_words.specs.Parts.{word_atoms};
    ghost use Rattle.hush_syntax.specs.Answers.{left_in, SameEnd, IsAt, words_left};
    ghost use Rattle.hush_syntax.specs.CommandWords.{Within, word_placed};
    ghost use Rattle.hush_syntax.specs.Builders.{Put, Adds, SettlesChains, SettlesLinks, SettlesBranches, Grows, IsEmpty, waiting, add_chains, add_links, add_branches, SameWords, words_due};
    ghost use Rattle.hush_syntax.specs.Stored.{Members, block_of};
    ghost use Rattle.hush_syntax.specs.Reading.{skip, is_word, words_at};
    ghost use Rattle.hush_syntax.specs.Trees.{words_in};

    /// Tables without members. It takes no memory.
    pub(crate) fn new(alloc: Global) -> Builder
        ensures { IsEmpty result }
    {
        Builder {
            table: Table {
                nodes: Vec::new(alloc),
                words: Vec::new(alloc),
                chains: Vec::new(alloc),
                links: Vec::new(alloc),
                branches: Vec::new(alloc),
            },
            waiting: Waiting {
                chains: Vec::new(alloc),
                links: Vec::new(alloc),
                branches: Vec::new(alloc),
            },
        }
    }

    /// Puts a node after the others.
    pub(crate) fn put(&mut self, node: Stored) -> Result<NodeId, AllocError>
        ensures { IfOk result (λ id. Put self.old self.new node id) }
    {
        let index = number(self.table.nodes.len())?;
        self.table.nodes.push(node)?;
        Ok(NodeId { index })
    }

    /// Takes the words that come next into the table.
    pub(crate) fn take_words(&mut self, text: &Text, tokens: &mut Tokens) -> Result<Block, Refusal>
        requires at { IsAt text.now tokens.old }
        ensures words { IfOk result (λ block. (more : Members) → words_in text.now
            (block_of block (self.new.table.words.items ++ more.words)) ≡ words_at (left_in text.now tokens.old)) }
        ensures placed { OnOk result (SameWords text.now Within self.old tokens.old Within self.new tokens.new) }
        ensures grows { OnOk result (Grows self.old.table self.new.table) }
        ensures waits { OnOk result (waiting self.new ≡ waiting self.old) }
        ensures left { OnOk result (left_in text.now tokens.new ≡ skip is_word (left_in text.now tokens.old)) }
        ensures whole { OnOk result (SameEnd text.now tokens.old tokens.new) }
        ensures at { OnOk result (IsAt text.now tokens.new) }
        ensures refused { IfErr result (λ refusal. refusal ≡ Memory) }
    {
        let first = count(&self.table.words);
        tokens.words(text, &mut self.table.words)?;
        let block = block_from(first, &self.table.words)?;
        Ok(block)
    }

    /// Takes a name and the words that come next into the table.
    pub(crate) fn take_named(
        &mut self,
        name: Word,
        text: &Text,
        tokens: &mut Tokens,
    ) -> Result<Block, Refusal>
        requires at { IsAt text.now tokens.old }
        ensures words { IfOk result (λ block. (more : Members) → words_in text.now
            (block_of block (self.new.table.words.items ++ more.words)) ≡ word_atoms text.now name ∷ words_at (left_in text.now tokens.old)) }
        ensures placed { OnOk result (words_due text.now Within self.new tokens.new
            ≡ map (word_placed text.now) self.old.table.words.items ++ word_placed text.now name ∷ words_left text.now Within tokens.old) }
        ensures grows { OnOk result (Grows self.old.table self.new.table) }
        ensures waits { OnOk result (waiting self.new ≡ waiting self.old) }
        ensures left { OnOk result (left_in text.now tokens.new ≡ skip is_word (left_in text.now tokens.old)) }
        ensures whole { OnOk result (SameEnd text.now tokens.old tokens.new) }
        ensures at { OnOk result (IsAt text.now tokens.new) }
        ensures refused { IfErr result (λ refusal. refusal ≡ Memory) }
    {
        let first = count(&self.table.words);
        self.table.words.push(name)?;
        tokens.words(text, &mut self.table.words)?;
        let block = block_from(first, &self.table.words)?;
        Ok(block)
    }

    /// Puts the two sides of an assignment into the table of words.
    pub(crate) fn put_sides(&mut self, name: Word, value: Word) -> Result<Block, AllocError>
        ensures words { IfOk result (λ block. (more : Members) →
            block_of block (self.new.table.words.items ++ more.words) ≡ name ∷ value ∷ []) }
        ensures put { OnOk result (self.new.table.words.items ≡ self.old.table.words.items ++ name ∷ value ∷ []) }
        ensures grows { OnOk result (Grows self.old.table self.new.table) }
        ensures waits { OnOk result (waiting self.new ≡ waiting self.old) }
    {
        let first = count(&self.table.words);
        self.table.words.push(name)?;
        self.table.words.push(value)?;
        let block = block_from(first, &self.table.words)?;
        Ok(block)
    }

    /// How many chains wait for their list.
    pub(crate) fn waiting_chains(&self) -> usize
        ensures { result ≡ length self.now.waiting.chains.items }
    {
        self.waiting.chains.len()
    }

    /// How many links wait for their chain.
    pub(crate) fn waiting_links(&self) -> usize
        ensures { result ≡ length self.now.waiting.links.items }
    {
        self.waiting.links.len()
    }

    /// How many branches wait for their `if`.
    pub(crate) fn waiting_branches(&self) -> usize
        ensures { result ≡ length self.now.waiting.branches.items }
    {
        self.waiting.branches.len()
    }

    /// Lets a chain wait for its list.
    pub(crate) fn push_chain(&mut self, chain: NodeId) -> Result<(), AllocError>
        ensures { OnOk result (Adds add_chains self.old self.new chain) }
    {
        self.waiting.chains.push(chain)?;
        Ok(())
    }

    /// Lets a link wait for its chain.
    pub(crate) fn push_link(&mut self, link: Link) -> Result<(), AllocError>
        ensures { OnOk result (Adds add_links self.old self.new link) }
    {
        self.waiting.links.push(link)?;
        Ok(())
    }

    /// Lets a branch wait for its `if`.
    pub(crate) fn push_branch(&mut self, branch: Branch) -> Result<(), AllocError>
        ensures { OnOk result (Adds add_branches self.old self.new branch) }
    {
        self.waiting.branches.push(branch)?;
        Ok(())
    }

    /// Puts the chains that wait, from this one on, into the table.
    pub(crate) fn settle_chains(&mut self, mark: usize) -> Result<Block, AllocError>
        requires { mark ≤ length self.old.waiting.chains.items }
        ensures { IfOk result (λ block. SettlesChains self.old self.new mark block) }
    {
        let block = settle(&mut self.table.chains, &mut self.waiting.chains, mark)?;
        Ok(block)
    }

    /// Puts the links that wait, from this one on, into the table.
    pub(crate) fn settle_links(&mut self, mark: usize) -> Result<Block, AllocError>
        requires { mark ≤ length self.old.waiting.links.items }
        ensures { IfOk result (λ block. SettlesLinks self.old self.new mark block) }
    {
        let block = settle(&mut self.table.links, &mut self.waiting.links, mark)?;
        Ok(block)
    }

    /// Puts the branches that wait, from this one on, into the table.
    pub(crate) fn settle_branches(&mut self, mark: usize) -> Result<Block, AllocError>
        requires { mark ≤ length self.old.waiting.branches.items }
        ensures { IfOk result (λ block. SettlesBranches self.old self.new mark block) }
    {
        let block = settle(&mut self.table.branches, &mut self.waiting.branches, mark)?;
        Ok(block)
    }
}

/// How many members a table has.
fn count<T>(members: &Vec<T>) -> usize
    ensures { result ≡ length members.now.items }
{
    members.len()
}

/// A count in 32 bits. A larger one, which no text that the program reads reaches, is reported as a refused
/// allocation, and isn't one.
fn number(count: usize) -> Result<u32, AllocError>
    ensures { IfOk result (λ number. number ≡ count) }
{
    match u32::try_from(count) {
        Ok(number) => Ok(number),
        Err(_) => Err(AllocError),
    }
}

/// The members from this one on.
fn block_from<T>(first: usize, members: &Vec<T>) -> Result<Block, AllocError>
    requires { first ≤ length members.now.items }
    ensures first { IfOk result (λ block. block.first ≡ first) }
    ensures len { IfOk result (λ block. block.len ≡ length members.now.items - first) }
{
    let len = number(members.len() - first)?;
    let first = number(first)?;
    Ok(Block { first, len })
}

/// Moves the members that wait, from this one on, after those that a table has.
fn settle<T: Copy>(
    table: &mut Vec<T>,
    waiting: &mut Vec<T>,
    mark: usize,
) -> Result<Block, AllocError>
    requires { mark ≤ length waiting.old.items }
    ensures first { IfOk result (λ block. block.first ≡ length table.old.items) }
    ensures len { IfOk result (λ block. block.len ≡ length waiting.old.items - mark) }
    ensures table { OnOk result (table.new.items ≡ table.old.items ++ drop mark waiting.old.items) }
    ensures waiting { OnOk result (waiting.new.items ≡ take mark waiting.old.items) }
{
    let first = count(table);
    table.extend_from_slice(&waiting.as_slice()[mark..])?;
    waiting.truncate(mark);
    let block = block_from(first, table)?;
    Ok(block)
}
