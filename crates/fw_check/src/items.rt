//! The commands of a script in the order of its text.
ghost use Rattle.std.specs.Prelude.{◌≡◌, ℕ, true, List, ◌∷◌, ◌++◌, map, reverse, IsSome, IfOk, OnOk, IfSome, IfNone, []};
ghost use Rattle.std.specs.List.{flat_map};
ghost use Rattle.hush_syntax.specs.CommandWords.{leaf_in, script_leaves, word_placed, words_of};
ghost use Rattle.hush_syntax.specs.Scripts.{source_of, subtree_at, tree_of};
ghost use Rattle.fw_check.specs.declared.items.Item.{Item};
ghost use Rattle.fw_check.specs.Statements.{item_words, statement_of, of_script};
ghost use Rattle.fw_check.specs.Gathering.{BeginWith, HasParts, branch_parts, if_parts, link_parts, list_parts, of_subtree, operator_of, part};
ghost use Rattle.fw_check.specs.Settings.{in_loop, plain, shows_status};
ghost use Rattle.fw_check.specs.declared.items.Part.{Part};

use crate::coming_words::ComingWords;
use crate::settings::{Setting, shows_status};
use hush_syntax::{Branch, Link, Node, NodeId, Operator, Script, Word};
use std::alloc::{AllocError, Global};
use std::marker::Model;

/// A command of a script, by its words.
#[derive(Clone, Copy, Debug)]
pub(crate) enum Item<'s> {
    /// A simple command. It has at least one word, unless it is an empty body.
    Call(Setting, &'s [Word]),
    /// `name=value`
    Assignment {
        /// What is around it.
        setting: Setting,
        /// The variable.
        name: Word,
        /// What follows the `=`.
        value: Word,
    },
    /// The head of a `for`.
    Binding {
        /// What is around it.
        setting: Setting,
        /// The variable.
        name: Word,
        /// What follows `in`.
        words: &'s [Word],
    },
}

/// A node of a script, with what is around it.
#[derive(Clone, Copy, Debug)]
pub(crate) struct Part {
    pub(crate) id: NodeId,
    pub(crate) setting: Setting,
}

/// The parts of a script that are still to come, the next one on top.
#[derive(Drop)]
struct Waiting {
    parts: Vec<Part>,
}

impl Model for Waiting {
    ghost use Rattle.std.specs.Prelude.{List, reverse};
    ghost use Rattle.fw_check.specs.declared.items.Part.{Part};

    ghost Value = { List Part };

    ghost view = { λ a. reverse a.parts.items };
}

impl Waiting {
    /// No parts. It allocates no memory.
    fn new(alloc: Global) -> Waiting
        ensures { result ≡ [] }
    {
        Waiting {
            parts: Vec::new(alloc),
        }
    }

    /// Puts a part on top.
    fn push(&mut self, id: NodeId, setting: Setting) -> Result<(), AllocError>
        ensures { OnOk result (self.new ≡ part id setting ∷ self.old) }
    {
        self.parts.push(Part { id, setting })?;
        Ok(())
    }

    /// Takes the part on top, if there is one.
    fn pop(&mut self) -> Option<Part>
        ensures some { IfSome result (λ p. self.old ≡ p ∷ self.new) }
        ensures none { IfNone result (self.old ≡ []) }
    {
        self.parts.pop()
    }

    /// Puts the chains of a list on top, the first one topmost; `shows`: the text has a `$?`.
    fn push_list(
        &mut self,
        shows: bool,
        setting: Setting,
        chains: &[NodeId],
    ) -> Result<(), AllocError>
        ensures { OnOk result (self.new ≡ list_parts shows setting true chains.now ++ self.old) }
    {
        let mut left = chains.len();
        while left > 0 {
            let is_last = left == chains.len();
            left -= 1;
            self.push(chains[left], setting.in_list(shows, left == 0, is_last))?;
        }
        Ok(())
    }

    /// Puts the commands of a chain on top, the first one topmost.
    fn push_links(&mut self, setting: Setting, links: &[Link]) -> Result<(), AllocError>
        ensures { OnOk result (self.new ≡ link_parts setting (operator_of links.now) true links.now ++ self.old) }
    {
        let first = operator_of(links);
        let mut left = links.len();
        while left > 0 {
            let is_last = left == links.len();
            left -= 1;
            let link = links[left];
            self.push(
                link.command,
                setting.in_chain(first, link.operator, left == 0, is_last),
            )?;
        }
        Ok(())
    }

    /// Puts the conditions and the bodies of branches on top, the first condition topmost; `bare`: no `else` is behind them.
    fn push_branches(
        &mut self,
        setting: Setting,
        bare: bool,
        branches: &[Branch],
    ) -> Result<(), AllocError>
        ensures { OnOk result (self.new ≡ branch_parts setting bare true branches.now ++ self.old) }
    {
        let mut left = branches.len();
        while left > 0 {
            left -= 1;
            self.push(branches[left].body, Setting::plain(setting.asked))?;
            self.push(branches[left].condition, setting.in_if(bare, left == 0))?;
        }
        Ok(())
    }
}

/// The first operator of a chain.
fn operator_of(links: &[Link]) -> Option<Operator>
    ensures { result ≡ operator_of links.now }
{
    match links {
        [_, second, ..] => second.operator,
        _ => None,
    }
}

/// The commands of a script; `asked`: its status is asked for.
pub(crate) fn items_of(
    alloc: Global,
    script: &Script,
    asked: bool,
) -> Result<Vec<Item<'_>>, AllocError>
    ensures statements { IfOk result (λ items. map (statement_of script.now.text) items.items
        ≡ of_script (shows_status (source_of script.now)) asked (tree_of script.now)) }
    ensures words { IfOk result (λ items. map (word_placed script.now.text) (flat_map item_words items.items)
        ≡ words_of (source_of script.now)) }
{
    items_from(alloc, script, script.words(), asked)
}

/// The same; `words`: the words of its commands.
fn items_from<'s>(
    alloc: Global,
    script: &'s Script,
    words: &'s [Word],
    asked: bool,
) -> Result<Vec<Item<'s>>, AllocError>
    requires { map (leaf_in script.now.text) words.now ≡ script_leaves (tree_of script.now) }
    ensures statements { IfOk result (λ items. map (statement_of script.now.text) items.items
        ≡ of_script (shows_status (source_of script.now)) asked (tree_of script.now)) }
    ensures words { IfOk result (λ items. flat_map item_words items.items ≡ words.now) }
{
    let shows = shows_status(script.source());
    let mut items = Vec::new(alloc);
    let mut coming = ComingWords::new(words);
    let mut waiting = Waiting::new(alloc);
    if let Some(root) = script.root() {
        waiting.push(root, Setting::beginning(asked))?;
    }
    while let Some(part) = waiting.pop() {
        gather(script, shows, part, &mut waiting, &mut coming, &mut items)?;
    }
    Ok(items)
}

/// Appends the command that a part is or begins with, if there is one, with the words that come next, and puts its
/// other parts on the stack.
fn gather<'s>(
    script: &'s Script,
    shows: bool,
    part: Part,
    waiting: &mut Waiting,
    coming: &mut ComingWords<'s>,
    items: &mut Vec<Item<'s>>,
) -> Result<(), AllocError>
    requires known { IsSome (subtree_at script.now part.id) }
    requires begins { BeginWith script.now.text coming.old (of_subtree shows part.setting (subtree_at script.now part.id)) }
    ensures { OnOk result ((more : List Item) × (parts : List Part) × (waiting.new ≡ parts ++ waiting.old)
        × (items.new.items ≡ items.old.items ++ more) × (coming.old ≡ flat_map item_words more ++ coming.new)
        × HasParts script.now.text shows (subtree_at script.now) part more parts) }
{
    let setting = part.setting;
    match script.node(part.id) {
        Node::List(chains) => waiting.push_list(shows, setting, chains),
        Node::Chain(links) => waiting.push_links(setting, links),
        Node::If {
            branches,
            otherwise,
        } => push_if(waiting, setting, branches, otherwise),
        Node::For { words, body, .. } => {
            waiting.push(body, setting.in_turn(shows))?;
            let name = coming.take_one();
            let words = coming.take(words.len());
            push_item(
                items,
                Item::Binding {
                    setting,
                    name,
                    words,
                },
            )
        }
        Node::While { condition, body } => push_loop(waiting, shows, setting, condition, body),
        Node::Until { condition, body } => push_loop(waiting, shows, setting, condition, body),
        Node::Assign { .. } => {
            let name = coming.take_one();
            let value = coming.take_one();
            push_item(
                items,
                Item::Assignment {
                    setting,
                    name,
                    value,
                },
            )
        }
        Node::Simple { words } => push_item(items, Item::Call(setting, coming.take(words.len()))),
    }
}

/// Appends an item.
fn push_item<'s>(items: &mut Vec<Item<'s>>, item: Item<'s>) -> Result<(), AllocError>
    ensures { OnOk result (items.new.items ≡ items.old.items ++ item.entry ∷ []) }
{
    items.push(item)?;
    Ok(())
}

/// Puts the parts of an `if` on the stack.
fn push_if(
    waiting: &mut Waiting,
    setting: Setting,
    branches: &[Branch],
    otherwise: Option<NodeId>,
) -> Result<(), AllocError>
    ensures { OnOk result (waiting.new ≡ if_parts setting true branches.now otherwise ++ waiting.old) }
{
    match otherwise {
        Some(body) => {
            waiting.push(body, Setting::plain(setting.asked))?;
            waiting.push_branches(setting, false, branches)
        }
        None => waiting.push_branches(setting, true, branches),
    }
}

/// Puts the condition and the body of a loop on the stack.
fn push_loop(
    waiting: &mut Waiting,
    shows: bool,
    setting: Setting,
    condition: NodeId,
    body: NodeId,
) -> Result<(), AllocError>
    ensures { OnOk result (waiting.new ≡ part condition (in_loop setting) ∷ part body (plain shows) ∷ waiting.old) }
{
    waiting.push(body, Setting::plain(shows))?;
    waiting.push(condition, setting.in_loop())
}
