//! A node as the tables of a script hold it.

use crate::nodes::NodeId;

/// Members of a table that are one after the other: from this one on, this many.
#[derive(Clone, Copy, Debug)]
pub(crate) struct Block {
    pub(crate) first: u32,
    pub(crate) len: u32,
}

/// A node, whose members are in the other tables. It takes 16 bytes, so no variant has more than three numbers: a
/// `for` has its name in the table of words, and an assignment both its sides.
#[derive(Clone, Copy, Debug)]
pub(crate) enum Stored {
    /// Chains, of which one that is a command alone is the command's own node.
    List(Block),
    /// Links, two or more.
    Chain(Block),
    /// The branches of an `if` without `else`.
    If { branches: Block },
    /// The branches of an `if`, and the list after `else`.
    IfElse { branches: Block, otherwise: NodeId },
    /// The name and after it the words of a `for`, and its body.
    For { words: Block, body: NodeId },
    While { condition: NodeId, body: NodeId },
    Until { condition: NodeId, body: NodeId },
    /// The name and after it the value.
    Assign { sides: Block },
    Simple { words: Block },
}

const _: () = prove!(size_of::<Stored>() == 16);
