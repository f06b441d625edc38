//! What holds of the grammar for every text. The functions do nothing; their contracts are the laws.

ghost use Rattle.hush_syntax.specs.Laws.{HaltsAreTold, OneTree, OneTreeIn, ScriptsAreRead, ScriptsAreReadIn, TreesAreRead, TreesAreReadIn, WordsAreTold};

use crate::Bodies;
use hush_words::laws::{assignment_is_told, name_is_told, plain_is_told, tokens_are_read};

/// A text spells at most one tree.
pub fn one_tree()
    ensures { OneTree }
{
    one_tree_in(Bodies::Full);
}

/// A text spells at most one tree, with either kind of bodies.
pub fn one_tree_in(bodies: Bodies)
    ensures { OneTreeIn bodies }
{
    scripts_are_read_in(bodies);
}

/// The script that is read from a list of tokens is exactly the one that they spell.
pub fn trees_are_read()
    ensures { TreesAreRead }
{
    trees_are_read_in(Bodies::Full);
}

/// The same with either kind of bodies.
pub fn trees_are_read_in(bodies: Bodies)
    ensures { TreesAreReadIn bodies }
{
    plain_is_told();
    name_is_told();
    assignment_is_told();
}

/// The script that is read from a text is exactly the one that it spells.
pub fn scripts_are_read()
    ensures { ScriptsAreRead }
{
    scripts_are_read_in(Bodies::Full);
}

/// The same with either kind of bodies.
pub fn scripts_are_read_in(bodies: Bodies)
    ensures { ScriptsAreReadIn bodies }
{
    tokens_are_read();
    trees_are_read_in(bodies);
}

/// The words of a text's commands, without reserved words, are those of the tree that it spells.
pub fn words_are_told()
    ensures { WordsAreTold }
{
    plain_is_told();
    name_is_told();
    assignment_is_told();
    tokens_are_read();
}

/// A text stops being a script somewhere exactly if it spells none.
pub fn halts_are_told()
    ensures { HaltsAreTold }
{
    plain_is_told();
    name_is_told();
    assignment_is_told();
    tokens_are_read();
}
