//! Laws over the definitions alone: each function does at most cite another, and its contract is the law.
ghost use Rattle.torn_copies.specs.Laws.{OneIsTorn, SaveCutShort, BothCutShort};

use devices::laws::{no_other_byte, one_copy_torn};

/// A copy that isn't the current one is torn.
pub fn one_is_torn()
    ensures { OneIsTorn }
{}

/// What is left of a save that is cut short.
pub fn save_cut_short()
    ensures { SaveCutShort }
{
    no_other_byte();
}

/// What is left of two saves that are cut short.
pub fn both_cut_short()
    ensures { BothCutShort }
{
    one_copy_torn();
}
