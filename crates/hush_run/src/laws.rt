//! What holds of the meaning for every script. The function does nothing; its contract is the law.

ghost use Rattle.hush_run.specs.Laws.{LoopsUnroll};

/// A turn of a loop is its condition, its body and the turns after it.
pub fn loops_unroll()
    ensures { LoopsUnroll }
{}
