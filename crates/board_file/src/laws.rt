//! What holds of rules that can't be reached. The functions do nothing; their contracts are the laws.
ghost use Rattle.board_file.specs.Covering.{CoveredIsAnswered, CoveredIsNothing};

/// A rule of which earlier ones answer all calls is never the first that fits: what its pattern fits, one of these answers.
pub fn covered_is_answered()
    ensures { CoveredIsAnswered }
{}

/// And without it all calls are answered alike.
pub fn covered_is_nothing()
    ensures { CoveredIsNothing }
{}
