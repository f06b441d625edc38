//! Laws of the definitions that the contracts of this crate are written in.
ghost use Rattle.boot_search.specs.Cuts.{CutsAreAsked, CutsReach, EndsAtOnce};

/// A question at each save, whether the power is cut there, finds whatever a cut at any moment may leave, and nothing else
/// (docs/boot.md).
pub fn cuts_are_asked()
    ensures { CutsAreAsked }
{}

/// Whatever is stored after any number of power-ons, each of which may be cut at any moment, is reached by answers, and
/// nothing else is: `explore` lists just that (docs/boot.md).
pub fn cuts_reach()
    ensures { CutsReach }
{}

/// However a board's questions are answered, once it has ended it has gone one of the ways that an ending is (docs/boot.md).
pub fn ends_at_once()
    ensures { EndsAtOnce }
{}
