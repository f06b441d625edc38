//! Laws over the definitions alone: each function does nothing, and its contract is the law.
ghost use Rattle.std.specs.Prelude.{ℕ, List};
ghost use Rattle.envimg_core.specs.Laws.{LastDecides, ImageReadsBack, LoadedFits};
ghost use Rattle.envimg_core.specs.Pieces.{entries_of};

/// Of the entries of any area the last one for a name decides: its value, or no value if it has none.
pub fn last_entry_decides()
    ensures { (area name : List ℕ) → LastDecides (entries_of area) name }
{}

/// The image of an environment that fits is good, and its variables are that environment.
pub fn image_reads_back()
    ensures { ImageReadsBack }
{}

/// The variables of a terminated area take at most as many bytes as the area has.
pub fn loaded_fits()
    ensures { LoadedFits }
{}
