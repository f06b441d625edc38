//! Laws over the definitions alone: each function does nothing, and its contract is the law. A caller of `restore`
//! shows that what comes back fits, and may begin with `nothing_restored`.
ghost use Rattle.std.specs.Prelude.{◌≡◌, ◌+◌, ℕ, List, Option};
ghost use Rattle.std.specs.FinMap as env;
ghost use Rattle.envimg_core.specs.Environment.{Environment, used};
ghost use Rattle.envvars_core.specs.Refusals.{given, after};
ghost use Rattle.envvars_core.specs.Variables.{size_of};
ghost use Rattle.envvars_core.specs.Laws.{RestoredIs, NothingRestored, WritesRestored, FirstKept};

/// A write gives back the bytes of the old value and takes those of the new one.
pub fn size_after_write()
    ensures { (m : Environment) (n : List ℕ) (new : Option (List ℕ)) →
        used (after m n new) + size_of n (env.get m n) ≡ used m + size_of n (given new) }
{}

/// A removal gives back the bytes of the variable.
pub fn size_after_removal()
    ensures { (m : Environment) (n : List ℕ) →
        used (env.remove m n) + size_of n (env.get m n) ≡ used m }
{}

/// What is kept, put back: each kept name has its old value, or no value if it had none, and every other name stays.
pub fn restored_is()
    ensures { RestoredIs }
{}

/// If nothing is kept, nothing is brought back.
pub fn nothing_restored()
    ensures { NothingRestored }
{}

/// After any list of accepted writes whose old values were kept, putting these back gives the variables before them.
pub fn writes_restored()
    ensures { WritesRestored }
{}

/// After any list of accepted writes, one value is kept for each name that some of them changed and for no other:
/// the value, or that there was none, before all of them.
pub fn first_kept()
    ensures { FirstKept }
{}
