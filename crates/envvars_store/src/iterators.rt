//! The variables one after another, in the order of their names.
ghost use Rattle.std.specs.Prelude.{◌≡◌, [], ◌∷◌, map, All, MatchOption};
ghost use Rattle.std.specs.Iterator.{YieldsFirstBy, item_count};
ghost use Rattle.envvars_store.specs.Pairs.{lent_pair, lent_line};
ghost use Rattle.envimg_core.specs.Environment.{entry_text};
ghost use Rattle.envvars_store.specs.Runs.{flat, listed, IsFilled, AreInOrder};

use crate::runs::Run;
use crate::variable::Variable;
use std::marker::Model;

/// The names with their values. Contracts see the list of those that are left.
#[derive(Drop)]
pub struct Iter<'a> {
    area: &'a [u8],
    variables: InOrder<'a>,
}

impl<'a> Model for Iter<'a> {
    ghost use Rattle.std.specs.Prelude.{List, All};
    ghost use Rattle.envimg_core.specs.Environment.{Pair};
    ghost use Rattle.envvars_store.specs.Laying.{LiesIn};
    ghost use Rattle.envvars_store.specs.Runs.{pairs};

    ghost Value = { List Pair };

    ghost view = { λ s. pairs s.area.now s.variables };

    ghost invariant = { λ s. All (LiesIn s.area.now) s.variables };
}

impl<'a> Iter<'a> {
    /// The variables of runs over an area, from the first on.
    pub(crate) fn new(area: &'a [u8], runs: &'a [Run]) -> Iter<'a>
        requires { AreInOrder area.now runs.now }
        ensures { result ≡ listed area.now runs.now }
    {
        Iter {
            area,
            variables: InOrder::new(runs),
        }
    }
}

impl<'a> Iterator for Iter<'a> {
    type Item = (&'a [u8], &'a [u8]);

    ghost next_gives = { YieldsFirstBy lent_pair (λ s. s) };

    ghost remaining = { item_count (λ s. s) };

    fn next(&mut self) -> Option<(&'a [u8], &'a [u8])> {
        let variable = self.variables.next()?;
        let area = self.area;
        Some((variable.name(area), variable.value(area)))
    }
}

/// The variables as texts `name=value`. Contracts see the list of those that are left.
#[derive(Drop)]
pub struct Lines<'a> {
    area: &'a [u8],
    variables: InOrder<'a>,
}

impl<'a> Model for Lines<'a> {
    ghost use Rattle.std.specs.Prelude.{List, ℕ, map, All};
    ghost use Rattle.envvars_store.specs.Laying.{LiesIn};
    ghost use Rattle.envvars_store.specs.Runs.{pairs};
    ghost use Rattle.envimg_core.specs.Environment.{entry_text};

    ghost Value = { List (List ℕ) };

    ghost view = { λ s. map entry_text (pairs s.area.now s.variables) };

    ghost invariant = { λ s. All (LiesIn s.area.now) s.variables };
}

impl<'a> Lines<'a> {
    /// The lines of runs over an area, from the first on.
    pub(crate) fn new(area: &'a [u8], runs: &'a [Run]) -> Lines<'a>
        requires { AreInOrder area.now runs.now }
        ensures { result ≡ map entry_text (listed area.now runs.now) }
    {
        Lines {
            area,
            variables: InOrder::new(runs),
        }
    }
}

impl<'a> Iterator for Lines<'a> {
    type Item = &'a [u8];

    ghost next_gives = { YieldsFirstBy lent_line (λ s. s) };

    ghost remaining = { item_count (λ s. s) };

    fn next(&mut self) -> Option<&'a [u8]> {
        let variable = self.variables.next()?;
        Some(variable.line(self.area))
    }
}

/// The variables that are left: those of one run, and those of the runs after it.
#[derive(Drop)]
struct InOrder<'a> {
    run: &'a [Variable],
    runs: &'a [Run],
}

impl<'a> Model for InOrder<'a> {
    ghost use Rattle.std.specs.Prelude.{List, ◌++◌, All};
    ghost use Rattle.envvars_store.specs.Runs.{flat, IsFilled};
    ghost use Rattle.envvars_store.specs.declared.variable.Variable.{Variable};

    ghost Value = { List Variable };

    ghost view = { λ s. s.run.now ++ flat s.runs.now };

    ghost invariant = { λ s. All IsFilled s.runs.now };
}

impl<'a> InOrder<'a> {
    /// The variables of runs, from the first on.
    fn new(runs: &'a [Run]) -> InOrder<'a>
        requires { All IsFilled runs.now }
        ensures { result ≡ flat runs.now }
    {
        InOrder { run: &[], runs }
    }

    /// The next variable.
    fn next(&mut self) -> Option<&'a Variable>
        ensures { MatchOption result ((self.old ≡ []) × (self.new ≡ []))
            (λ variable. self.old ≡ variable.now ∷ self.new) }
    {
        match self.run.split_first() {
            Some((variable, run)) => {
                self.run = run;
                Some(variable)
            }
            None => {
                let (run, runs) = self.runs.split_first()?;
                let (variable, run) = run.split_first()?;
                self.run = run;
                self.runs = runs;
                Some(variable)
            }
        }
    }
}
