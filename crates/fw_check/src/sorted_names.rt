//! The names of an environment in order.
ghost use Rattle.std.specs.Prelude.{◌≡◌, IfOk, filter, map, nat_eq, not, true};
ghost use Rattle.std.specs.List.{starts_with};
ghost use Rattle.fw_check.specs.Following.{names_of, names_with};
ghost use Rattle.fw_check.specs.NameSets.{is_ascending, is_before};

use envvars_core::Vars;
use std::alloc::{AllocError, Global};
use std::cmp::Ordering;
use std::marker::Model;

/// The names of an environment's variables, in ascending order of their bytes.
#[derive(Drop)]
pub(crate) struct SortedNames<'v> {
    names: Vec<&'v [u8]>,
}

impl<'v> Model for SortedNames<'v> {
    ghost use Rattle.std.specs.Prelude.{◌≡◌, ℕ, true, List, map};
    ghost use Rattle.fw_check.specs.NameSets.{is_ascending};

    ghost Value = { List (List ℕ) };

    ghost view = { λ a. map (λ n. n.now) a.names.items };

    ghost invariant = { λ a. is_ascending (map (λ n. n.now) a.names.items) ≡ true };
}

impl<'v> SortedNames<'v> {
    /// Those of an environment.
    pub(crate) fn of(alloc: Global, vars: &'v Vars) -> Result<SortedNames<'v>, AllocError>
        ensures { IfOk result (λ names. names ≡ names_of vars.now.env) }
    {
        let mut names = Vec::new(alloc);
        for (name, _) in vars.iter() {
            names.push(name)?;
        }
        Ok(SortedNames { names })
    }

    /// All of them.
    pub(crate) fn all(&self) -> &[&'v [u8]]
        ensures { map (λ n. n.now) result.now ≡ self.now }
    {
        self.names.as_slice()
    }

    /// Those that begin so.
    pub(crate) fn beginning(&self, front: &[u8]) -> &[&'v [u8]]
        ensures { map (λ n. n.now) result.now ≡ names_with front.now self.now }
    {
        let rest = not_before(&self.names, front);
        let count = rest.partition_point(
            |name: &&[u8]| -> bool
                ensures { result ≡ starts_with nat_eq name.now.now front.entry.now }
            { name.starts_with(front) },
        );
        &rest[..count]
    }
}

/// These names from the first one on that doesn't come before a text.
fn not_before<'n, 'v>(names: &'n [&'v [u8]], text: &[u8]) -> &'n [&'v [u8]]
    requires { is_ascending (map (λ n. n.now) names.now) ≡ true }
    ensures ascending { is_ascending (map (λ n. n.now) result.now) ≡ true }
    ensures kept { result.now ≡ filter (λ n. not (is_before text.now n.now)) names.now }
{
    let first = names.partition_point(
        |name: &&[u8]| -> bool
            ensures { result ≡ is_before text.entry.now name.now.now }
        { is_before(text, name) },
    );
    &names[first..]
}

/// Whether a name comes before a text in the order of their bytes.
fn is_before(text: &[u8], name: &[u8]) -> bool
    ensures { result ≡ is_before text.now name.now }
{
    matches!(name.cmp(text), Ordering::Less)
}
