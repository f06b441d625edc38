//! The names that a check begins with.
ghost use Rattle.std.specs.Prelude.{◌≡◌, OnOk, map};
ghost use Rattle.fw_check.specs.Following.{begin_all, begin_from, follow_names, follow_usual};
ghost use Rattle.fw_check.specs.Looking.{hardware_in};

use crate::following::Followed;
use crate::lookups::Lookups;
use std::alloc::{AllocError, Global};

/// The names that a check begins with first if it is given none.
const USUAL: [&[u8]; 3] = [b"bootcmd", b"altbootcmd", b"preboot"];

/// Follows what a check begins with: these names; if all is looked at, then the usual ones, the entries of a boot menu and each variable
/// whose value looks like a script.
pub(crate) fn follow_first(
    lookups: &Lookups<'_>,
    all: bool,
    alone: bool,
    names: &[&[u8]],
    followed: &mut Followed<'_, '_>,
) -> Result<(), AllocError>
    ensures { OnOk result
        (followed.new ≡ begin_all (hardware_in lookups.now) followed.old all alone (map (λ n. n.now) names.now)) }
{
    if !all {
        return follow_start(lookups.alloc, alone, names, followed);
    }
    follow_names(lookups.alloc, names, followed)?;
    follow_usual(lookups.alloc, followed)?;
    followed.follow_scripts(lookups)
}

/// Follows these names; without any the usual ones and the entries of a boot menu, if the environment is checked alone.
fn follow_start(
    alloc: Global,
    alone: bool,
    names: &[&[u8]],
    followed: &mut Followed<'_, '_>,
) -> Result<(), AllocError>
    ensures { OnOk result
        (followed.new ≡ begin_from followed.old alone (map (λ n. n.now) names.now)) }
{
    if alone && names.is_empty() {
        follow_usual(alloc, followed)
    } else {
        follow_names(alloc, names, followed)
    }
}

/// Follows the usual names, and the entries of a boot menu.
fn follow_usual(alloc: Global, followed: &mut Followed<'_, '_>) -> Result<(), AllocError>
    ensures { OnOk result (followed.new ≡ follow_usual followed.old) }
{
    follow_names(alloc, &USUAL, followed)?;
    followed.follow_entries(alloc)
}

/// Follows these names.
fn follow_names(
    alloc: Global,
    names: &[&[u8]],
    followed: &mut Followed<'_, '_>,
) -> Result<(), AllocError>
    ensures { OnOk result (followed.new ≡ follow_names followed.old (map (λ n. n.now) names.now)) }
{
    for name in names {
        followed.follow_name(alloc, name)?;
    }
    Ok(())
}
