//! What a board runs when its power comes on.
ghost use Rattle.std.specs.Prelude.{◌≡◌, IfOk, Some};
ghost use Rattle.hush_run.specs.Meaning.{bodies_of};
ghost use Rattle.hush_syntax.specs.Reading.{read_in};
ghost use Rattle.hush_syntax.specs.Scripts.{tree_of};
ghost use Rattle.fw_boots.specs.PowerOns.{power_on_text};

use hush_run::{Shell, bodies_of};
use hush_syntax::Script;
use std::alloc::{AllocError, Global};

/// `preboot` if there is one, and `bootcmd` unless `bootdelay` is -1 then; `bootcmd` begins with status 0, or with 1 if
/// `preboot` left another.
const POWER_ON: &[u8] =
    b"if env exists preboot; then run preboot; else true; fi; if test $? != 0 -a \"${bootdelay}\" -ne -1; then false || run bootcmd; elif test \"${bootdelay}\" -ne -1; then run bootcmd; fi";

/// `preboot` alone, if there is one.
pub(crate) const PREBOOT: &[u8] = b"if env exists preboot; then run preboot; else true; fi";

/// The script that a board runs when its power comes on, as a shell reads it; of one that counts its power-ons what comes
/// first (docs/boot.md). `AllocError` if memory runs out.
pub fn power_on_script(alloc: Global, shell: Shell, counts: bool) -> Result<Script, AllocError>
    ensures { IfOk result (λ script. read_in (bodies_of shell) (power_on_text counts) ≡ Some (tree_of script)) }
{
    let text = Vec::from_slice(alloc, first_text(counts))?;
    read_text(alloc, shell, text)
}

/// Its text.
fn first_text(counts: bool) -> &'static [u8]
    ensures { result.now ≡ power_on_text counts }
{
    if counts { PREBOOT } else { POWER_ON }
}

/// The script of a text, which is one. `AllocError` if memory runs out, or if it isn't.
pub(crate) fn read_text(alloc: Global, shell: Shell, text: Vec<u8>) -> Result<Script, AllocError>
    ensures { IfOk result (λ script. read_in (bodies_of shell) text.items ≡ Some (tree_of script)) }
{
    match Script::parse_in(alloc, text, bodies_of(shell)) {
        Ok(script) => Ok(script),
        Err(_) => Err(AllocError),
    }
}
