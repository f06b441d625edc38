//! `boot`: a board is powered on from a session's variables, and from all that it stores then.
ghost use Rattle.std.specs.Prelude.{◌≡◌, IfOk, IfSome, MatchResult, false, map, option_copied};
ghost use Rattle.hush_syntax.specs.Scripts.{tree_of};
ghost use Rattle.hush_commands.specs.Hardware.{hardware};
ghost use Rattle.fw_arguments.specs.PowerOns.{power_ons_view};
ghost use Rattle.fw_boots.specs.Cuts.{cutting_of};
ghost use Rattle.fw_boots.specs.Boots.{BootsAs, power_of};
ghost use Rattle.fw_tools.specs.NewImages.{image_bytes};
ghost use Rattle.fw_tools.specs.Said.{AreSame};
ghost use Rattle.fw_tools.specs.PowerOns.{BootsOver, IsToldOf, PrintsBoots, cutting_for, one_copy};

use crate::after_scripts::scripts_of;
use crate::halt::Halt;
use crate::hardware::{GivenHardware, read_hardware};
use crate::new_image::new_image;
use crate::printing::print_text;
use crate::progress::Progress;
use crate::tool_messages::report;
use env_requests::RunRules;
use env_session::{Session, Side};
use envimg_core::{Geometry, Layout};
use envvars_core::{Memory, Vars};
use fw_arguments::PowerOns;
use fw_boots::{Boot, BootText, Cuts, Limits, Watch, boot_graph, boot_text, power_on_script};
use fw_engines::{StreamFault, ToolEnd};
use fw_files::System;
use hush_run::bodies_of;
use hush_syntax::Script;
use std::alloc::{AllocError, Global};
use std::io::Write;

/// The checksum before the data area of one copy, in bytes.
const HEAD: u32 = 4;

/// Tells what the power-ons that are asked for lead to, and answers the exit status.
pub(crate) fn boot_given<'w, X: System + AllocGlobal, W: Write, E: Write>(
    rt: &X,
    session: &Session,
    asked: &PowerOns<'_, 'w>,
    output: &mut W,
    errors: &mut E,
) -> Result<u8, Halt<'w>>
    ensures { MatchResult result (BootsOver (X.holds rt.now) (power_ons_view asked.now) session.now
        (record { output = W.contents output.old; errors = E.contents errors.old })
        (record { output = W.contents output.new; errors = E.contents errors.new }))
        (λ _. AreSame (record { output = W.contents output.old; errors = E.contents errors.old })
        (record { output = W.contents output.new; errors = E.contents errors.new })) }
{
    let hardware = read_hardware(rt, &asked.dry, true)?;
    let after = scripts_of(rt, bodies_of(asked.dry.shell), asked.after)?;
    let end = print_boots(rt, session, asked, &hardware, &after, output);
    Ok(report(end, errors))
}

/// Prints what the power-ons lead to.
fn print_boots<X: System + AllocGlobal, W: Write>(
    rt: &X,
    session: &Session,
    asked: &PowerOns<'_, '_>,
    given: &GivenHardware,
    after: &[Script],
    output: &mut W,
) -> ToolEnd
    ensures { PrintsBoots (power_ons_view asked.now) (hardware given.now.board given.now.stand_ins) (map tree_of after.now) session.now
        (W.contents output.old) (W.contents output.new) result }
{
    match told_of(rt, session, asked, given, after) {
        Err(_) => ToolEnd::stopped(StreamFault::Memory),
        Ok(told) => print_text(&told.text, told.status, output),
    }
}

/// What is told of the power-ons.
fn told_of<X: System + AllocGlobal>(
    rt: &X,
    session: &Session,
    asked: &PowerOns<'_, '_>,
    given: &GivenHardware,
    after: &[Script],
) -> Result<BootText, AllocError>
    ensures { IfOk result (IsToldOf (power_ons_view asked.now) (hardware given.now.board given.now.stand_ins)
        (map tree_of after.now) session.now) }
{
    let Some(geometry) = one_copy(session) else {
        // never: each copy that a session may have is as large
        return Err(AllocError);
    };
    let alloc = rt.alloc();
    let Ok(first) = copy_of(alloc, session.vars(), geometry) else {
        return Err(AllocError);
    };
    let Ok(bad) = copy_of(alloc, session.defaults(), geometry) else {
        return Err(AllocError);
    };
    let script = power_on_script(alloc, asked.dry.shell, asked.counts)?;
    let rules = RunRules {
        shell: asked.dry.shell,
        stand_ins: &given.stand_ins,
        board: &given.board,
        limits: &asked.dry.limits,
    };
    let boot = Boot {
        rules,
        cuts: cuts_for(asked.cuts, session.copy(Side::Second), &bad),
        counts: asked.counts,
        script: &script,
        after,
        geometry,
        defaults: session.defaults(),
        first: &first,
    };
    let limits = Limits {
        stored: asked.stored as usize,
        ways: asked.ways as usize,
    };
    watched_text(rt, asked.dot, &boot, limits)
}

/// What is told of a board's power-ons. Somebody who watches `rt` sees until then how far they have come.
fn watched_text<X: System + AllocGlobal>(
    rt: &X,
    is_graph: bool,
    boot: &Boot<'_>,
    limits: Limits,
) -> Result<BootText, AllocError>
    ensures { IfOk result (BootsAs is_graph (power_of boot.now) limits.ways) }
{
    let progress = Progress::new(rt);
    let told = text_or_graph(rt.alloc(), is_graph, boot, limits, &progress);
    progress.wipe();
    told
}

/// The same, as a text or as a graph; `watch` is told how far it has come.
fn text_or_graph<W: Watch>(
    alloc: Global,
    is_graph: bool,
    boot: &Boot<'_>,
    limits: Limits,
    watch: &W,
) -> Result<BootText, AllocError>
    ensures { IfOk result (BootsAs is_graph (power_of boot.now) limits.ways) }
{
    if is_graph {
        boot_graph(alloc, boot, limits, watch)
    } else {
        boot_text(alloc, boot, limits, watch)
    }
}

/// The shape of one copy that has the room of a session's.
fn one_copy(session: &Session) -> Option<Geometry>
    ensures { IfSome result (λ geometry. geometry ≡ one_copy session.now.shape) }
{
    let size = session.vars().room().checked_add(HEAD)?;
    Geometry::new(Layout::Single, size)
}

/// A copy of that shape with these variables. `Memory` if memory runs out, or if they don't fit.
fn copy_of(alloc: Global, vars: &Vars, geometry: Geometry) -> Result<Vec<u8>, Memory>
    ensures { IfOk result (λ copy. copy.items ≡ image_bytes geometry false vars.now.env) }
{
    if vars.used() > geometry.room() {
        // never: both the variables and the defaults of a session fit its copies
        return Err(Memory);
    }
    let vars = vars.copy(alloc, geometry.room())?;
    new_image(alloc, geometry, false, vars)
}

/// Where the power may fail: a session's second copy tells whether one copy is stored or two.
fn cuts_for<'a>(is_asked: bool, second: Option<&[u8]>, bad: &'a [u8]) -> Cuts<'a>
    ensures { cutting_of result ≡ cutting_for is_asked (option_copied second.entry) bad.now }
{
    match (is_asked, second) {
        (false, _) => Cuts::Never,
        (true, None) => Cuts::OfOne { bad },
        (true, Some(_)) => Cuts::OfTwo,
    }
}
