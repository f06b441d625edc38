//! What a subcommand does over its session, as the arguments ask for it.
ghost use Rattle.std.specs.Prelude.{◌≡◌};
ghost use Rattle.clap.specs.Words.{found_of, rows_of};
ghost use Rattle.fw_arguments.specs.Calls.{booted, called, checked, job_of, job_view, keeps_lock, ran, task_of, tried, writes};
ghost use Rattle.fw_arguments.specs.Checks.{environment_check_of};
ghost use Rattle.fw_arguments.specs.DryRuns.{dry_run_of, script_run_of};
ghost use Rattle.fw_arguments.specs.PowerOns.{power_ons_of};
ghost use Rattle.fw_arguments.specs.WordFaults.{word_seen};

use crate::check_requests::{EnvironmentCheck, read_environment_check};
use crate::dry_runs::{DryRun, ScriptRun, read_dry_run, read_script_run};
use crate::power_ons::{PowerOns, read_power_ons};
use crate::task::{Task, read_task};
use crate::word_fault::WordFault;
use clap::ArgMatches;

/// What a subcommand does over its session.
#[derive(Clone, Copy, Debug)]
pub enum Job<'m, 'w> {
    /// A tool works on it.
    Tool(Task<'m, 'w>),
    /// Blocks of script and dot lines are tried on it.
    DryRun(DryRun<'m, 'w>),
    /// A script is run over it.
    Script(ScriptRun<'m, 'w>),
    /// A board is powered on from it and from what it stores then.
    Boot(PowerOns<'m, 'w>),
    /// Its scripts are checked.
    Check(EnvironmentCheck<'m, 'w>),
}

impl Job<'_, '_> {
    /// Whether it may write the copies back.
    pub fn writes(&self) -> bool
        ensures { result ≡ writes (job_view self.now) }
    {
        match self {
            Job::Tool(task) => task.changes(),
            Job::DryRun(run) => run.write,
            Job::Script(run) => run.dry.write,
            Job::Boot(_) => false,
            Job::Check(_) => false,
        }
    }

    /// Whether it works under that lock; a session releases it once the copies are read, and takes it again to write.
    pub fn keeps_lock(&self) -> bool
        ensures { result ≡ keeps_lock (job_view self.now) }
    {
        match self {
            Job::Tool(task) => task.changes(),
            Job::DryRun(_) => false,
            Job::Script(run) => run.dry.write,
            Job::Boot(_) | Job::Check(_) => false,
        }
    }
}

/// What the arguments of the subcommand `name` ask to be done over its session.
pub(crate) fn read_job<'m, 'w>(
    name: &str,
    found: &'m ArgMatches<'w>,
) -> Result<Job<'m, 'w>, WordFault<'w>>
    ensures { word_seen job_view result ≡ job_of name.now (rows_of (found_of found.now)) }
{
    if name == "session" {
        return dry_job(found);
    }
    if name == "run" {
        return script_job(found);
    }
    if name == "boot" {
        return boot_job(found);
    }
    if name == "check" {
        return check_job(found);
    }
    tool_job(name, found)
}

/// The dry run that the arguments of `session` ask for.
fn dry_job<'m, 'w>(found: &'m ArgMatches<'w>) -> Result<Job<'m, 'w>, WordFault<'w>>
    ensures { word_seen job_view result ≡ tried (dry_run_of (rows_of (found_of found.now))) }
{
    match read_dry_run(found) {
        Ok(run) => Ok(Job::DryRun(run)),
        Err(fault) => Err(fault),
    }
}

/// The run of a script that the arguments of `run` ask for.
fn script_job<'m, 'w>(found: &'m ArgMatches<'w>) -> Result<Job<'m, 'w>, WordFault<'w>>
    ensures { word_seen job_view result ≡ ran (script_run_of (rows_of (found_of found.now))) }
{
    match read_script_run(found) {
        Ok(run) => Ok(Job::Script(run)),
        Err(fault) => Err(fault),
    }
}

/// The power-ons that the arguments of `boot` ask for.
fn boot_job<'m, 'w>(found: &'m ArgMatches<'w>) -> Result<Job<'m, 'w>, WordFault<'w>>
    ensures { word_seen job_view result ≡ booted (power_ons_of (rows_of (found_of found.now))) }
{
    match read_power_ons(found) {
        Ok(power_ons) => Ok(Job::Boot(power_ons)),
        Err(fault) => Err(fault),
    }
}

/// The check that the arguments of `check` ask for.
fn check_job<'m, 'w>(found: &'m ArgMatches<'w>) -> Result<Job<'m, 'w>, WordFault<'w>>
    ensures { word_seen job_view result ≡ checked (environment_check_of (rows_of (found_of found.now))) }
{
    match read_environment_check(found) {
        Ok(check) => Ok(Job::Check(check)),
        Err(fault) => Err(fault),
    }
}

/// The tool that the arguments of another subcommand call.
fn tool_job<'m, 'w>(name: &str, found: &'m ArgMatches<'w>) -> Result<Job<'m, 'w>, WordFault<'w>>
    ensures { word_seen job_view result ≡ called (task_of name.now (rows_of (found_of found.now))) }
{
    match read_task(name, found) {
        Ok(task) => Ok(Job::Tool(task)),
        Err(text) => Err(WordFault::of(text)),
    }
}
