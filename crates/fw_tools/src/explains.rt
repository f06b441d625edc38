//! Which subcommands report why a file can't be used.
ghost use Rattle.std.specs.Prelude.{◌≡◌};
ghost use Rattle.fw_arguments.specs.Calls.{call_view, job_view, task_view};
ghost use Rattle.fw_arguments.specs.Report.{asked_view};
ghost use Rattle.fw_tools.specs.Reasons.{explains, explains_asked, explains_job, explains_task};

use fw_arguments::{Asked, Call, Job, Task};

/// Whether a line about a file that can't be used has the reason.
#[derive(Clone, Copy, Debug, PartialEq, Eq)]
pub(crate) enum Explains {
    /// It has no reason: the texts of the older subcommands are fixed to the byte.
    Nothing,
    /// It has the reason, if that is known.
    Reason,
}

impl Explains {
    /// Decides by the subcommand, and by the program's name. What opens no session always reports the reason.
    pub(crate) fn of(asked: &Asked<'_, '_>) -> Explains
        ensures { result ≡ explains_asked (asked_view asked.now) }
    {
        match asked {
            Asked::Work(call) => Explains::by(call),
            _ => Explains::Reason,
        }
    }

    /// The same for what opens one.
    pub(crate) fn by(call: &Call<'_, '_>) -> Explains
        ensures { result ≡ explains (call_view call.now) }
    {
        // only fw_printenv and fw_setenv save nothing but changes
        if call.only_changes {
            Explains::Reason
        } else {
            Explains::by_job(&call.job)
        }
    }

    /// The same under the name `fwenv`.
    fn by_job(job: &Job<'_, '_>) -> Explains
        ensures { result ≡ explains_job (job_view job.now) }
    {
        match job {
            Job::Tool(task) => Explains::by_task(task),
            Job::DryRun(_) => Explains::Nothing,
            Job::Script(_) => Explains::Reason,
            Job::Boot(_) => Explains::Reason,
            Job::Check(_) => Explains::Reason,
        }
    }

    /// The same for a tool.
    fn by_task(task: &Task<'_, '_>) -> Explains
        ensures { result ≡ explains_task (task_view task.now) }
    {
        match task {
            Task::Restore { .. } => Explains::Reason,
            _ => Explains::Nothing,
        }
    }
}
