//! The names of the commands that a run has itself (docs/runs.md, "Names of builtins").
ghost use Rattle.std.specs.Prelude.{◌≡◌, is_some};
ghost use Rattle.hush_commands.specs.Builtins.{builtin_of};

use hush_calc::is_text;

/// Whether a run has a command of this name itself.
pub fn is_builtin(name: &[u8]) -> bool
    ensures { result ≡ is_some (builtin_of name.now) }
{
    Builtin::of(name).is_some()
}

/// A command that a run has itself.
#[derive(Clone, Copy, Debug, PartialEq, Eq)]
pub(crate) enum Builtin {
    True,
    False,
    Echo,
    SetEnv,
    PrintEnv,
    SaveEnv,
    Run,
    Env,
    Test,
    SetExpr,
    Exit,
}

impl Builtin {
    ghost use Rattle.hush_commands.specs.Builtins.{builtin_of, is_called, name_of};

    pub(crate) const ALL: [Builtin; 11] = [
        Builtin::True,
        Builtin::False,
        Builtin::Echo,
        Builtin::SetEnv,
        Builtin::PrintEnv,
        Builtin::SaveEnv,
        Builtin::Run,
        Builtin::Env,
        Builtin::Test,
        Builtin::SetExpr,
        Builtin::Exit,
    ];

    /// The builtin of a name.
    #[tactic(auto, unfolding(crate::specs::Builtins::builtin_of))]
    pub(crate) fn of(name: &[u8]) -> Option<Builtin>
        ensures { result ≡ builtin_of name.now }
    {
        Builtin::ALL
            .iter()
            .copied()
            .find(|builtin| builtin.is_called(name))
    }

    /// Its name, without the suffixes of `setexpr`.
    pub(crate) fn name(self) -> &'static [u8]
        ensures { result.now ≡ name_of self }
    {
        match self {
            Builtin::True => b"true",
            Builtin::False => b"false",
            Builtin::Echo => b"echo",
            Builtin::SetEnv => b"setenv",
            Builtin::PrintEnv => b"printenv",
            Builtin::SaveEnv => b"saveenv",
            Builtin::Run => b"run",
            Builtin::Env => b"env",
            Builtin::Test => b"test",
            Builtin::SetExpr => b"setexpr",
            Builtin::Exit => b"exit",
        }
    }

    /// Whether a command of this name is it. The suffixes of `setexpr` say how much memory an address reads.
    fn is_called(self, name: &[u8]) -> bool
        ensures { result ≡ is_called self name.now }
    {
        match self {
            Builtin::True => is_text(name, b"true"),
            Builtin::False => is_text(name, b"false"),
            Builtin::Echo => is_text(name, b"echo"),
            Builtin::SetEnv => is_text(name, b"setenv"),
            Builtin::PrintEnv => is_text(name, b"printenv"),
            Builtin::SaveEnv => is_text(name, b"saveenv"),
            Builtin::Run => is_text(name, b"run"),
            Builtin::Env => is_text(name, b"env"),
            Builtin::Test => is_text(name, b"test"),
            Builtin::SetExpr => {
                is_text(name, b"setexpr")
                    || is_text(name, b"setexpr.b")
                    || is_text(name, b"setexpr.w")
                    || is_text(name, b"setexpr.l")
                    || is_text(name, b"setexpr.q")
            }
            Builtin::Exit => is_text(name, b"exit"),
        }
    }
}
