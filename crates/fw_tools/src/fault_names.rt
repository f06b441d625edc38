//! The names of faults, as they are printed.
ghost use Rattle.std.specs.Prelude.{◌≡◌, None, Some};
ghost use Rattle.fw_tools.specs.FaultNames.{config_fault, named_view, refusal_name, refused_entry, stub_fault, text_fault};

use envcfg_core::{ConfigFault, TextFault};
use envvars_core::Refusal;
use hush_commands::StubFault;

/// A fault's name, and the number of the line that it is in, if it is in one.
#[derive(Clone, Copy)]
pub(crate) struct NamedFault {
    pub(crate) name: &'static [u8],
    pub(crate) line: Option<usize>,
}

impl NamedFault {
    /// Of a text as a whole.
    fn whole(name: &'static [u8]) -> NamedFault
        ensures { named_view result ≡ (name.now, None) }
    {
        NamedFault { name, line: None }
    }

    /// Of one line.
    fn of_line(name: &'static [u8], line: usize) -> NamedFault
        ensures { named_view result ≡ (name.now, Some line) }
    {
        NamedFault {
            name,
            line: Some(line),
        }
    }
}

/// Why a configuration is refused.
pub(crate) fn config_fault(fault: ConfigFault) -> NamedFault
    ensures { named_view result ≡ config_fault fault }
{
    match fault {
        ConfigFault::NoCopy => NamedFault::whole(b"NoCopy"),
        ConfigFault::Size(line) => NamedFault::of_line(b"Size", line),
        ConfigFault::Unequal => NamedFault::whole(b"Unequal"),
        ConfigFault::Overlap => NamedFault::whole(b"Overlap"),
        ConfigFault::NotUtf8(line) => NamedFault::of_line(b"NotUtf8", line),
        ConfigFault::Memory => NamedFault::whole(b"Memory"),
    }
}

/// Why a text for import or a set script is refused.
pub(crate) fn text_fault(fault: TextFault) -> NamedFault
    ensures { named_view result ≡ text_fault fault }
{
    match fault {
        TextFault::EmptyName(line) => NamedFault::of_line(b"EmptyName", line),
        TextFault::Nul => NamedFault::whole(b"Nul"),
        TextFault::Memory => NamedFault::whole(b"Memory"),
    }
}

/// Why a stand-in file is refused.
pub(crate) fn stub_fault(fault: StubFault) -> NamedFault
    ensures { named_view result ≡ stub_fault fault }
{
    match fault {
        StubFault::Line(line) => NamedFault::of_line(b"Line", line),
        StubFault::Builtin(line) => NamedFault::of_line(b"Builtin", line),
        StubFault::Twice(line) => NamedFault::of_line(b"Twice", line),
        StubFault::Memory => NamedFault::whole(b"Memory"),
    }
}

/// Why the entry in this line of a default environment is refused.
pub(crate) fn refused_entry(line: usize, refusal: Refusal) -> NamedFault
    ensures { named_view result ≡ refused_entry line refusal }
{
    NamedFault::of_line(refusal_name(refusal), line)
}

/// The name of a refusal.
fn refusal_name(refusal: Refusal) -> &'static [u8]
    ensures { result.now ≡ refusal_name refusal }
{
    match refusal {
        Refusal::BadForm => b"BadForm",
        Refusal::BadType => b"BadType",
        Refusal::NoCreate => b"NoCreate",
        Refusal::NoDelete => b"NoDelete",
        Refusal::NoOverwrite => b"NoOverwrite",
        Refusal::Full => b"Full",
        Refusal::Memory => b"Memory",
    }
}
