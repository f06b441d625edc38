//! What is wrong with arguments that clap's rules don't detect.
ghost use Rattle.std.specs.Prelude.{◌≡◌};
ghost use Rattle.fw_arguments.specs.WordFaults.{fault_text};

/// A text about wrong arguments, with the argument at fault in its middle.
#[derive(Clone, Copy, Debug)]
pub struct WordFault<'w> {
    /// What is before the argument.
    pub front: &'w [u8],
    /// The argument, empty if none is at fault.
    pub word: &'w str,
    /// What is after the argument.
    pub back: &'w [u8],
}

impl<'w> WordFault<'w> {
    /// Only a text.
    pub(crate) fn of(text: &'static [u8]) -> WordFault<'w>
        ensures { fault_text result ≡ text.now }
    {
        WordFault {
            front: text,
            word: "",
            back: b"",
        }
    }
}
