//! What a script is told as, and where its bytes are.
ghost use Rattle.std.specs.Prelude.{◌≡◌, option_map};
ghost use Rattle.fw_check.specs.EntryPlaces.{text_view};
ghost use Rattle.fw_check.specs.Lines.{subject_view};
ghost use Rattle.fw_check.specs.Origins.{is_stored, origin_of, origin_view, subject_of, value_place};

use crate::entry_places::{EntryPlaces, EnvironmentText};
use crate::lines::Subject;
use finding_kinds::Format;
use fw_engines::Place;

/// What a script is told as, and where its bytes are.
#[derive(Clone, Copy, Debug)]
pub(crate) enum Origin<'s> {
    /// A text of its own.
    Own(Subject<'s>),
    /// The entry of this name in an environment's text.
    Within(EnvironmentText<'s>, &'s [u8]),
}

impl<'s> Origin<'s> {
    /// That of a variable: its name in a text, and else its entry in the environment's text, if there is one.
    pub(crate) fn of(
        format: Format,
        text: Option<EnvironmentText<'s>>,
        name: &'s [u8],
    ) -> Origin<'s>
        ensures { origin_view result ≡ origin_of format (option_map text_view text.entry) name.now }
    {
        match (format, text) {
            (Format::Text, _) => Origin::Own(Subject::Variable(name)),
            (_, None) => Origin::Own(Subject::Variable(name)),
            (_, Some(text)) => Origin::Within(text, name),
        }
    }

    /// What a line about it is about.
    pub(crate) fn subject(self) -> Subject<'s>
        ensures { subject_view result ≡ subject_of (origin_view self.entry) }
    {
        match self {
            Origin::Own(subject) => subject,
            Origin::Within(text, name) => Subject::Entry(text.path, name),
        }
    }

    /// Whether it is the script of a variable, which a board loads with its environment.
    pub(crate) fn is_stored(self) -> bool
        ensures { result ≡ is_stored (origin_view self.entry) }
    {
        match self {
            Origin::Own(Subject::File(_) | Subject::Whole) => false,
            Origin::Own(Subject::Variable(_) | Subject::Entry(_, _)) => true,
            Origin::Within(_, _) => true,
        }
    }

    /// The place of its whole text, if that is a value in a file.
    pub(crate) fn value_place(self) -> Option<Place>
        ensures { result ≡ value_place (origin_view self.entry) }
    {
        match self {
            Origin::Own(_) => None,
            Origin::Within(text, name) => Some(EntryPlaces::of(text, name).place(0)),
        }
    }
}
