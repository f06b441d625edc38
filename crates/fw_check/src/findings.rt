//! What is found in a script, as lines.
ghost use Rattle.std.specs.Prelude.{◌≡◌, ◌++◌, [], ◌∷◌, None, OnOk};
ghost use Rattle.finding_kinds.specs.declared.kinds.FindingKind.TheVariants as kind;
ghost use Rattle.finding_kinds.specs.Choices.{choice_view};
ghost use Rattle.fw_check.specs.ReportLines.{counted, found_at, has_line, no_lines, noted, with_alone, with_placed, with_script};
ghost use Rattle.fw_check.specs.Findings.{first_findings, return_findings, stored_findings};
ghost use Rattle.fw_check.specs.Found.{found_more};
ghost use Rattle.fw_check.specs.JsonLines.{line_in};
ghost use Rattle.fw_check.specs.Lines.{line_view, subject_view};
ghost use Rattle.fw_check.specs.EntryPlaces.{entry_of, place_in_entry, text_view};
ghost use Rattle.fw_check.specs.Origins.{origin_view, place_in, subject_of, value_place};
ghost use Rattle.fw_check.specs.Checking.{with_mistyped};

use crate::entry_places::{EntryPlaces, EnvironmentText};
use crate::excerpts::Spot;
use crate::lines::{Line, Subject, push_line};
use crate::origins::Origin;
use finding_kinds::{Choice, FindingKind, Severity};
use fw_engines::{Place, Pointer};
use memchr::memchr;
use std::alloc::{AllocError, Global};
use std::marker::Model;

/// No further line is added once there are this many bytes.
const MOST_TEXT: usize = 65_536;

/// The lines of a check, and what was counted.
#[derive(Drop)]
pub(crate) struct Report<'c> {
    pub(crate) text: Vec<u8>,
    /// Whether something was found that has no line.
    pub(crate) cut: bool,
    /// How many scripts were looked at.
    pub(crate) scripts: u64,
    /// How many errors and warnings were found.
    pub(crate) errors: u64,
    pub(crate) warnings: u64,
    /// What the check is asked.
    pub(crate) choice: Choice<'c>,
    alloc: Global,
}

impl<'c> Model for Report<'c> {
    ghost use Rattle.finding_kinds.specs.Choices.{choice_view};
    ghost use Rattle.fw_check.specs.ReportLines.{Report};

    ghost Value = { Report };

    ghost view = { λ a. record {
      text = a.text.items;
      cut = a.cut;
      scripts = a.scripts;
      errors = a.errors;
      warnings = a.warnings;
      choice = choice_view a.choice;
    } };
}

impl<'c> Report<'c> {
    /// No lines. It allocates no memory.
    pub(crate) fn new(alloc: Global, choice: Choice<'c>) -> Report<'c>
        ensures { result ≡ no_lines (choice_view choice.entry) }
    {
        Report {
            text: Vec::new(alloc),
            cut: false,
            scripts: 0,
            errors: 0,
            warnings: 0,
            choice,
            alloc,
        }
    }

    /// One more script is looked at.
    pub(crate) fn add_script(&mut self)
        ensures { self.new ≡ with_script self.old }
    {
        self.scripts = self.scripts.saturating_add(1);
    }

    /// Counts one more finding.
    fn count(&mut self, severity: Severity)
        ensures { self.new ≡ counted self.old severity }
    {
        match severity {
            Severity::Error => self.errors = self.errors.saturating_add(1),
            Severity::Warning => self.warnings = self.warnings.saturating_add(1),
            Severity::Note => (),
        }
    }

    /// Notes that something of this kind was found, and answers whether it gets a line.
    fn has_line(&mut self, kind: FindingKind) -> bool
        ensures line { result ≡ has_line self.old kind }
        ensures noted { self.new ≡ noted self.old kind }
        ensures text { self.new.text ≡ self.old.text }
        ensures choice { self.new.choice ≡ self.old.choice }
    {
        if self.choice.ignores(kind) {
            return false;
        }
        let is_full = self.text.len() >= MOST_TEXT;
        self.cut |= is_full;
        self.count(kind.severity());
        !is_full
    }

    /// Appends the line of a finding that was noted.
    fn push(&mut self, line: &Line<'_>) -> Result<(), AllocError>
        ensures { OnOk result (self.new ≡ record self.old { text = self.old.text ++ line_in self.old.choice.format (line_view line.now) }) }
    {
        push_line(self.alloc, self.choice.format, &mut self.text, line)
    }

    /// Adds a finding without a place.
    pub(crate) fn add_alone(
        &mut self,
        subject: Subject<'_>,
        kind: FindingKind,
        sentence: &[u8],
    ) -> Result<(), AllocError>
        ensures { OnOk result
            (self.new ≡ with_alone self.old (subject_view subject.entry) kind sentence.now) }
    {
        if !self.has_line(kind) {
            return Ok(());
        }
        self.push_placed(subject, None, kind, sentence)
    }

    /// Adds a finding in a whole value, at its place if that is in a file.
    pub(crate) fn add_value(
        &mut self,
        origin: Origin<'_>,
        kind: FindingKind,
        sentence: &[u8],
    ) -> Result<(), AllocError>
        ensures { OnOk result (self.new ≡ with_placed self.old (subject_of (origin_view origin.entry))
            (value_place (origin_view origin.entry)) kind sentence.now) }
    {
        if !self.has_line(kind) {
            return Ok(());
        }
        self.push_placed(origin.subject(), origin.value_place(), kind, sentence)
    }

    /// Appends the line of a finding that was noted, and is in no script.
    fn push_placed<'l>(
        &mut self,
        subject: Subject<'l>,
        place: Option<Place>,
        kind: FindingKind,
        sentence: &'l [u8],
    ) -> Result<(), AllocError>
        ensures { OnOk result (self.new ≡ record self.old {
          text = self.old.text ++ line_in self.old.choice.format
              (record { subject = subject_view subject.entry; place = place; kind = kind; sentence = sentence.now; spot = None });
        }) }
    {
        self.push(&Line {
            subject,
            place,
            kind,
            before: sentence,
            name: b"",
            after: b"",
            spot: None,
        })
    }
}

/// A report that is continued with what is found in a script: where that is, and its text.
#[derive(Drop)]
pub(crate) struct Findings<'s, 'c> {
    origin: Origin<'s>,
    source: &'s [u8],
    pointer: Pointer<'s>,
    /// The places in its entry, once one is asked for.
    within: Option<EntryPlaces<'s>>,
    report: Report<'c>,
}

impl<'s, 'c> Model for Findings<'s, 'c> {
    ghost use Rattle.std.specs.Prelude.{◌≡◌, IfSome};
    ghost use Rattle.fw_check.specs.Found.{Found};
    ghost use Rattle.fw_check.specs.Origins.{IsEntryOf, origin_view};

    ghost Value = { Found };

    ghost view = { λ a. record { origin = origin_view a.origin; text = a.source.now; report = a.report } };

    ghost invariant = { λ a. (a.pointer ≡ a.source.now) × IfSome a.within (IsEntryOf (origin_view a.origin)) };
}

impl<'s, 'c> Findings<'s, 'c> {
    /// Nothing is found yet.
    pub(crate) fn new(report: Report<'c>, origin: Origin<'s>, source: &'s [u8]) -> Findings<'s, 'c>
        ensures { result ≡ record { origin = origin_view origin.entry; text = source.now; report = report.entry } }
    {
        Findings {
            origin,
            source,
            pointer: Pointer::new(source),
            within: None,
            report,
        }
    }

    /// The report with all that was found.
    pub(crate) fn report(self) -> Report<'c>
        ensures { result ≡ self.entry.report }
    {
        self.report
    }

    /// Adds a finding, after `count` bytes of the script, with a sentence in three parts.
    pub(crate) fn add(
        &mut self,
        count: usize,
        kind: FindingKind,
        before: &[u8],
        name: &[u8],
        after: &[u8],
    ) -> Result<(), AllocError>
        ensures { OnOk result (self.new ≡ found_more self.old
            (found_at count kind (before.now ++ name.now ++ after.now) ∷ [])) }
    {
        if !self.report.has_line(kind) {
            return Ok(());
        }
        let place = Some(self.place(count));
        self.report.push(&Line {
            subject: self.origin.subject(),
            place,
            kind,
            before,
            name,
            after,
            spot: Some(Spot {
                text: self.source,
                count,
            }),
        })
    }

    /// The place after `count` bytes of the script.
    fn place(&mut self, count: usize) -> Place
        ensures place { result ≡ place_in self.old.origin self.old.text count }
        ensures kept { self.new ≡ self.old }
    {
        match self.origin {
            Origin::Own(_) => self.pointer.place(count),
            Origin::Within(text, name) => {
                let mut within = match self.within.take() {
                    Some(within) => within,
                    None => EntryPlaces::of(text, name),
                };
                let place = within.place(count);
                self.within = Some(within);
                place
            }
        }
    }

    /// Adds the first carriage return, if there is one.
    pub(crate) fn add_return(&mut self) -> Result<(), AllocError>
        ensures { OnOk result (self.new ≡ found_more self.old (return_findings self.old.text)) }
    {
        self.add_first(b'\r', FindingKind::CarriageReturn, RETURN)
    }

    /// Adds the first backslash, if there is one in the script of a variable.
    pub(crate) fn add_stored(&mut self) -> Result<(), AllocError>
        ensures { OnOk result (self.new ≡ found_more self.old (stored_findings self.old.origin self.old.text)) }
    {
        if self.origin.is_stored() {
            self.add_first(b'\\', FindingKind::Backslashes, STORED)
        } else {
            Ok(())
        }
    }

    /// Adds the first such byte, if there is one.
    fn add_first(&mut self, byte: u8, kind: FindingKind, sentence: &[u8]) -> Result<(), AllocError>
        ensures { OnOk result (self.new ≡ found_more self.old (first_findings byte kind sentence.now self.old.text)) }
    {
        match memchr(byte, self.source) {
            Some(count) => self.add(count, kind, sentence, b"", b""),
            None => Ok(()),
        }
    }
}

const STORED: &[u8] = b"a board drops this backslash when it loads the variable";

const RETURN: &[u8] = b"a carriage return stands in the script";

/// Appends three texts.
pub(crate) fn push_three(
    text: &mut Vec<u8>,
    before: &[u8],
    name: &[u8],
    after: &[u8],
) -> Result<(), AllocError>
    ensures { OnOk result (text.new.items ≡ text.old.items ++ before.now ++ name.now ++ after.now) }
{
    text.extend_from_slice(before)?;
    text.extend_from_slice(name)?;
    text.extend_from_slice(after)
}
