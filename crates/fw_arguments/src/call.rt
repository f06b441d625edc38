//! What the arguments of a subcommand ask for.
ghost use Rattle.std.specs.Prelude.{◌≡◌, option_copied};
ghost use Rattle.clap.specs.Words.{found_of, rows_of};
ghost use Rattle.fw_arguments.specs.Calls.{call_of, call_view, defaults_of, defaults_view, form_of, is_client, locks_in, locks_of, locks_view, spares, with_copy, with_image};
ghost use Rattle.fw_arguments.specs.WordFaults.{word_seen};

use crate::arguments::{chosen_order, either_order, first, first_or, is_given};
use crate::copy_options::CONFIG_PATH;
use crate::given_text::TextForm;
use crate::image_size::{read_image, whole_text};
use crate::job::{Job, read_job};
use crate::wanted_copy::{WantedCopy, read_wanted_copy};
use crate::word_fault::WordFault;
use clap::ArgMatches;
use envimg_core::Order;

/// A subcommand: its files, its byte order, and what it does over their session.
#[derive(Clone, Copy, Debug)]
pub struct Call<'m, 'w> {
    /// The path of the configuration.
    pub config: &'w str,
    /// The size of the erased image in memory that replaces the configuration's copies, if there is one.
    pub image: Option<u32>,
    /// The copy whose variables it takes.
    pub copy: WantedCopy,
    /// The default environment.
    pub defaults: Defaults<'w>,
    /// The lock files that are held while it uses the copies.
    pub locks: LockFiles<'w>,
    /// The byte order of the copies.
    pub order: Order,
    /// Whether copies are written back only if a variable changed.
    pub only_changes: bool,
    /// Whether copies may be written over that are good in another way than the configuration has them.
    pub overwrite: bool,
    /// What it does over the session.
    pub job: Job<'m, 'w>,
}

impl Call<'_, '_> {
    /// Whether it writes copies back, and none that is good in another way than the configuration has it.
    pub fn spares(&self) -> bool
        ensures { result ≡ spares (call_view self.now) }
    {
        self.job.writes() && !self.overwrite
    }
}

/// The default environment that is asked for.
#[derive(Clone, Copy, Debug)]
pub struct Defaults<'w> {
    /// The path of its text, if there is one.
    pub path: Option<&'w str>,
    /// The text's form; if that is plain lines, it is that of the board's build if none is given.
    pub form: TextForm,
    /// Whether a copy has to be good if there is no text.
    pub need_copy: bool,
    /// Whether the text is the whole environment, so that no copy is missed.
    pub whole: bool,
}

/// The lock files of a call: those that U-Boot's tools and libubootenv lock, too.
#[derive(Clone, Copy, Debug)]
pub enum LockFiles<'w> {
    /// None.
    Nothing,
    /// The one in this folder, which has to be had.
    In(&'w str),
    /// The usual ones. One that is there has to be had.
    Usual,
    /// The usual ones, as far as they can be had.
    IfPossible,
}

/// What the arguments of the subcommand `name` ask for, if the arguments before it chose `order`; or what is wrong with
/// them that clap's rules don't detect.
pub(crate) fn read_call<'m, 'w>(
    order: Order,
    name: &str,
    found: &'m ArgMatches<'w>,
) -> Result<Call<'m, 'w>, WordFault<'w>>
    ensures { word_seen call_view result ≡ call_of order name.now (rows_of (found_of found.now)) }
{
    match read_image(name, found) {
        Ok(image) => with_image(order, name, found, image),
        Err(fault) => Err(fault),
    }
}

/// The same with an image in memory, or with `None`.
fn with_image<'m, 'w>(
    order: Order,
    name: &str,
    found: &'m ArgMatches<'w>,
    image: Option<u32>,
) -> Result<Call<'m, 'w>, WordFault<'w>>
    ensures { word_seen call_view result ≡ with_image order name.now (rows_of (found_of found.now)) image }
{
    match read_wanted_copy(found) {
        Ok(copy) => with_copy(order, name, found, image, copy),
        Err(fault) => Err(fault),
    }
}

/// The same with the variables of this copy.
fn with_copy<'m, 'w>(
    order: Order,
    name: &str,
    found: &'m ArgMatches<'w>,
    image: Option<u32>,
    copy: WantedCopy,
) -> Result<Call<'m, 'w>, WordFault<'w>>
    ensures { word_seen call_view result ≡ with_copy order name.now (rows_of (found_of found.now)) image copy }
{
    match read_job(name, found) {
        Ok(job) => Ok(Call {
            config: first_or(found, "config", CONFIG_PATH),
            image,
            copy,
            defaults: defaults_of(name, found),
            locks: locks_of(name, found),
            order: either_order(order, chosen_order(found)),
            only_changes: is_client(name),
            overwrite: is_given(found, "overwrite"),
            job,
        }),
        Err(fault) => Err(fault),
    }
}

/// Whether the name is that of another tool, which has its own rules.
fn is_client(name: &str) -> bool
    ensures { result ≡ is_client name.now }
{
    name == "fw_printenv" || name == "fw_setenv"
}

/// The default environment.
fn defaults_of<'w>(name: &str, found: &ArgMatches<'w>) -> Defaults<'w>
    ensures { defaults_view result ≡ defaults_of name.now (rows_of (found_of found.now)) }
{
    match whole_text(name, found) {
        Some(text) => Defaults {
            path: Some(text.path),
            form: text.form,
            need_copy: false,
            whole: true,
        },
        None => Defaults {
            path: first(found, "default"),
            form: form_of(name),
            need_copy: is_client(name) || is_given(found, "need-copy"),
            whole: false,
        },
    }
}

/// The form of a default environment's text.
fn form_of(name: &str) -> TextForm
    ensures { result ≡ form_of name.now }
{
    if is_client(name) {
        TextForm::Plain
    } else {
        TextForm::Import
    }
}

/// The lock files.
fn locks_of<'w>(name: &str, found: &ArgMatches<'w>) -> LockFiles<'w>
    ensures { locks_view result ≡ locks_of name.now (rows_of (found_of found.now)) }
{
    if is_client(name) {
        locks_in(first(found, "lock"))
    } else {
        LockFiles::IfPossible
    }
}

/// The lock files, by the folder that is given.
fn locks_in(folder: Option<&str>) -> LockFiles<'_>
    ensures { locks_view result ≡ locks_in (option_copied folder.entry) }
{
    match folder {
        None => LockFiles::Usual,
        Some(folder) => {
            if folder.is_empty() {
                LockFiles::Nothing
            } else {
                LockFiles::In(folder)
            }
        }
    }
}
