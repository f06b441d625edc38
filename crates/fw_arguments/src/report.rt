//! What the arguments of `status` and of any subcommand ask for.
ghost use Rattle.std.specs.Prelude.{◌≡◌, codes, option_copied};
ghost use Rattle.clap.specs.Words.{all_of, found_of, rows_of};
ghost use Rattle.fw_arguments.specs.Calls.{call_of};
ghost use Rattle.fw_arguments.specs.ImageRequests.{image_request_of};
ghost use Rattle.fw_arguments.specs.Report.{asked_of, asked_once, asked_view, checked_by, looked, made, report_of, report_view, subject_by, subject_of, subject_view, worked};
ghost use Rattle.fw_arguments.specs.WordFaults.{word_seen};

use crate::argument_texts::{CONFIG_AND_FILE, READ_TWICE};
use crate::arguments::{chosen_order, either_order, first, first_or, is_given, values};
use crate::call::{Call, read_call};
use crate::check_requests::{FileCheck, names_environment, read_file_check};
use crate::copy_options::CONFIG_PATH;
use crate::image_request::{ImageRequest, read_image_request};
use crate::standard_input::reads_twice;
use crate::word_fault::WordFault;
use clap::ArgMatches;
use envimg_core::Order;

/// What a subcommand asks for.
#[derive(Clone, Copy, Debug)]
pub enum Asked<'m, 'w> {
    /// Work over a session.
    Work(Call<'m, 'w>),
    /// A report of what is stored.
    Look(Report<'w>),
    /// A check of the scripts in files.
    Check(FileCheck<'m, 'w>),
    /// A new image.
    Make(ImageRequest<'w>),
    /// A search of the dump at this path.
    Find(&'w str),
}

/// A report: `status [-c FILE] [--big-endian] [FILE]`.
#[derive(Clone, Copy, Debug)]
pub struct Report<'w> {
    /// The byte order of what it reports.
    pub order: Order,
    /// What it reports.
    pub subject: Subject<'w>,
}

/// What a report is about.
#[derive(Clone, Copy, Debug)]
pub enum Subject<'w> {
    /// The copies that the configuration at this path names.
    Copies(&'w str),
    /// The whole file at this path.
    File(&'w str),
}

/// What the arguments of the subcommand `name` ask for, if the arguments before it chose `order`; or what is wrong with
/// them that clap's rules don't detect.
pub fn read_asked<'m, 'w>(
    order: Order,
    name: &str,
    found: &'m ArgMatches<'w>,
) -> Result<Asked<'m, 'w>, WordFault<'w>>
    ensures { word_seen asked_view result ≡ asked_of order name.now (rows_of (found_of found.now)) }
{
    if reads_twice(name, found) {
        return Err(WordFault::of(READ_TWICE));
    }
    ask(order, name, found)
}

/// The same of arguments that have standard input read at most once.
fn ask<'m, 'w>(
    order: Order,
    name: &str,
    found: &'m ArgMatches<'w>,
) -> Result<Asked<'m, 'w>, WordFault<'w>>
    ensures { word_seen asked_view result ≡ asked_once order name.now (rows_of (found_of found.now)) }
{
    if name == "status" {
        return ask_to_look(order, found);
    }
    if name == "check" {
        return ask_to_check(order, found);
    }
    if name == "image" {
        return ask_to_make(order, found);
    }
    if name == "find" {
        return Ok(Asked::Find(first_or(found, "file", "")));
    }
    ask_to_work(order, name, found)
}

/// The check that the arguments of `check` ask for: of an environment, if one is named or no file is given, else of the scripts in files
/// alone.
fn ask_to_check<'m, 'w>(
    order: Order,
    found: &'m ArgMatches<'w>,
) -> Result<Asked<'m, 'w>, WordFault<'w>>
    ensures { word_seen asked_view result
        ≡ checked_by (all_of (codes "script") (rows_of (found_of found.now))) order (rows_of (found_of found.now)) }
{
    match values(found, "script") {
        None => ask_to_work(order, "check", found),
        Some(_) if names_environment(found) => ask_to_work(order, "check", found),
        Some(paths) => match read_file_check(paths, found) {
            Ok(check) => Ok(Asked::Check(check)),
            Err(fault) => Err(fault),
        },
    }
}

/// The report that the arguments of `status` ask for.
fn ask_to_look<'m, 'w>(
    order: Order,
    found: &'m ArgMatches<'w>,
) -> Result<Asked<'m, 'w>, WordFault<'w>>
    ensures { word_seen asked_view result ≡ looked (report_of order (rows_of (found_of found.now))) }
{
    match read_report(order, found) {
        Ok(report) => Ok(Asked::Look(report)),
        Err(fault) => Err(fault),
    }
}

/// The image that the arguments of `image` ask for.
fn ask_to_make<'m, 'w>(
    order: Order,
    found: &'m ArgMatches<'w>,
) -> Result<Asked<'m, 'w>, WordFault<'w>>
    ensures { word_seen asked_view result ≡ made (image_request_of order (rows_of (found_of found.now))) }
{
    match read_image_request(order, found) {
        Ok(image) => Ok(Asked::Make(image)),
        Err(fault) => Err(fault),
    }
}

/// The work that the arguments of another subcommand ask for.
fn ask_to_work<'m, 'w>(
    order: Order,
    name: &str,
    found: &'m ArgMatches<'w>,
) -> Result<Asked<'m, 'w>, WordFault<'w>>
    ensures { word_seen asked_view result ≡ worked (call_of order name.now (rows_of (found_of found.now))) }
{
    match read_call(order, name, found) {
        Ok(call) => Ok(Asked::Work(call)),
        Err(fault) => Err(fault),
    }
}

/// A report with its byte order.
fn read_report<'w>(order: Order, found: &ArgMatches<'w>) -> Result<Report<'w>, WordFault<'w>>
    ensures { word_seen report_view result ≡ report_of order (rows_of (found_of found.now)) }
{
    match read_subject(found) {
        Ok(subject) => Ok(Report {
            order: either_order(order, chosen_order(found)),
            subject,
        }),
        Err(fault) => Err(fault),
    }
}

/// What a report is about.
fn read_subject<'w>(found: &ArgMatches<'w>) -> Result<Subject<'w>, WordFault<'w>>
    ensures { word_seen subject_view result ≡ subject_of (rows_of (found_of found.now)) }
{
    subject_by(
        is_given(found, "config"),
        first_or(found, "config", CONFIG_PATH),
        first(found, "file"),
    )
}

/// What a report is about: a configuration's copies or a file, and not both.
fn subject_by<'w>(
    given: bool,
    config: &'w str,
    file: Option<&'w str>,
) -> Result<Subject<'w>, WordFault<'w>>
    ensures { word_seen subject_view result ≡ subject_by given config.now (option_copied file.entry) }
{
    match file {
        None => Ok(Subject::Copies(config)),
        Some(path) => {
            if given {
                Err(WordFault::of(CONFIG_AND_FILE))
            } else {
                Ok(Subject::File(path))
            }
        }
    }
}
