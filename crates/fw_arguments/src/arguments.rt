//! What clap's rules found in the command line: for one argument, the byte order, and which subcommand it calls.
ghost use Rattle.std.specs.Prelude.{◌≡◌, map, option_copied, option_map};
ghost use Rattle.clap.specs.Words.{all_of, first_of, found_of, rows_of};
ghost use Rattle.fw_arguments.specs.ProgramNames.{called_in};
ghost use Rattle.fw_arguments.specs.Values.{first_or, given_by, is_given};
ghost use Rattle.fw_arguments.specs.Words.{either_order, order_in};

use crate::copy_options::BIG_ENDIAN;
use crate::program_name::ProgramName;
use clap::ArgMatches;
use clap::parser::ValueSource;
use envimg_core::Order;

/// The first value of an argument.
pub(crate) fn first<'w>(found: &ArgMatches<'w>, id: &str) -> Option<&'w str>
    ensures { option_copied result ≡ first_of id.now (rows_of (found_of found.now)) }
{
    found.get_str(id)
}

/// The first value of an argument, or another text if it has none.
pub(crate) fn first_or<'w>(found: &ArgMatches<'w>, id: &str, other: &'w str) -> &'w str
    ensures { result.now ≡ first_or other.now id.now (rows_of (found_of found.now)) }
{
    found.get_str(id).unwrap_or(other)
}

/// The values of an argument.
pub(crate) fn values<'m, 'w>(found: &'m ArgMatches<'w>, id: &str) -> Option<&'m [&'w str]>
    ensures { option_map (λ s. map (λ v. v.now) s.now) result ≡ all_of id.now (rows_of (found_of found.now)) }
{
    found.get_strs(id)
}

/// Whether a flag is on the command line.
pub(crate) fn is_given(matches: &ArgMatches<'_>, id: &str) -> bool
    ensures { result ≡ is_given id.now (rows_of (found_of matches.now)) }
{
    is_from_words(matches.value_source(id))
}

/// Whether a value comes from the command line.
fn is_from_words(source: Option<ValueSource>) -> bool
    ensures { result ≡ given_by source }
{
    matches!(source, Some(ValueSource::CommandLine))
}

/// The byte order that the command line chose.
pub fn chosen_order(matches: &ArgMatches<'_>) -> Order
    ensures { result ≡ order_in matches.now }
{
    match matches.value_source(BIG_ENDIAN.id) {
        Some(ValueSource::CommandLine) => Order::Big,
        _ => Order::Little,
    }
}

/// Big-endian if one of two places chooses it.
pub(crate) fn either_order(one: Order, other: Order) -> Order
    ensures { result ≡ either_order one other }
{
    match one {
        Order::Big => Order::Big,
        Order::Little => other,
    }
}

/// The subcommand that is called, and what was found in its arguments; under another name than `fwenv` these are all
/// arguments.
pub fn called<'m, 'w>(
    under: ProgramName,
    matches: &'m ArgMatches<'w>,
) -> Option<(&'w str, &'m ArgMatches<'w>)>
    ensures { option_map (λ c. (c.0.now, rows_of (found_of c.1.now))) result ≡ called_in under matches.now }
{
    match under {
        ProgramName::Fwenv => matches.subcommand(),
        ProgramName::FwenvWith(_) => matches.subcommand(),
        ProgramName::Printenv => Some(("fw_printenv", matches)),
        ProgramName::Setenv => Some(("fw_setenv", matches)),
    }
}
