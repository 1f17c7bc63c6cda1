// Numbers of options.
ghost use Rattle.std.specs.Prelude.{IfSome, IsNone};
ghost use Rattle.clap.specs.Words.{found_of, rows_of};
ghost use Rattle.commands.specs.Options.{number as number_from, number_if_given};
ghost use Rattle.commands.specs.Values.{HasNumber, HasOptional, Lacks};

use clap::ArgMatches;

/// The number of an option, where it lies in its range.
pub(crate) fn number(matches: &ArgMatches<'_>, id: &str, low: u32, high: u32) -> Option<u32>
    ensures value { IfSome result (HasNumber (rows_of (found_of matches.now)) id.now low high) }
    ensures none { IsNone result
        → Lacks (rows_of (found_of matches.now)) id.now (number_from low high) }
{
    match matches.get_one::<u32>(id) {
        Some(n) if n < low => None,
        Some(n) if high < n => None,
        found => found,
    }
}

/// The number of an option that may be left out: where it is given, it lies in its range.
pub(crate) fn optional_number(
    matches: &ArgMatches<'_>,
    id: &str,
    low: u32,
    high: u32,
) -> Option<Option<u32>>
    ensures value { IfSome result
        (HasOptional (rows_of (found_of matches.now)) id.now low high) }
    ensures none { IsNone result
        → Lacks (rows_of (found_of matches.now)) id.now (number_if_given low high) }
{
    match matches.get_str(id) {
        None => Some(None),
        Some(_) => Some(Some(number(matches, id, low, high)?)),
    }
}
