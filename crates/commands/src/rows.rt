// Options that take a value, as a command's arguments.
ghost use Rattle.std.specs.Prelude.{◌≡◌, false};
ghost use Rattle.clap.specs.Words.{rule_of};
ghost use Rattle.commands.specs.Rows.{parser_of, rule_of_row};

use super::options::{SERVE_OPTIONS, option_row, option_rows, serve_rows};
use clap::builder::ValueParser;
use clap::{Arg, ArgAction};
use std::alloc::Global;

/// What an option takes.
#[derive(Clone, Copy)]
pub(crate) enum Takes {
    /// A whole number between these.
    Number { least: i64, most: i64 },
    /// An address with a port from 1 up.
    Address,
    /// That of a loopback, with such a port.
    Loopback,
    /// A form of the log's lines.
    LogLines,
    /// Nothing: it is given, or not.
    Flag,
}

/// An option.
#[derive(Clone, Copy)]
pub(crate) struct OptionRow {
    /// Its word, without the dashes before it.
    pub(crate) word: &'static str,
    /// What help calls its value, where it takes one.
    pub(crate) value_name: &'static str,
    /// What help says of it.
    pub(crate) help: &'static str,
    pub(crate) takes: Takes,
    /// The value where it isn't given; there is none without it.
    pub(crate) default: Option<&'static str>,
}

/// What the option of a row takes.
macro_rules! takes_of {
    ($least:literal to $most:literal $(; default $default:literal)?) => {
        Takes::Number {
            least: $least,
            most: $most,
        }
    };
    (address) => {
        Takes::Address
    };
    (loopback address) => {
        Takes::Loopback
    };
    (log lines; default $form:ident) => {
        Takes::LogLines
    };
    (flag) => {
        Takes::Flag
    };
}

/// Its default.
macro_rules! default_of {
    ($least:literal to $most:literal; default $default:literal) => {
        Some(stringify!($default))
    };
    (log lines; default $form:ident) => {
        Some(stringify!($form))
    };
    ($($takes:tt)*) => {
        None
    };
}

/// Its line in the list of options.
macro_rules! listed_of {
    (
        [$least:literal to $most:literal $(; default $default:literal)?]
        $before:literal $behind:literal
    ) => {
        concat!($before, stringify!($least), " to ", stringify!($most), $behind)
    };
    ([$($takes:tt)*] $listed:literal) => {
        $listed
    };
}

/// A row as a value.
macro_rules! value_of_row {
    (
        $name:ident $word:literal $value_name:literal [$($takes:tt)*]
            listed $($listed:literal)* $(told $($told:literal)*)?;
    ) => {
        OptionRow {
            word: $word,
            value_name: $value_name,
            help: listed_of!([$($takes)*] $($listed)*),
            takes: takes_of!($($takes)*),
            default: default_of!($($takes)*),
        }
    };
}

/// Rows as values.
macro_rules! values_of_rows {
    (
        []
        $(
            $name:ident $word:literal $value_name:literal $takes:tt
                listed $($listed:literal)* told $($told:literal)*;
        )*
    ) => {
        [$(
            value_of_row! {
                $name $word $value_name $takes listed $($listed)*;
            }
        ),*]
    };
}

/// `--limit N`.
pub(crate) const LIMIT: OptionRow = option_row! { Limit [value_of_row] };

/// `--workers W`.
pub(crate) const WORKERS: OptionRow = option_row! { Workers [value_of_row] };

/// `--exchanges N` of `serve`.
const EXCHANGES: OptionRow = option_row! { Exchanges [value_of_row] };

/// `--exchanges N` of `check`.
pub(crate) const CHECKED_EXCHANGES: OptionRow = OptionRow {
    help: "Exchanges at once that the configuration must fit into, 1 to 4096",
    ..EXCHANGES
};

/// The options of `serve`.
pub(crate) const SERVE_ROWS: [OptionRow; SERVE_OPTIONS] = serve_rows!(values_of_rows);

impl Takes {
    /// What is wanted, in words.
    pub(crate) fn wanted(self) -> &'static str {
        match self {
            Takes::Number { .. } => "a number is wanted",
            Takes::Address => "an IPv4 address with a port is wanted, such as 0.0.0.0:9902",
            Takes::Loopback => {
                "a loopback IPv4 address with a port is wanted, such as 127.0.0.1:9901"
            }
            Takes::LogLines => "plain, time or journal is wanted",
            Takes::Flag => "nothing is wanted",
        }
    }

    /// What lets a value through, where it takes one: whether a text is an address or a form of
    /// lines is looked at once the words are read.
    fn parser<'a>(self) -> Option<ValueParser<'a>>
        ensures { result ≡ parser_of self }
    {
        match self {
            Takes::Number { least, most } => Some(ValueParser::signed(least, most)),
            Takes::Address => Some(ValueParser::String),
            Takes::Loopback => Some(ValueParser::String),
            Takes::LogLines => Some(ValueParser::String),
            Takes::Flag => None,
        }
    }
}

impl OptionRow {
    /// The option as an argument of a command.
    pub(crate) fn argument<'a>(&self, alloc: Global) -> Arg<'a>
        ensures rule { rule_of result ≡ rule_of_row self.now }
        ensures local { result.global ≡ false }
    {
        let argument = Arg::new(alloc, self.word).long(self.word).help(self.help);
        let Some(parser) = self.takes.parser() else {
            return argument.action(ArgAction::SetTrue);
        };
        let argument = argument.value_name(self.value_name).value_parser(parser);
        match self.default {
            Some(value) => argument.default_value(value),
            None => argument,
        }
    }

    /// The same for a command whose long help explains the option in its text: the list there
    /// leaves it out, and that of the short help has it.
    pub(crate) fn summary<'a>(&self, alloc: Global) -> Arg<'a>
        ensures rule { rule_of result ≡ rule_of_row self.now }
        ensures local { result.global ≡ false }
    {
        self.argument(alloc).hide_long_help(true)
    }
}
