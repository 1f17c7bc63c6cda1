// The forms of lines: the one table of what stands at each place.
ghost use Rattle.std.specs.Prelude.{◌≡◌, map};
ghost use Rattle.script.specs.Forms.{form_of};
ghost use Rattle.script.specs.LineForms.{forms_of};

use crate::limit_line::with_limits;
use crate::place::{NumberPlace, RangeEnd, WordPlace};
use config_words::key_row;
use limit_laws::HOUR;

/// What a text is.
#[derive(Clone, Copy)]
pub enum TextKind {
    /// A script: settings, and then what is asked of a limiter.
    Script,
    /// A trace: settings, and then the calls that come.
    Trace,
}

/// The place of one word.
macro_rules! word {
    ($($word:literal)*) => {
        WordPlace::Words(&[$($word),*])
    };
}

/// The place of a number in a range.
macro_rules! number {
    ($name:literal, $held:literal, $low:expr, $high:expr) => {
        WordPlace::Number(NumberPlace {
            name: $name,
            held: $held,
            low: RangeEnd::At($low),
            high: RangeEnd::At($high),
        })
    };
}

/// The place of a number without a range.
macro_rules! any_number {
    ($name:literal, $held:literal) => {
        number!($name, $held, 0, u64::MAX)
    };
}

/// The place of a number that counts what a key of configurations holds, in the key's range. Where
/// the row has an earlier key in place of the least number, its place in the line is given.
macro_rules! number_of {
    ($name:literal, $key:ident $(, $low:literal)?) => {
        key_row! { $key [number_of_row] $name [$($low)?] }
    };
}

/// The same by the key's row.
macro_rules! number_of_row {
    (
        $name:literal [] $key:ident $start:literal $held:literal
            [$least:literal to $most:literal; $($default:tt)*] $(help $help:literal)?;
    ) => {
        number!($name, $held, $least, $most)
    };
    (
        $name:literal [] $key:ident $start:literal $held:literal
            [$low:ident to $high:ident, of fixed $least:literal to $most:literal; $($default:tt)*];
    ) => {
        number!($name, $held, $least, $most)
    };
    (
        $name:literal [] $key:ident $start:literal $held:literal
            [$least:literal to what the classes before leave of $most:literal; required];
    ) => {
        number!($name, $held, $least, $most)
    };
    (
        $name:literal [$low:literal] $key:ident $start:literal $held:literal
            [$before:ident to $most:literal; $($default:tt)*] $(help $help:literal)?;
    ) => {
        WordPlace::Number(NumberPlace {
            name: $name,
            held: $held,
            low: RangeEnd::Of($low),
            high: RangeEnd::At($most),
        })
    };
}

/// When something is asked.
const NOW: WordPlace = any_number!("NOW", "nanoseconds");

/// When a call comes.
const AT: WordPlace = any_number!("AT", "nanoseconds");

/// The number of an acquire.
const ACQUIRED: WordPlace = any_number!("N", "the number of an acquire");

/// How long a call holds its permit.
const HELD: WordPlace = number!(
    "DURATION",
    "how long its permit is held, nanoseconds, ",
    0,
    HOUR
);

/// The longest time that a window lasts.
const LONGEST: WordPlace = WordPlace::Number(NumberPlace {
    name: "MAX",
    held: "the longest window in nanoseconds, ",
    low: RangeEnd::Of(2),
    high: RangeEnd::At(HOUR),
});

/// How a permit ends.
const OUTCOME: WordPlace = word!("success" "ignored" "dropped");

/// The forms of the lines that set, and these behind them.
macro_rules! with_settings {
    ($($form:expr),* $(,)?) => {
        with_limits![
            &[
                word!("window"),
                number_of!("SIZE", WindowSize),
                number!("MIN", "the shortest window in nanoseconds, ", 1, HOUR),
                LONGEST,
                number!("MINRTT", "quicker answers are left out, nanoseconds, ", 0, HOUR),
            ],
            &[word!("share"), WordPlace::Name, number_of!("THOUSANDTHS", ClassShare)],
            &[word!("class"), WordPlace::Name, number_of!("PERCENT", ClassPercent)],
            &[
                word!("places"),
                WordPlace::Name,
                number!("N", "places of the backlog, ", 0, 10_000),
            ],
            &[word!("backlog"), number_of!("N", Backlog)],
            &[word!("keep"), number_of!("K", Keep)],
            &[word!("keep"), number_of!("K", Keep), word!("rolling")],
            &[word!("promote"), word!("newest" "all")],
            &[word!("timeout"), number!("T", "how long a call waits, nanoseconds, ", 1, HOUR)],
            $($form),*
        ]
    };
}

/// The forms of a script's lines.
static SCRIPT: &[&[WordPlace]] = &with_settings![
    &[word!("acquire"), WordPlace::Class, NOW],
    &[word!("acquire"), WordPlace::Class, NOW, word!("wait")],
    &[word!("bypass"), NOW],
    &[word!("end"), ACQUIRED, OUTCOME, NOW],
    &[word!("claim"), ACQUIRED],
    &[word!("giveup"), ACQUIRED],
    &[
        word!("set"),
        number!("N", "permits, ", 0, 4_294_967_295),
        NOW
    ],
    &[word!("reset"), NOW],
    &[word!("look"), WordPlace::Class],
];

/// Those of a trace's.
static TRACE: &[&[WordPlace]] = &with_settings![
    &[word!("arrive"), WordPlace::Class, AT, HELD, OUTCOME],
    &[
        word!("arrive"),
        WordPlace::Class,
        AT,
        HELD,
        OUTCOME,
        word!("wait")
    ],
    &[word!("bypass"), AT],
];

/// The forms that the lines of a text have.
pub fn line_forms(kind: TextKind) -> &'static [&'static [WordPlace]]
    ensures { map form_of result.now ≡ forms_of kind }
{
    match kind {
        TextKind::Script => SCRIPT,
        TextKind::Trace => TRACE,
    }
}
