// The lines that give a limit, with its numbers as they stand.
ghost use Rattle.std.specs.Prelude.{◌≡◌, IfNone, IfSome, None, Some};
ghost use Rattle.script.specs.Words.{words};
ghost use Rattle.script.specs.LimitLine.{fixed_line, limits_line, aimd_line, vegas_line};
ghost use Rattle.script.specs.LimitLine.{first_limits, limit_line};

use super::numbers::{in_32_bits, next_count, read_lone_number};
use super::words::next_word;
use aimd::AimdNumbers;
use limit_kinds::{LimitKind, LimitSpec, Limits};
use vegas::VegasNumbers;

/// What follows `fixed`.
fn read_fixed(line: &[u8]) -> Option<LimitSpec>
    ensures { result ≡ fixed_line (words line.now) }
{
    let permits = in_32_bits(read_lone_number(line)?);
    Some(LimitSpec::Fixed { permits })
}

/// The least limit, the first and the greatest one, which stand in front, and what follows them.
fn next_limits(line: &[u8]) -> Option<(Limits, &[u8])>
    ensures none { IfNone result (first_limits (words line.now) ≡ None) }
    ensures first { IfSome result
        (λ cut. first_limits (words line.now) ≡ Some (cut.0, words cut.1.now)) }
{
    let (lo, line) = next_count(line)?;
    let (first, line) = next_count(line)?;
    let (hi, line) = next_count(line)?;
    Some((Limits { lo, first, hi }, line))
}

/// What follows a kind that has these limits alone.
fn read_limits(line: &[u8]) -> Option<Limits>
    ensures { result ≡ limits_line (words line.now) }
{
    let (limits, line) = next_limits(line)?;
    if next_word(line).is_some() {
        return None;
    }
    Some(limits)
}

/// What follows `aimd`.
fn read_aimd(line: &[u8]) -> Option<LimitSpec>
    ensures { result ≡ aimd_line (words line.now) }
{
    let (limits, line) = next_limits(line)?;
    let (ratio_thousandths, line) = next_count(line)?;
    let timeout_ns = read_lone_number(line)?;
    Some(LimitSpec::Aimd(AimdNumbers {
        lo: limits.lo,
        first: limits.first,
        hi: limits.hi,
        ratio_thousandths,
        timeout_ns,
    }))
}

/// What follows `vegas`.
fn read_vegas(line: &[u8]) -> Option<LimitSpec>
    ensures { result ≡ vegas_line (words line.now) }
{
    let (limits, line) = next_limits(line)?;
    let (alpha, line) = next_count(line)?;
    let (beta, line) = next_count(line)?;
    let probe_every = in_32_bits(read_lone_number(line)?);
    Some(LimitSpec::Vegas(VegasNumbers {
        lo: limits.lo,
        first: limits.first,
        hi: limits.hi,
        alpha,
        beta,
        probe_every,
    }))
}

/// What follows `limit`.
pub(crate) fn read_limit(line: &[u8]) -> Option<LimitSpec>
    ensures { result ≡ limit_line (words line.now) }
{
    let (word, line) = next_word(line)?;
    match LimitKind::named(word)? {
        LimitKind::Fixed => read_fixed(line),
        LimitKind::Settable => Some(LimitSpec::Settable(read_limits(line)?)),
        LimitKind::Aimd => read_aimd(line),
        LimitKind::Vegas => read_vegas(line),
        LimitKind::Auto => Some(LimitSpec::Auto(read_limits(line)?)),
    }
}

/// The forms of these lines, and others behind them.
macro_rules! with_limits {
    ($($form:expr),* $(,)?) => {
        [
            &[word!("limit"), word!("fixed"), number_of!("N", LimitInitial)],
            &[
                word!("limit"),
                word!("settable" "auto"),
                number_of!("LO", LimitMin),
                number_of!("N", LimitMax, 2),
                number_of!("HI", LimitMax, 3),
            ],
            &[
                word!("limit"),
                word!("aimd"),
                number_of!("LO", LimitMin),
                number_of!("N", LimitMax, 2),
                number_of!("HI", LimitMax, 3),
                number_of!("RATIO", LimitRatio),
                number!("TIMEOUT", "a longer round trip is a drop, nanoseconds, ", 1, HOUR),
            ],
            &[
                word!("limit"),
                word!("vegas"),
                number_of!("LO", LimitMin),
                number_of!("N", LimitMax, 2),
                number_of!("HI", LimitMax, 3),
                number_of!("ALPHA", LimitAlpha),
                number_of!("BETA", LimitBeta, 5),
                number_of!("PROBE", LimitProbeEvery),
            ],
            $($form),*
        ]
    };
}

pub(crate) use with_limits;
