// The keys of the limit.
ghost use Rattle.std.specs.Prelude.{◌≡◌, ◌≤◌, true, IfOk, IsOk, None, Ok, Some, map};
ghost use Rattle.std.specs.Prelude.{option_map, if◌then◌else◌};
ghost use Rattle.toml.specs.Data.{get_member};
ghost use Rattle.toml.specs.View.{table_view};
ghost use Rattle.limit_laws.specs.Algorithm.{greatest_limit};
ghost use Rattle.limit_kinds.specs.Kinds.{kind_word, limit_made};
ghost use Rattle.gate_config.specs.Rows.{kinds_in, moving, moving_rows, name_of};
ghost use Rattle.gate_config.specs.Outcomes.{result_map};
ghost use Rattle.gate_config.specs.Text.{is_among, text_from};
ghost use Rattle.gate_config.specs.Limit.{limit_behind, limit_in, limit_names, moving_values};
ghost use Rattle.gate_config.specs.Limit.{values_behind};

use crate::version::Version;
use crate::{ConfigFault, Key, KeyAtFault, MICRO, Range, read_number, read_text};
use aimd::AimdNumbers;
use config_words::range_of;
use limit_kinds::{LimitKind, LimitSpec, Limits};
use toml::Table;
use vegas::VegasNumbers;

/// The keys that a limit of this kind has.
pub fn limit_keys(spec: &LimitSpec) -> &'static [Key]
    ensures { map name_of result.now ≡ limit_names spec.now }
{
    match spec {
        LimitSpec::Fixed { .. } => &[Key::LimitKind, Key::LimitInitial],
        LimitSpec::Settable(_) | LimitSpec::Auto(_) => {
            &[
                Key::LimitKind,
                Key::LimitMin,
                Key::LimitMax,
                Key::LimitInitial,
            ]
        }
        LimitSpec::Aimd(_) => &[
            Key::LimitKind,
            Key::LimitMin,
            Key::LimitMax,
            Key::LimitInitial,
            Key::LimitRatio,
            Key::LimitTimeoutUs,
        ],
        LimitSpec::Vegas(_) => &[
            Key::LimitKind,
            Key::LimitMin,
            Key::LimitMax,
            Key::LimitInitial,
            Key::LimitAlpha,
            Key::LimitBeta,
            Key::LimitProbeEvery,
        ],
    }
}

/// The limit of the section `limit` in a version, which can be made of its keys.
pub fn read_limit(version: Version, table: &Table) -> Result<LimitSpec, ConfigFault>
    ensures sound { IfOk result (λ spec. IsOk (limit_made spec)) }
    ensures value { result ≡ limit_in version (table_view table.now) }
{
    let kind = limit_kind(version, table)?;
    match kind {
        LimitKind::Fixed => read_fixed(table),
        LimitKind::Settable | LimitKind::Aimd | LimitKind::Vegas => read_moving(table, kind),
        LimitKind::Auto => read_auto(table),
    }
}

/// The word at `limit.kind`.
fn limit_kind(version: Version, table: &Table) -> Result<LimitKind, ConfigFault>
    ensures { result_map kind_word result
        ≡ text_from Key.LimitKind (is_among (kinds_in version))
        (get_member (name_of Key.LimitKind) (table_view table.now)) }
{
    match kind_named(version, read_text(table, Key::LimitKind)?) {
        Some(kind) => Ok(kind),
        None => Err(ConfigFault::Value(KeyAtFault::plain(Key::LimitKind))),
    }
}

/// The kind of this word, where the version has it.
fn kind_named(version: Version, word: &str) -> Option<LimitKind>
    ensures { option_map kind_word result
        ≡ if is_among (kinds_in version) word.now then Some word.now else None }
{
    match (version, LimitKind::named(word.as_bytes())?) {
        (Version::One, LimitKind::Auto) => None,
        (_, kind) => Some(kind),
    }
}

/// A fixed limit.
fn read_fixed(table: &Table) -> Result<LimitSpec, ConfigFault>
    ensures sound { IfOk result (λ spec. IsOk (limit_made spec)) }
    ensures value { result ≡ limit_behind LimitKind.Fixed (table_view table.now) }
{
    let permits = read_number(table, Key::LimitInitial, range_of!(LimitInitial, of fixed))?;
    Ok(LimitSpec::Fixed { permits })
}

/// A limit without numbers but its bounds. Where `max` is absent, it has that of all limits.
fn read_auto(table: &Table) -> Result<LimitSpec, ConfigFault>
    ensures sound { IfOk result (λ spec. IsOk (limit_made spec)) }
    ensures value { result ≡ limit_behind LimitKind.Auto (table_view table.now) }
{
    let lo = read_number(table, Key::LimitMin, range_of!(LimitMin))?;
    let hi = read_number(table, Key::LimitMax, range_of!(LimitMax, of auto, lo))?;
    let first = read_number(
        table,
        Key::LimitInitial,
        range_of!(LimitInitial, of auto, lo, hi),
    )?;
    Ok(LimitSpec::Auto(Limits { lo, first, hi }))
}

/// A limit that moves by numbers: first those that all of these have, then those of its own.
fn read_moving(table: &Table, kind: LimitKind) -> Result<LimitSpec, ConfigFault>
    requires moves { is_among moving (kind_word kind) ≡ true }
    ensures sound { IfOk result (λ spec. IsOk (limit_made spec)) }
    ensures value { result ≡ limit_behind kind (table_view table.now) }
{
    let lo = read_number(table, Key::LimitMin, range_of!(LimitMin))?;
    let hi = read_number(table, Key::LimitMax, range_of!(LimitMax, lo))?;
    let first = read_number(table, Key::LimitInitial, range_of!(LimitInitial, lo, hi))?;
    let limits = Limits { lo, first, hi };
    match kind {
        LimitKind::Fixed | LimitKind::Auto => unreachable!(),
        LimitKind::Settable => Ok(LimitSpec::Settable(limits)),
        LimitKind::Aimd => read_aimd(table, limits),
        LimitKind::Vegas => read_vegas(table, limits),
    }
}

/// An AIMD limit between these limits.
fn read_aimd(table: &Table, limits: Limits) -> Result<LimitSpec, ConfigFault>
    requires least { (1 ≤ limits.lo) × (limits.lo ≤ limits.first) }
    requires most { (limits.first ≤ limits.hi) × (limits.hi ≤ greatest_limit) }
    requires before { values_behind LimitKind.Aimd moving_rows (table_view table.now)
        ≡ Ok (moving_values LimitKind.Aimd limits) }
    ensures sound { IfOk result (λ spec. IsOk (limit_made spec)) }
    ensures value { result ≡ limit_behind LimitKind.Aimd (table_view table.now) }
{
    let ratio_thousandths = read_number(table, Key::LimitRatio, range_of!(LimitRatio))?;
    let timeout_us = read_number(table, Key::LimitTimeoutUs, range_of!(LimitTimeoutUs))?;
    Ok(LimitSpec::Aimd(AimdNumbers {
        lo: limits.lo,
        first: limits.first,
        hi: limits.hi,
        ratio_thousandths,
        timeout_ns: u64::from(timeout_us) * MICRO,
    }))
}

/// A Vegas limit between these limits.
fn read_vegas(table: &Table, limits: Limits) -> Result<LimitSpec, ConfigFault>
    requires least { (1 ≤ limits.lo) × (limits.lo ≤ limits.first) }
    requires most { (limits.first ≤ limits.hi) × (limits.hi ≤ greatest_limit) }
    requires before { values_behind LimitKind.Vegas moving_rows (table_view table.now)
        ≡ Ok (moving_values LimitKind.Vegas limits) }
    ensures sound { IfOk result (λ spec. IsOk (limit_made spec)) }
    ensures value { result ≡ limit_behind LimitKind.Vegas (table_view table.now) }
{
    let alpha = read_number(table, Key::LimitAlpha, range_of!(LimitAlpha))?;
    let beta = read_number(table, Key::LimitBeta, range_of!(LimitBeta, alpha))?;
    let probe_every = read_number(table, Key::LimitProbeEvery, range_of!(LimitProbeEvery))?;
    Ok(LimitSpec::Vegas(VegasNumbers {
        lo: limits.lo,
        first: limits.first,
        hi: limits.hi,
        alpha,
        beta,
        probe_every,
    }))
}
