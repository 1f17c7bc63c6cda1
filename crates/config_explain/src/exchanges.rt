// What is said of a configuration that is to fit into a number of exchanges at once.
ghost use Rattle.gateway_settings.specs.Settings.{AreSound};

use crate::settings::explain_settings;
use gate_config::settings_in;
use gateway_settings::Settings;
use limit_kinds::LimitKind;
use limit_laws::Limit;
use std::alloc::AllocError;
use toml::Table;

/// The numbers of settings that exchanges may change.
#[derive(Clone, Copy)]
struct Numbers {
    /// The greatest limit.
    max: u32,
    /// The limit at the start.
    initial: u32,
}

/// Says what there is to say of settings as they serve: so many exchanges at once, where a number
/// is given.
pub(crate) fn explain_served(
    out: &mut String,
    table: &Table,
    settings: Settings,
    exchanges: Option<u32>,
) -> Result<(), AllocError>
    requires { AreSound settings }
{
    let before = numbers_of(&settings);
    match settings.by_exchanges(exchanges) {
        Ok(settings) => explain_fitting(out, table, before, &settings),
        Err(few) => explain_too_few(out, table, few.wanted),
    }
}

/// Says which numbers were derived, and what else there is to say of the settings.
fn explain_fitting(
    out: &mut String,
    table: &Table,
    before: Numbers,
    settings: &Settings,
) -> Result<(), AllocError>
    requires { AreSound settings.now }
{
    say_derived(out, before, settings)?;
    explain_settings(out, table, settings)
}

/// Says how many exchanges are wanted at least, and of these what there is to say.
fn explain_too_few(out: &mut String, table: &Table, wanted: u32) -> Result<(), AllocError> {
    write!(
        out,
        "too few exchanges: {wanted} are wanted; with --exchanges {wanted}:\n"
    )?;
    let Ok(settings) = settings_in(*out.allocator(), table) else {
        return Err(AllocError);
    };
    let before = numbers_of(&settings);
    match settings.for_exchanges(wanted) {
        Ok(settings) => explain_fitting(out, table, before, &settings),
        Err(_) => Ok(()),
    }
}

/// These numbers of settings.
fn numbers_of(settings: &Settings) -> Numbers {
    Numbers {
        max: settings.limit.hi(),
        initial: settings.limit.limit(),
    }
}

/// Says which numbers were derived from the number of exchanges; nothing without one.
fn say_derived(out: &mut String, before: Numbers, settings: &Settings) -> Result<(), AllocError> {
    let Some(exchanges) = settings.exchanges else {
        return Ok(());
    };
    let Numbers { max, initial } = numbers_of(settings);
    if settings.omitted.backlog {
        let backlog = u64::from(settings.backlog).saturating_sub(settings.table.placed());
        write!(
            out,
            "backlog = {backlog}, derived from --exchanges {exchanges}\n"
        )?;
    }
    if settings.omitted.bodies {
        let bodies = settings.bodies_mib;
        write!(
            out,
            "bodies_mib = {bodies}, derived from --exchanges {exchanges}\n"
        )?;
    }
    if max != before.max || (settings.omitted.limit_max && finds_rest(settings.limit.kind())) {
        write!(
            out,
            "limit.max = {max}, derived from --exchanges {exchanges}\n"
        )?;
    }
    if initial != before.initial {
        write!(out, "limit.initial = {initial}, lowered to limit.max\n")?;
    }
    Ok(())
}

/// Whether a limit of this kind takes what is left where its greatest limit is omitted.
fn finds_rest(kind: LimitKind) -> bool {
    match kind {
        LimitKind::Fixed | LimitKind::Settable => false,
        LimitKind::Aimd | LimitKind::Vegas | LimitKind::Auto => true,
    }
}
