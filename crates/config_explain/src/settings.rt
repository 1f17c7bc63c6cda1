// What is worth knowing of a configuration without fault.
ghost use Rattle.gateway_settings.specs.Settings.{AreSound};

use crate::callers::explain_callers;
use crate::limits::explain_limit;
use gate_config::{AnyLimit, Key, value_at};
use gateway_settings::{Keepalive, Settings};
use limit_kinds::LimitKind;
use limit_laws::Limit;
use std::alloc::AllocError;
use toml::Table;

/// The most workers.
const MOST_WORKERS: u32 = 64;

/// Says how many workers it wants, what has no effect, where the limit may not adapt, and which
/// connections aren't kept.
pub(crate) fn explain_settings(
    out: &mut String,
    table: &Table,
    settings: &Settings,
) -> Result<(), AllocError>
    requires { AreSound settings.now }
{
    match settings.exchanges {
        Some(exchanges) => {
            let inside = say_together(out, settings)?;
            say_left_over(out, exchanges, inside)?;
        }
        None => explain_workers(out, settings)?,
    }
    if !settings.wait {
        explain_backlog(out, table, settings)?;
    }
    let threads = settings.exchanges.unwrap_or(MOST_WORKERS);
    explain_limit(out, table, u64::from(limit_of(settings).hi()), threads)?;
    explain_callers(out, table, settings)?;
    explain_keepalive(out, settings.keepalive())
}

/// Says which connections carry a single request, and which key changes that.
fn explain_keepalive(out: &mut String, keepalive: Keepalive) -> Result<(), AllocError> {
    let words = match keepalive {
        Keepalive::Off => {
            "each connection carries one request; clients and backends of version 2 keep them"
        }
        Keepalive::Clients =>
            "each connection to the backend carries one request; backends keeps them",
        Keepalive::Backend => "each connection of a client carries one request; clients keeps them",
        Keepalive::On => return Ok(()),
    };
    let word = keepalive.word();
    write!(out, "keepalive={word}: {words}\n")
}

/// Says that places have no effect where nobody waits: everybody's, where the configuration names
/// them, and those of classes.
fn explain_backlog(out: &mut String, table: &Table, settings: &Settings) -> Result<(), AllocError> {
    let places = settings.table.placed();
    let backlog = u64::from(settings.backlog).saturating_sub(places);
    if backlog > 0 && value_at(table, Key::Backlog).is_some() {
        write!(
            out,
            "wait = false: nobody waits, so backlog = {backlog} has no effect\n"
        )?;
    }
    if places > 0 {
        out.push_str("wait = false: nobody waits, so the places of classes have no effect\n")?;
    }
    Ok(())
}

/// The limit before as many workers as there may be.
fn limit_of(settings: &Settings) -> AnyLimit
    requires { AreSound settings.now }
{
    settings.limit_for(MOST_WORKERS)
}

/// Says how many may be inside together, and so how many workers are wanted.
fn explain_workers(out: &mut String, settings: &Settings) -> Result<(), AllocError>
    requires { AreSound settings.now }
{
    if let LimitKind::Auto = settings.limit.kind() {
        let limit = limit_of(settings).hi();
        write!(
            out,
            "limit.kind = \"auto\": it goes up to what the workers leave over, at most limit.max; \
             with --workers {MOST_WORKERS} to {limit}\n"
        )?;
    }
    let inside = say_together(out, settings)?;
    say_workers(out, inside)
}

/// Says how many may be inside together, and answers that.
fn say_together(out: &mut String, settings: &Settings) -> Result<u64, AllocError>
    requires { AreSound settings.now }
{
    let Most {
        limit,
        shares,
        backlog,
        places,
    } = most_of(settings);
    let inside = limit
        .saturating_add(shares)
        .saturating_add(backlog)
        .saturating_add(places);
    if places > 0 {
        write!(
            out,
            "greatest limit {limit}, shares of it {shares}, backlog {backlog} and places of \
             classes {places} are {inside} together\n"
        )?;
    } else {
        write!(
            out,
            "greatest limit {limit}, shares of it {shares} and backlog {backlog} \
             are {inside} together\n"
        )?;
    }
    Ok(inside)
}

/// The most who may be inside.
struct Most {
    /// The greatest limit.
    limit: u64,
    /// How many permits shares add to it.
    shares: u64,
    /// How many wait in everybody's places.
    backlog: u64,
    /// How many wait in the classes' own.
    places: u64,
}

/// The most who may be inside by each rule.
fn most_of(settings: &Settings) -> Most
    requires { AreSound settings.now }
{
    let hi = limit_of(settings).hi();
    let limit = u64::from(hi);
    let waiting = u64::from(settings.waiting());
    let places = settings.table.placed().min(waiting);
    Most {
        limit,
        shares: settings.table.most(hi).saturating_sub(limit),
        backlog: waiting.saturating_sub(places),
        places,
    }
}

/// Says how many workers are wanted where so many may be inside together.
fn say_workers(out: &mut String, inside: u64) -> Result<(), AllocError> {
    if inside < u64::from(MOST_WORKERS) {
        let workers = inside.saturating_add(1);
        write!(
            out,
            "serve it with --workers {workers} or more, at most {MOST_WORKERS}\n"
        )
    } else {
        write!(
            out,
            "too few workers: there are at most {MOST_WORKERS}, and callers past them wait unseen; \
             serve it with --exchanges, or lower the limit or the backlog\n"
        )
    }
}

/// Says how many of so many exchanges are left over where so many may be inside together, and who
/// holds threads besides.
fn say_left_over(out: &mut String, exchanges: u32, inside: u64) -> Result<(), AllocError> {
    let left = u64::from(exchanges).saturating_sub(inside);
    write!(
        out,
        "left over of --exchanges {exchanges}: {left}, for requests that are refused\n\
         bypassed requests and slow clients hold threads too: if you expect them, write these \
         numbers into the configuration, and take more exchanges\n"
    )
}
