// What is worth knowing of a limit that learns.
use gate_config::{Key, read_limit, read_table, read_window, version_of};
use limit_kinds::LimitSpec;
use std::alloc::AllocError;
use toml::Table;
use windowed::WindowNumbers;

/// One second in nanoseconds.
const SECOND: u64 = 1_000_000_000;

/// The nanoseconds of a microsecond.
const MICRO: u64 = 1_000;

/// Says where a limit can stay where it is for good, and where it is never reached by so many
/// threads.
pub(crate) fn explain_limit(
    out: &mut String,
    table: &Table,
    greatest: u64,
    threads: u32,
) -> Result<(), AllocError> {
    if greatest > u64::from(threads) {
        write!(
            out,
            "a limit above {threads} is never reached: there are at most as many workers\n"
        )?;
    }
    let least = match limit_in(table) {
        Some(LimitSpec::Vegas(numbers)) => {
            explain_probes(out, numbers.probe_every)?;
            numbers.lo
        }
        Some(LimitSpec::Aimd(numbers)) => {
            explain_timeout(out, numbers.timeout_ns)?;
            numbers.lo
        }
        _ => return Ok(()),
    };
    match window_in(table) {
        Some(window) => explain_window(out, u64::from(least), window),
        None => Ok(()),
    }
}

/// The limit, where none of its keys is at fault.
fn limit_in(table: &Table) -> Option<LimitSpec> {
    read_limit(version_of(table)?, read_table(table, Key::Limit).ok()?).ok()
}

/// The windows, where there are some and none of their keys is at fault.
fn window_in(table: &Table) -> Option<WindowNumbers> {
    read_window(read_table(table, Key::Window).ok()?).ok()
}

/// Says that nothing takes a base back that was measured once.
fn explain_probes(out: &mut String, probe_every: u32) -> Result<(), AllocError> {
    if probe_every == 0 {
        write!(
            out,
            "limit.probe_every = 0: one quick answer, or a drop, can keep the limit low for good\n"
        )
    } else {
        Ok(())
    }
}

/// Says that quicker answers never lower the limit.
fn explain_timeout(out: &mut String, timeout_ns: u64) -> Result<(), AllocError> {
    if timeout_ns > SECOND {
        let timeout = timeout_ns / MICRO;
        write!(
            out,
            "limit.timeout_us = {timeout} is above a second: answers up to that only raise the \
             limit, however long the queue at the backend\n"
        )
    } else {
        Ok(())
    }
}

/// Says where a window at the least limit may never have enough answers. One that ends has one.
fn explain_window(out: &mut String, least: u64, window: WindowNumbers) -> Result<(), AllocError> {
    let (size, most_us) = (u64::from(window.size), window.max_window_ns / MICRO);
    if size > 1 && size > least.saturating_mul(2) {
        write!(
            out,
            "window.size = {size} is above twice limit.min = {least}: a limit that fell to min can \
             stay there for good\n"
        )
    } else if size > 1 && held_in_seconds(least, window.max_window_ns) < size {
        write!(
            out,
            "window.max_us = {most_us}: where an answer takes a second, {least} at once make fewer \
             than {size} in a window, and a limit that fell to min can stay there for good\n"
        )
    } else {
        Ok(())
    }
}

/// How many answers of a second so many at once make in a window of these nanoseconds.
fn held_in_seconds(least: u64, most_ns: u64) -> u64 {
    least.saturating_mul(most_ns) / SECOND
}
