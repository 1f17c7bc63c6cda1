// The keys outside all tables.
ghost use Rattle.std.specs.Option.{ForSome};
ghost use Rattle.std.specs.Prelude.{◌≡◌, ◌≤◌, ◌++◌, [], IfOk, Ok, Some, fold};
ghost use Rattle.toml.specs.View.{table_view};
ghost use Rattle.gate_config.specs.declared.version.Version.TheVariants.{Two};
ghost use Rattle.gate_config.specs.Outcomes.{result_map};
ghost use Rattle.gate_config.specs.Rows.{front_rows, gate_rows, kept_rows, top_rows};
ghost use Rattle.gate_config.specs.Section.{Values, read_row, section_values};
ghost use Rattle.gate_config.specs.Top.{AreKept, IsTop, front_values, gate_values, kept_values, top_values};

use crate::promote::{PromoteRule, read_promote};
use crate::{ConfigFault, Key, Range, Version, read_address, read_flag, read_number};
use config_words::{default_of, range_of};
use gateway_settings::Address;
use toml::Table;

/// The keys outside all tables, of all versions and beside all limits.
pub const TOP_KEYS: [Key; 18] = [
    Key::Version,
    Key::Listen,
    Key::Backend,
    Key::Backlog,
    Key::Wait,
    Key::TimeoutMs,
    Key::Clients,
    Key::ClientIdleMs,
    Key::Backends,
    Key::BackendIdleMs,
    Key::BodiesMib,
    Key::Keep,
    Key::Promote,
    Key::Limit,
    Key::Window,
    Key::Class,
    Key::Resolver,
    Key::Bypass,
];

/// What the keys outside all tables hold.
#[derive(Drop)]
pub struct TopKeys {
    pub front: FrontKeys,
    /// The connections that are kept and the bodies that are held, in a version that has keys for
    /// them.
    pub kept: Option<KeptKeys>,
    pub gate: GateKeys,
}

/// The addresses, and who waits.
#[derive(Drop)]
pub struct FrontKeys {
    pub listen: Address,
    pub backend: Address,
    /// How many callers may wait, beside those in the classes' own places.
    pub backlog: u32,
    /// Whether refused callers wait.
    pub wait: bool,
    /// The longest wait, in milliseconds.
    pub timeout_ms: u32,
}

/// The connections that are kept, and the bodies that are held.
#[derive(Clone, Copy, Drop)]
pub struct KeptKeys {
    /// How many places there are for clients that are kept or silent.
    pub clients: u32,
    /// How long a kept client may be idle, in milliseconds.
    pub client_idle_ms: u32,
    /// How many connections to the backend are kept.
    pub backends: u32,
    /// How long one may be idle and be used again, in milliseconds.
    pub backend_idle_ms: u32,
    /// How many MiB all bodies may have together that are held.
    pub bodies_mib: u32,
}

/// The history, and who is promoted.
#[derive(Drop)]
pub struct GateKeys {
    /// How many entries of the history are kept.
    pub keep: u32,
    /// Which waiters get the room that falls free.
    pub promote: PromoteRule,
}

/// The keys outside all tables, in a version.
pub fn read_top(version: Version, table: &Table) -> Result<TopKeys, ConfigFault>
    ensures within { IfOk result IsTop }
    ensures value { result_map top_values result
        ≡ section_values [] (top_rows version) (table_view table.now) }
{
    let front = read_front(table)?;
    let kept = read_kept(version, table)?;
    let gate = read_gate(table)?;
    Ok(TopKeys { front, kept, gate })
}

/// The addresses, and who waits.
fn read_front(table: &Table) -> Result<FrontKeys, ConfigFault>
    ensures backlog { IfOk result (λ k. k.backlog ≤ 10000) }
    ensures timeout { IfOk result (λ k. (1 ≤ k.timeout_ms) × (k.timeout_ms ≤ 3600000)) }
    ensures value { result_map front_values result
        ≡ section_values [] front_rows (table_view table.now) }
{
    let listen = read_address(table, Key::Listen)?;
    let backend = read_address(table, Key::Backend)?;
    let backlog = read_number(table, Key::Backlog, range_of!(Backlog))?;
    let wait = read_flag(table, Key::Wait, default_of!(Wait))?;
    let timeout_ms = read_number(table, Key::TimeoutMs, range_of!(TimeoutMs))?;
    Ok(FrontKeys {
        listen,
        backend,
        backlog,
        wait,
        timeout_ms,
    })
}

/// The connections that are kept and the bodies that are held, behind what was read, in a version
/// that has keys for them.
fn read_kept(version: Version, table: &Table) -> Result<Option<KeptKeys>, ConfigFault>
    ensures within { IfOk result (λ kept. ForSome kept AreKept) }
    ensures value { (before : Values) → result_map (λ kept. before ++ kept_values kept) result
        ≡ fold (read_row [] (table_view table.now)) (Ok before) (kept_rows version) }
{
    match version {
        Version::One => Ok(None),
        Version::Two => match read_kept_keys(table) {
            Ok(kept) => Ok(Some(kept)),
            Err(fault) => Err(fault),
        },
    }
}

/// The keys of connections that are kept and of bodies that are held, behind what was read.
fn read_kept_keys(table: &Table) -> Result<KeptKeys, ConfigFault>
    ensures within { IfOk result AreKept }
    ensures value { (before : Values)
        → result_map (λ kept. before ++ kept_values (Some kept)) result
        ≡ fold (read_row [] (table_view table.now)) (Ok before) (kept_rows Two) }
{
    let clients = read_number(table, Key::Clients, range_of!(Clients))?;
    let client_idle_ms = read_number(table, Key::ClientIdleMs, range_of!(ClientIdleMs))?;
    let backends = read_number(table, Key::Backends, range_of!(Backends))?;
    let backend_idle_ms = read_number(table, Key::BackendIdleMs, range_of!(BackendIdleMs))?;
    let bodies_mib = read_number(table, Key::BodiesMib, range_of!(BodiesMib))?;
    Ok(KeptKeys {
        clients,
        client_idle_ms,
        backends,
        backend_idle_ms,
        bodies_mib,
    })
}

/// The history, and who is promoted, behind what was read.
fn read_gate(table: &Table) -> Result<GateKeys, ConfigFault>
    ensures within { IfOk result (λ k. (1 ≤ k.keep) × (k.keep ≤ 1000000)) }
    ensures value { (before : Values) → result_map (λ k. before ++ gate_values k) result
        ≡ fold (read_row [] (table_view table.now)) (Ok before) gate_rows }
{
    let keep = read_number(table, Key::Keep, range_of!(Keep))?;
    let promote = read_promote(table)?;
    Ok(GateKeys { keep, promote })
}
