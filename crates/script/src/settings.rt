// The settings of a script.
ghost use Rattle.std.specs.Prelude.{◌≡◌, ◌+◌, ◌≤◌, ◌∷◌, ◌++◌, [], IfOk, IfErr, IfSome, IfNone};
ghost use Rattle.std.specs.Prelude.{unwrap_or};
ghost use Rattle.partitions.specs.Table.{placed};
ghost use Rattle.std.specs.Prelude.{OnOk, OnErr};
ghost use Rattle.limit_laws.specs.Algorithm.{greatest_limit};
ghost use Rattle.partitions.specs.Faults.{given};
ghost use Rattle.script.specs.Settings.{table_of};

use super::fault_kind::FaultKind;
use super::setting::Setting;
use limit_kinds::{AnyLimit, BaseLimit, LimitSpec};
use limit_laws::HOUR;
use limiter_core::Promote;
use partitions::{PartitionTable, TableFault, from_percent};
use std::alloc::{AllocError, Global};
use std::marker::Model;
use windowed::{WindowNumbers, WindowSettings};

/// The most that may be let wait.
const MOST_WAITING: u32 = 10_000;

/// The most entries of a history that may be kept.
const MOST_KEPT: u64 = 1_000_000;

/// How many may wait where no line says it.
const USUAL_BACKLOG: u32 = 100;

/// How long a caller of a trace waits where no line says it, in nanoseconds.
const USUAL_TIMEOUT: u64 = 1_000_000_000;

/// The settings that the lines of a script gave so far.
#[derive(Drop)]
pub struct ScriptSettings<'a> {
    limit: Option<BaseLimit>,
    windows: Option<WindowSettings>,
    backlog: Option<u32>,
    keep: Option<usize>,
    is_rolling: bool,
    timeout: Option<u64>,
    promote: Option<Promote>,
    rows: Vec<(&'a [u8], u32)>,
    table: PartitionTable,
}

impl<'a> Model for ScriptSettings<'a> {
    ghost use Rattle.std.specs.Prelude.{◌≡◌, ◌≤◌, IfSome};
    ghost use Rattle.std.specs.Prelude.{◌+◌};
    ghost use Rattle.partitions.specs.Faults.{given};
    ghost use Rattle.partitions.specs.Table.{placed, unplaced};
    ghost use Rattle.lifo_backlog.specs.Waiters.{most_waiters};
    ghost use Rattle.script.specs.Limits.{most_kept};
    ghost use Rattle.script.specs.Settings.{SettingFacts};

    ghost Value = { SettingFacts };

    ghost view = { λ s. record {
      limit = s.limit;
      window = s.windows;
      backlog = s.backlog;
      keep = s.keep;
      is_rolling = s.is_rolling;
      timeout = s.timeout;
      promote = s.promote;
      rows = s.table;
    } };

    ghost invariant = { λ s. (given s.rows.items ≡ unplaced s.table)
        × (placed s.table ≤ most_waiters)
        × IfSome s.backlog (λ room. room + placed s.table ≤ most_waiters)
        × IfSome s.keep (λ entries. (1 ≤ entries) × (entries ≤ most_kept)) };
}

impl<'a> ScriptSettings<'a> {
    ghost use Rattle.lifo_backlog.specs.Waiters.{most_waiters};
    ghost use Rattle.script.specs.Limits.{most_kept};
    ghost use Rattle.script.specs.Setting.{setting_bytes};
    ghost use Rattle.script.specs.Settings.{no_settings, with_limit, with_window, with_backlog};
    ghost use Rattle.script.specs.Settings.{with_keep, with_percent, with_row, with_setting};
    ghost use Rattle.script.specs.Settings.{Answers, limit_of, room_of, kept_of, with_timeout, timeout_of};
    ghost use Rattle.script.specs.Settings.{with_promote, promote_of, with_own_places};

    /// No settings.
    pub fn new(alloc: Global) -> ScriptSettings<'a>
        ensures { result ≡ no_settings }
    {
        ScriptSettings {
            limit: None,
            windows: None,
            backlog: None,
            keep: None,
            is_rolling: false,
            timeout: None,
            promote: None,
            rows: Vec::new(alloc),
            table: PartitionTable::unknown_only(),
        }
    }

    /// Takes a setting, or says why it is at fault; then these settings stay as they are.
    ///
    /// [`FaultKind::Twice`] where anything but a class was set before, [`FaultKind::Value`] where a
    /// number is out of its range, the classes with this one make no table, or more than 10,000
    /// could wait, and [`FaultKind::Class`] where places are given to no class so far.
    pub fn take(&mut self, setting: Setting<&'a [u8]>) -> Result<Result<(), FaultKind>, AllocError>
        ensures answer { IfOk result (Answers
            (with_setting self.old (setting_bytes setting.entry)) self.old self.new) }
        ensures memory { OnErr result (self.new ≡ self.old) }
    {
        match setting {
            Setting::Limit(spec) => Ok(self.take_limit(spec)),
            Setting::Window(numbers) => Ok(self.take_window(numbers)),
            Setting::Class { name, percent } => self.take_class(name, percent),
            Setting::Share { name, thousandths } => self.take_share(name, thousandths),
            Setting::Places { name, places } => Ok(self.take_places(name, places)),
            Setting::Backlog { room } => Ok(self.take_backlog(room)),
            Setting::Keep {
                entries,
                is_rolling,
            } => Ok(self.take_keep(entries, is_rolling)),
            Setting::Timeout { nanos } => Ok(self.take_timeout(nanos)),
            Setting::Promotion { rule } => Ok(self.take_promote(rule)),
        }
    }

    /// Takes a limit.
    fn take_limit(&mut self, spec: LimitSpec) -> Result<(), FaultKind>
        ensures taken { OnOk result (with_limit self.old spec ≡ Ok self.new) }
        ensures fault { IfErr result (λ why. with_limit self.old spec ≡ Err why) }
        ensures unchanged { OnErr result (self.new ≡ self.old) }
    {
        if self.limit.is_some() {
            return Err(FaultKind::Twice);
        }
        self.limit = Some(spec.make()?);
        Ok(())
    }

    /// Takes windows.
    fn take_window(&mut self, numbers: WindowNumbers) -> Result<(), FaultKind>
        ensures taken { OnOk result (with_window self.old numbers ≡ Ok self.new) }
        ensures fault { IfErr result (λ why. with_window self.old numbers ≡ Err why) }
        ensures unchanged { OnErr result (self.new ≡ self.old) }
    {
        if self.windows.is_some() {
            return Err(FaultKind::Twice);
        }
        self.windows = Some(WindowSettings::of(numbers)?);
        Ok(())
    }

    /// Takes a backlog.
    fn take_backlog(&mut self, room: u64) -> Result<(), FaultKind>
        ensures taken { OnOk result (with_backlog self.old room ≡ Ok self.new) }
        ensures fault { IfErr result (λ why. with_backlog self.old room ≡ Err why) }
        ensures unchanged { OnErr result (self.new ≡ self.old) }
    {
        if self.backlog.is_some() {
            return Err(FaultKind::Twice);
        }
        if room > self.places_left() {
            return Err(FaultKind::Value);
        }
        self.backlog = Some(room as u32);
        Ok(())
    }

    /// Takes the own places of a class.
    fn take_places(&mut self, name: &[u8], places: u64) -> Result<(), FaultKind>
        ensures taken { OnOk result (with_own_places self.old name.now places ≡ Ok self.new) }
        ensures fault { IfErr result (λ why. with_own_places self.old name.now places ≡ Err why) }
        ensures unchanged { OnErr result (self.new ≡ self.old) }
    {
        let part = self.table.find(name);
        if let Some(part) = part {
            if self.table.own_places(self.table.place(part)) > 0 {
                return Err(FaultKind::Twice);
            }
        }
        if places > self.places_left() {
            return Err(FaultKind::Value);
        }
        let Some(part) = part else {
            return Err(FaultKind::Class);
        };
        self.table.set_places(part, places as u32);
        Ok(())
    }

    /// Takes how many entries are kept, and whether the history rolls.
    fn take_keep(&mut self, entries: u64, is_rolling: bool) -> Result<(), FaultKind>
        ensures taken { OnOk result (with_keep self.old entries is_rolling ≡ Ok self.new) }
        ensures fault { IfErr result (λ why. with_keep self.old entries is_rolling ≡ Err why) }
        ensures unchanged { OnErr result (self.new ≡ self.old) }
    {
        if self.keep.is_some() {
            return Err(FaultKind::Twice);
        }
        if entries < 1 || entries > MOST_KEPT {
            return Err(FaultKind::Value);
        }
        self.keep = Some(entries as usize);
        self.is_rolling = is_rolling;
        Ok(())
    }

    /// Takes how long a caller waits.
    fn take_timeout(&mut self, nanos: u64) -> Result<(), FaultKind>
        ensures taken { OnOk result (with_timeout self.old nanos ≡ Ok self.new) }
        ensures fault { IfErr result (λ why. with_timeout self.old nanos ≡ Err why) }
        ensures unchanged { OnErr result (self.new ≡ self.old) }
    {
        if self.timeout.is_some() {
            return Err(FaultKind::Twice);
        }
        if nanos < 1 || nanos > HOUR {
            return Err(FaultKind::Value);
        }
        self.timeout = Some(nanos);
        Ok(())
    }

    /// Takes a rule of promotion.
    fn take_promote(&mut self, rule: Promote) -> Result<(), FaultKind>
        ensures taken { OnOk result (with_promote self.old rule ≡ Ok self.new) }
        ensures fault { IfErr result (λ why. with_promote self.old rule ≡ Err why) }
        ensures unchanged { OnErr result (self.new ≡ self.old) }
    {
        if self.promote.is_some() {
            return Err(FaultKind::Twice);
        }
        self.promote = Some(rule);
        Ok(())
    }

    /// Takes one more class, whose share is told in percent.
    fn take_class(
        &mut self,
        name: &'a [u8],
        percent: u64,
    ) -> Result<Result<(), FaultKind>, AllocError>
        ensures answer { IfOk result
            (Answers (with_percent self.old name.now percent) self.old self.new) }
        ensures memory { OnErr result (self.new ≡ self.old) }
    {
        self.take_share(name, from_percent(percent))
    }

    /// Takes one more class, where those so far and this one make a table.
    fn take_share(
        &mut self,
        name: &'a [u8],
        thousandths: u64,
    ) -> Result<Result<(), FaultKind>, AllocError>
        ensures answer { IfOk result (Answers
            (with_row self.old
            (record { name = name.now; thousandths = thousandths; places = 0 }))
            self.old self.new) }
        ensures memory { OnErr result (self.new ≡ self.old) }
    {
        let Ok(thousandths) = u32::try_from(thousandths) else {
            return Ok(Err(FaultKind::Value));
        };
        match push_row(&mut self.rows, (name, thousandths))? {
            Some(mut table) => {
                table.take_places(&self.table);
                self.table = table;
                Ok(Ok(()))
            }
            None => Ok(Err(FaultKind::Value)),
        }
    }

    /// The limit of the settings, which is fixed at `n` permits where no line gave one.
    pub fn limit(&self, n: u32) -> AnyLimit
        requires least { 1 ≤ n }
        requires most { n ≤ greatest_limit }
        ensures { result ≡ limit_of n self.now }
    {
        let base = match self.limit {
            Some(limit) => limit,
            None => fixed(n),
        };
        AnyLimit::new(base, self.windows)
    }

    /// How many may wait in all, in the classes' own places and in everybody's: 0 to 10,000.
    pub fn room(&self) -> u32
        ensures value { result ≡ room_of self.now }
        ensures most { result ≤ most_waiters }
    {
        let placed = self.table.placed() as u32;
        let backlog = match self.backlog {
            Some(backlog) => backlog,
            None => USUAL_BACKLOG.min(MOST_WAITING - placed),
        };
        backlog + placed
    }

    /// How many places are left of the 10,000 that there may be, beside the classes' own and those
    /// that a line gave to everybody.
    pub fn places_left(&self) -> u64
        ensures { result + (placed self.now.rows + unwrap_or self.now.backlog 0) ≡ most_waiters }
    {
        let given = self.table.placed() + u64::from(self.backlog.unwrap_or(0));
        u64::from(MOST_WAITING) - given
    }

    /// How many entries of the history are kept, 1 to 1,000,000: `usual` where no line says it.
    pub fn kept(&self, usual: usize) -> usize
        requires some { 1 ≤ usual }
        requires few { usual ≤ most_kept }
        ensures value { result ≡ kept_of usual self.now }
        ensures least { 1 ≤ result }
        ensures most { result ≤ most_kept }
    {
        self.keep.unwrap_or(usual)
    }

    /// Whether the history rolls: where a line says so.
    pub fn is_rolling(&self) -> bool
        ensures { result ≡ self.now.is_rolling }
    {
        self.is_rolling
    }

    /// How long a caller of a trace waits, in nanoseconds: one second where no line says it.
    pub fn timeout(&self) -> u64
        ensures { result ≡ timeout_of self.now }
    {
        self.timeout.unwrap_or(USUAL_TIMEOUT)
    }

    /// Which waiters are promoted: the newest alone where no line says it.
    pub fn promote(&self) -> Promote
        ensures { result ≡ promote_of self.now }
    {
        self.promote.unwrap_or(Promote::Newest)
    }

    /// The table of the known partitions, as it stands.
    pub fn table(&self) -> &PartitionTable
        ensures { result.now ≡ self.now.rows }
    {
        &self.table
    }

    /// The table of the known partitions.
    pub fn into_table(self) -> PartitionTable
        ensures { result ≡ self.entry.rows }
    {
        self.table
    }
}

/// Adds a row where it makes a table with those so far, and gives that table; else the rows stay.
fn push_row<'a>(
    rows: &mut Vec<(&'a [u8], u32)>,
    row: (&'a [u8], u32),
) -> Result<Option<PartitionTable>, AllocError>
    ensures table { IfOk result (λ made. made
        ≡ table_of (given rows.old.items ++ given (row.entry ∷ []))) }
    ensures taken { IfOk result (λ made. IfSome made (λ table. table ≡ given rows.new.items)) }
    ensures left { IfOk result (λ made. IfNone made (rows.new.items ≡ rows.old.items)) }
    ensures memory { OnErr result (rows.new.items ≡ rows.old.items) }
{
    let count = rows.len();
    rows.push(row)?;
    let made = make_table(*rows.allocator(), rows);
    if !matches!(made, Ok(Some(_))) {
        rows.truncate(count);
    }
    made
}

/// The table of rows that make one.
fn make_table(alloc: Global, rows: &[(&[u8], u32)]) -> Result<Option<PartitionTable>, AllocError>
    ensures { IfOk result (λ table. table ≡ table_of (given rows.now)) }
{
    match PartitionTable::new(alloc, rows) {
        Ok(table) => Ok(Some(table)),
        Err(TableFault::Memory) => Err(AllocError),
        Err(_) => Ok(None),
    }
}

/// The limit that is fixed at this many permits.
fn fixed(n: u32) -> BaseLimit
    requires least { 1 ≤ n }
    requires most { n ≤ greatest_limit }
    ensures { result ≡ BaseLimit.Fixed n }
{
    match (LimitSpec::Fixed { permits: n }).make() {
        Ok(limit) => limit,
        Err(_) => unreachable!(),
    }
}
