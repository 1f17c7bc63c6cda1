// A journal with the permits that are open in it.
ghost use Rattle.std.specs.Prelude.{◌≡◌, ◌≤◌, ◌<◌, ◌+◌, ◌^◌, ℕ, [], drop, length, nat_eq, Some};
ghost use Rattle.std.specs.Prelude.{◌==◌, if◌then◌else◌, IfOk, IfSome, OnOk, is_none};
ghost use Rattle.std.specs.HashMap.{get, spare};
ghost use Rattle.limiter_core.specs.declared.event.Entry.TheVariants.{Call};
ghost use Rattle.limiter_core.specs.Bound.{IsSound};
ghost use Rattle.limiter_core.specs.Handed.{open_after};
ghost use Rattle.gate_journal.specs.Journal.{gate, opening, next_number, is_over, answered};
ghost use Rattle.gate_journal.specs.Rolling.{after};
ghost use Rattle.gate_journal.specs.Settings.{AreInRange, begun};
ghost use Rattle.load_driver.specs.Session.{open_in};
ghost use Rattle.load_driver.specs.Stretches.{IsOpen, StandsFor, told_at, open_then};

use gate_journal::{GateSettings, Journal, rolling_runs_are_legal};
use limit_laws::{LAST_MOMENT, Limit};
use limiter_core::{
    Entry, Event, PermitFacts, Reply, open_permits_are_in_flight, open_permits_may_end,
};
use partitions::PartitionTable;
use std::alloc::{AllocError, Global};
use std::collections::HashMap;
use std::marker::Model;

/// A journal with the permits that are open in it, by the number of their acquire: an ending is
/// found without a walk over the history, and however often the journal rolled.
#[derive(Drop)]
pub struct Session<L: Limit> {
    journal: Journal<L>,
    permits: HashMap<u64, PermitFacts>,
}

impl<L: Limit> Model for Session<L> {
    ghost use Rattle.load_driver.specs.Session.{Session, IsSession};

    ghost Value = { Session L };

    ghost view = { λ s. record { journal = s.journal; permits = s.permits.entries } };

    ghost invariant = { λ s. IsSession L.rules s.journal s.permits };
}

/// Where the entries of an answer stand: the number of the first, and its place among those that
/// are held.
#[derive(Clone, Copy)]
pub struct Added {
    /// The number of the first.
    pub number: u64,
    /// Its place among the entries that are held.
    pub place: usize,
}

impl<L: Limit> Session<L> {
    /// Nothing was asked yet.
    pub fn new(alloc: Global, settings: GateSettings<L>) -> Result<Session<L>, AllocError>
        requires { AreInRange settings }
        ensures begun { IfOk result (λ session.
            session ≡ record { journal = begun settings; permits = [] }) }
        ensures stands { IfOk result (λ session.
            StandsFor L.rules (begun settings) session) }
    {
        open_permits_are_in_flight::<L>();
        let journal = Journal::begin(alloc, settings)?;
        let _entries = journal.entries();
        Ok(Session {
            journal,
            permits: HashMap::new(alloc),
        })
    }

    /// The partitions of the limiter.
    pub(crate) fn table(&self) -> &PartitionTable
        ensures { result.now ≡ self.now.journal.rows }
    {
        self.journal.core().table()
    }

    /// The open permit of a number, which is its own.
    pub(crate) fn permit(&self, number: u64) -> Option<PermitFacts>
        ensures found { result ≡ open_in self.now number }
        ensures own { IfSome result (λ permit. permit.number ≡ number) }
    {
        permit_of(&self.permits, number)
    }

    /// The entries that are held, in order.
    pub fn entries(&self) -> &[Entry]
        ensures entries { result.now ≡ self.now.journal.entries }
        ensures sound { IsSound (gate L.rules self.now.journal) (opening self.now.journal) }
    {
        self.journal.entries()
    }

    /// The entries that an answer added, where it is the last one.
    pub fn told(&self, added: Option<Added>) -> &[Entry]
        requires { IfSome added (λ at. at.place ≤ length self.now.journal.entries) }
        ensures { result.now ≡ told_at self.now.journal.entries added }
    {
        match added {
            Some(added) => &self.entries()[added.place..],
            None => &[],
        }
    }

    /// Answers an event, and says where the entries stand that this adds; nothing where the journal
    /// is exhausted. An ending names an open permit.
    pub(crate) fn ask(&mut self, event: Event) -> Result<Option<Added>, AllocError>
        requires { IsOpen (open_in self.old) event }
        ensures exhausted { IfOk result (λ added.
            is_none added ≡ is_over L.rules self.old.journal event) }
        ensures number { IfOk result (λ added.
            IfSome added (λ at. at.number ≡ next_number self.old.journal)) }
        ensures entries { IfOk result (λ added. IfSome added (λ at.
            drop at.place self.new.journal.entries ≡ answered L.rules self.old.journal event)) }
        ensures inside { IfOk result (λ added. IfSome added (λ at.
            at.place ≤ length self.new.journal.entries)) }
        ensures numbered { IfOk result (λ added. IfSome added (λ at.
            at.number + length (drop at.place self.new.journal.entries) < 2 ^ 64)) }
        ensures journal { OnOk result (self.new.journal ≡ after L.rules self.old.journal event) }
        ensures opens { OnOk result (open_in self.new
            ≡ open_then L.rules self.old.journal (open_in self.old) event) }
    {
        open_permits_may_end::<L>();
        open_permits_are_in_flight::<L>();
        rolling_runs_are_legal::<L>();
        self.journal.invariant();
        self.permits.reserve(1)?;
        match self.journal.apply(event) {
            Some((number, reply)) => {
                note(&mut self.permits, number, event, reply);
                let place = (number - self.journal.base()) as usize;
                let _next = self.journal.number();
                Ok(Some(Added { number, place }))
            }
            None => Ok(None),
        }
    }
}

/// The permit of a number.
fn permit_of(permits: &HashMap<u64, PermitFacts>, number: u64) -> Option<PermitFacts>
    ensures { result ≡ get nat_eq permits.now number }
{
    permits.get(&number).copied()
}

/// Keeps the permit that an entry hands out, or drops the one that it ends.
fn note(permits: &mut HashMap<u64, PermitFacts>, number: u64, event: Event, reply: Reply)
    requires { 0 < spare permits.old }
    ensures { (n : ℕ) → get nat_eq permits.new n
        ≡ open_after (get nat_eq permits.old) number (Call event reply) n }
{
    match (event, reply) {
        (Event::Acquire { part, now, .. }, Reply::Admitted { inflight }) => {
            let permit = PermitFacts {
                number,
                part,
                start: now.min(LAST_MOMENT),
                inflight,
            };
            keep(permits, permit);
        }
        (
            Event::Claim { number },
            Reply::Granted {
                part,
                start,
                inflight,
            },
        ) => {
            let permit = PermitFacts {
                number,
                part,
                start,
                inflight,
            };
            keep(permits, permit);
        }
        (
            Event::GiveUp { number },
            Reply::Granted {
                part,
                start,
                inflight,
            },
        ) => {
            let permit = PermitFacts {
                number,
                part,
                start,
                inflight,
            };
            keep(permits, permit);
        }
        (Event::End { permit, .. }, _) => {
            permits.remove(&permit.number);
        }
        _ => {}
    }
}

/// Keeps a permit by its number.
fn keep(permits: &mut HashMap<u64, PermitFacts>, permit: PermitFacts)
    requires { 0 < spare permits.old }
    ensures { (n : ℕ) → get nat_eq permits.new n
        ≡ (if permit.number == n then Some permit else get nat_eq permits.old n) }
{
    if permits.insert(permit.number, permit).is_err() {
        unreachable!()
    }
}
