// The actions to come, in their order.
ghost use Rattle.std.specs.Prelude.{◌≡◌, ◌+◌, ◌<◌, ℕ, [], false, length, nat_eq, slice_get, Some};
ghost use Rattle.std.specs.Prelude.{IfOk, OnOk, IfSome, IfNone};
ghost use Rattle.std.specs.HashMap.{get};
ghost use Rattle.virtual_time.specs.declared.action.Action.{Action};
ghost use Rattle.virtual_time.specs.Next.{promotes, IsNext, IsFirst, IsLeast, Follows};
ghost use Rattle.virtual_time.specs.Calendar.{has, Has, IsKept, IsHeld, Loses, Takes, Adds, Joins};

use super::action::{Action, Kind};
use super::pending::arriving;
use limiter_core::Entry;
use std::alloc::{AllocError, Global};
use std::collections::{BTreeSet, HashMap};
use trace::Arrival;

/// The actions to come, in their order.
///
/// A promotion is found once: the entries up to `read` were looked through for them.
#[derive(Drop)]
pub(crate) struct Calendar {
    actions: BTreeSet<Action>,
    /// The giving up of each number that ever waited; it is pending where `actions` has it.
    waiters: HashMap<u64, Action>,
    read: usize,
}

impl Calendar {
    /// All arrivals are to come.
    pub(crate) fn new(alloc: Global, arrivals: &[Arrival]) -> Result<Calendar, AllocError>
        ensures { IfOk result (λ c. (timeout : ℕ) → IsHeld arrivals.now timeout [] [] c) }
    {
        let mut actions = BTreeSet::new(alloc);
        for (place, arrival) in arrivals.iter().enumerate() {
            actions.insert(arriving(arrival, place))?;
        }
        Ok(Calendar {
            actions,
            waiters: HashMap::new(alloc),
            read: 0,
        })
    }

    /// Takes the next action out.
    pub(crate) fn next(&mut self, entries: &[Entry]) -> Option<Action>
        requires { IsKept entries.now self.old }
        ensures kept { IsKept entries.now self.new }
        ensures next { IfSome result (IsNext (Has self.old.actions) entries.now) }
        ensures takes { IfSome result (Takes self.old.actions self.new.actions) }
        ensures over { IfNone result ((d : Action) → has self.old.actions d ≡ false) }
    {
        if let Some(action) = self.next_promoted(entries) {
            return Some(action);
        }
        let action = self.pop_least()?;
        Some(action)
    }

    /// Takes the least action out.
    fn pop_least(&mut self) -> Option<Action>
        ensures least { IfSome result (IsLeast (Has self.old.actions)) }
        ensures loses { IfSome result (Loses self.old.actions self.new.actions) }
        ensures none { IfNone result ((d : Action) → has self.old.actions d ≡ false) }
        ensures same { IfNone result (self.new.actions ≡ self.old.actions) }
        ensures waiters { self.new.waiters ≡ self.old.waiters }
        ensures read { self.new.read ≡ self.old.read }
    {
        let action = self.actions.pop_first()?;
        Some(action)
    }

    /// Takes the giving up out that follows the first promotion that has one.
    fn next_promoted(&mut self, entries: &[Entry]) -> Option<Action>
        requires { IsKept entries.now self.old }
        ensures kept { IsKept entries.now self.new }
        ensures first { IfSome result (IsFirst (Has self.old.actions) entries.now) }
        ensures takes { IfSome result (Takes self.old.actions self.new.actions) }
        ensures none { IfNone result ((k : ℕ) (d : Action)
            → Follows (Has self.old.actions) entries.now k d → ⊥) }
        ensures same { IfNone result (self.new.actions ≡ self.old.actions) }
    {
        while self.read < entries.len() {
            if let Some(action) = self.read_one(entries) {
                return Some(action);
            }
        }
        None
    }

    /// Reads one entry more, and takes the giving up out that follows it, if one does.
    fn read_one(&mut self, entries: &[Entry]) -> Option<Action>
        requires kept { IsKept entries.now self.old }
        requires more { self.old.read < length entries.now }
        ensures kept { IsKept entries.now self.new }
        ensures read { self.new.read ≡ self.old.read + 1 }
        ensures follows { IfSome result (Follows (Has self.old.actions) entries.now self.old.read) }
        ensures takes { IfSome result (Takes self.old.actions self.new.actions) }
        ensures none { IfNone result ((d : Action)
            → Follows (Has self.old.actions) entries.now self.old.read d → ⊥) }
        ensures same { IfNone result (self.new.actions ≡ self.old.actions) }
    {
        let number = self.read;
        self.read += 1;
        let (waiter, start) = promoted_at(entries, number)?;
        if number as u64 <= waiter {
            return None;
        }
        let late = self.take_waiter(waiter)?;
        Some(Action {
            moment: start,
            ..late
        })
    }

    /// Takes the giving up of a number out.
    fn take_waiter(&mut self, number: u64) -> Option<Action>
        ensures found { IfSome result (λ d. get nat_eq self.old.waiters number ≡ Some d) }
        ensures loses { IfSome result (Loses self.old.actions self.new.actions) }
        ensures none { IfNone result ((d : Action) → get nat_eq self.old.waiters number ≡ Some d
            → has self.old.actions d ≡ false) }
        ensures same { IfNone result (self.new.actions ≡ self.old.actions) }
        ensures waiters { self.new.waiters ≡ self.old.waiters }
        ensures read { self.new.read ≡ self.old.read }
    {
        let late = *self.waiters.get(&number)?;
        if self.actions.remove(&late) {
            Some(late)
        } else {
            None
        }
    }

    /// Adds an action, if there is one.
    pub(crate) fn join(&mut self, action: Option<Action>) -> Result<(), AllocError>
        ensures { OnOk result (Joins self.old self.new action) }
    {
        match action {
            Some(action) => self.add(action),
            None => Ok(()),
        }
    }

    /// Adds an action.
    fn add(&mut self, action: Action) -> Result<(), AllocError>
        ensures { OnOk result (Adds self.old self.new action) }
    {
        self.actions.insert(action)?;
        if let Kind::GivingUp = action.kind {
            self.waiters.insert(action.number, action)?;
        }
        Ok(())
    }
}

/// Whom the entry of a number promotes, and when.
fn promoted_at(entries: &[Entry], number: usize) -> Option<(u64, u64)>
    ensures { result ≡ promotes (slice_get entries.now number) }
{
    match entries.get(number)? {
        Entry::Promotion { waiter, start, .. } => Some((*waiter, *start)),
        Entry::Call { .. } => None,
    }
}
