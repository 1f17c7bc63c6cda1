// The run of a trace.
ghost use Rattle.std.specs.Prelude.{◌≡◌, ◌≤◌, ◌*◌, ◌++◌, [], length, string_bytes};
ghost use Rattle.std.specs.Prelude.{IfOk, OnOk};
ghost use Rattle.gate_journal.specs.Journal.{Journal};
ghost use Rattle.load_driver.specs.Replay.{IfEvent};
ghost use Rattle.load_driver.specs.Session.{open_in};
ghost use Rattle.load_driver.specs.Stretches.{IsOpen, StandsFor};
ghost use Rattle.virtual_time.specs.Course.{asked_of, limiter_of, journal_with, reply_of};
ghost use Rattle.virtual_time.specs.Course.{step_of, IsRun};

use super::action::{Action, Kind, Step};
use super::calendar::Calendar;
use super::pending::left;
use limit_laws::Limit;
use limiter_core::{Entry, Event, Reply};
use load_driver::{Session, SessionCall, answer, read_end};
use std::alloc::{AllocError, Global};
use trace::Arrival;

/// What is asked to do an action.
fn asked_of<L: Limit>(session: &Session<L>, arrival: &Arrival, action: Action) -> SessionCall
    ensures asked { result ≡ asked_of (open_in session.now) arrival.now action }
    ensures named { IfEvent result (IsOpen (open_in session.now)) }
{
    match action.kind {
        Kind::Arriving => SessionCall::Event(Event::Acquire {
            part: arrival.part,
            bypass: arrival.bypass,
            wait: arrival.wait,
            now: action.moment,
        }),
        Kind::GivingUp => SessionCall::Event(Event::GiveUp {
            number: action.number,
        }),
        Kind::Ending => read_end(session, action.number, arrival.outcome, action.moment),
    }
}

/// The reply among the entries of an answer.
fn reply_of(told: &[Entry]) -> Option<Reply>
    ensures { result ≡ reply_of told.now }
{
    match told.first() {
        Some(Entry::Call { reply, .. }) => Some(*reply),
        _ => None,
    }
}

/// Does an action of an arrival, adds its entries to those so far, and what is written
/// of them to the text.
fn carry_out<L: Limit>(
    session: &mut Session<L>,
    text: &mut String,
    entries: &mut Vec<Entry>,
    arrival: &Arrival,
    action: Action,
) -> Result<Step, AllocError>
    ensures stands { OnOk result ((j : Journal L) →
        StandsFor L.rules (journal_with j entries.old.items) session.old →
        StandsFor L.rules (journal_with j entries.new.items) session.new) }
    ensures entries { OnOk result ((j : Journal L) →
        StandsFor L.rules (journal_with j entries.old.items) session.old → entries.new.items
        ≡ entries.old.items
        ++ (limiter_of L.rules j entries.old.items arrival.now action).told) }
    ensures text { OnOk result ((j : Journal L) →
        StandsFor L.rules (journal_with j entries.old.items) session.old → string_bytes text.new
        ≡ string_bytes text.old
        ++ (limiter_of L.rules j entries.old.items arrival.now action).out) }
    ensures step { IfOk result (λ step. (j : Journal L) →
        StandsFor L.rules (journal_with j entries.old.items) session.old → step
        ≡ step_of action entries.old.items
        (limiter_of L.rules j entries.old.items arrival.now action).told) }
{
    let first = entries.as_slice().len();
    let asked = asked_of(session, arrival, action);
    let added = answer(session, text, asked)?;
    let told = session.told(added);
    let reply = reply_of(told);
    entries.extend_from_slice(told)?;
    Ok(Step {
        action,
        first: first as u64,
        reply,
    })
}

/// Carries out the actions of a trace, each after those before it, and says what is written.
///
/// Of the session nothing was asked yet. An arrival that waits gives up after `timeout`, in
/// nanoseconds.
pub(crate) fn run<L: Limit>(
    alloc: Global,
    session: &mut Session<L>,
    arrivals: &[Arrival],
    timeout: u64,
) -> Result<String, AllocError>
    requires none { session.old.journal.entries ≡ [] }
    requires own { StandsFor L.rules session.old.journal session.old }
    ensures { IfOk result (λ text. IsRun (limiter_of L.rules session.old.journal) arrivals.now
        timeout (string_bytes text)) }
{
    let mut calendar = Calendar::new(alloc, arrivals)?;
    let mut entries = Vec::new(alloc);
    let mut text = String::new(alloc);
    while let Some(action) = calendar.next(&entries) {
        let arrival = &arrivals[action.place];
        let step = carry_out(session, &mut text, &mut entries, arrival, action)?;
        calendar.join(left(timeout, arrival, step))?;
    }
    Ok(text)
}
