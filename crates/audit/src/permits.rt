// Which permits the entries hand out and end.
ghost use Rattle.std.specs.Prelude.{◌≡◌, ◌↔◌, ℕ, Bool, Some, IsTrue};
ghost use Rattle.limiter_core.specs.declared.event.Event.TheVariants.{Acquire, Claim, GiveUp};
ghost use Rattle.limiter_core.specs.declared.event.Entry.TheVariants.{Call};
ghost use Rattle.limiter_core.specs.Open.{handed_out};
ghost use Rattle.audit.specs.Permits.{ended, is_lost};

use crate::equal::same_permit;
use limit_laws::LAST_MOMENT;
use limiter_core::{Entry, Event, PermitFacts, Reply};
use partitions::Part;

/// The permit that the entry of this number hands out.
pub(crate) fn handed_out(number: u64, entry: &Entry) -> Option<PermitFacts>
    ensures { result ≡ handed_out number entry.now }
{
    match entry {
        Entry::Call { event, reply } => handed_by(number, event, reply),
        Entry::Promotion { .. } => None,
    }
}

/// The permit that a call of this number hands out.
fn handed_by(number: u64, event: &Event, reply: &Reply) -> Option<PermitFacts>
    ensures { result ≡ handed_out number (Call event.now reply.now) }
{
    match event {
        Event::Acquire { part, now, .. } => admitted(number, *part, *now, reply),
        Event::Claim { number } | Event::GiveUp { number } => granted(*number, reply),
        _ => None,
    }
}

/// The permit that an acquire hands out.
fn admitted(number: u64, part: Part, now: u64, reply: &Reply) -> Option<PermitFacts>
    ensures { (bypass wait : Bool)
        → result ≡ handed_out number (Call (Acquire part bypass wait now) reply.now) }
{
    match reply {
        Reply::Admitted { inflight } => Some(PermitFacts {
            number,
            part,
            start: now.min(LAST_MOMENT),
            inflight: *inflight,
        }),
        _ => None,
    }
}

/// The permit that a claim or a giving up hands out.
fn granted(number: u64, reply: &Reply) -> Option<PermitFacts>
    ensures claim { (place : ℕ) → result ≡ handed_out place (Call (Claim number) reply.now) }
    ensures giving_up { (place : ℕ) → result ≡ handed_out place (Call (GiveUp number) reply.now) }
{
    match reply {
        Reply::Granted {
            part,
            start,
            inflight,
        } => Some(PermitFacts {
            number,
            part: *part,
            start: *start,
            inflight: *inflight,
        }),
        _ => None,
    }
}

/// The permit that an entry ends.
pub(crate) fn ended(entry: &Entry) -> Option<PermitFacts>
    ensures { result ≡ ended entry.now }
{
    match entry {
        Entry::Call {
            event: Event::End { permit, .. },
            ..
        } => Some(*permit),
        _ => None,
    }
}

/// The entry answers that a number is lost.
pub(crate) fn is_lost(entry: &Entry) -> bool
    ensures { result ≡ is_lost entry.now }
{
    matches!(
        entry,
        Entry::Call {
            reply: Reply::Lost,
            ..
        }
    )
}

/// The entry ends just this permit.
pub(crate) fn is_ending_of(entry: &Entry, permit: &PermitFacts) -> bool
    ensures { IsTrue result ↔ (ended entry.now ≡ Some permit.now) }
{
    match ended(entry) {
        Some(own) => same_permit(&own, permit),
        None => false,
    }
}
