// Receipts that are of no call, or of one that an earlier receipt names.
ghost use Rattle.std.specs.Prelude.{◌≡◌, ◌++◌, ◌<◌, ◌↔◌, ◌∷◌, [], ℕ, List, length};
ghost use Rattle.std.specs.Prelude.{IsTrue, MatchOption, IfNone};
ghost use Rattle.std.specs.Bool.{OnTrue};
ghost use Rattle.limiter_core.specs.declared.event.Entry.TheVariants.{Call};
ghost use Rattle.gate_ledgers.specs.Receipt.{Told};
ghost use Rattle.audit.specs.Firsts.{EachHas, IsFirstWithout, AllPlacesHave, IsFirstPlaceWithout};
ghost use Rattle.audit.specs.Receipts.{IsOfCall, Stands, StandsAfter, StandsIn, all_kept};
ghost use Rattle.audit.specs.Marks.{AreNamed};

use crate::cause::ReceiptPlace;
use crate::equal::{same_event, same_reply};
use gate_ledgers::{Naming, Receipt};
use limiter_core::Entry;

/// The first receipt that doesn't stand. Where all do, the marks are at the numbers that they name.
pub(crate) fn first_strange<N: Naming>(
    entries: &[Entry],
    kept: &[Vec<Receipt<N>>],
    named: &mut [bool],
) -> Option<ReceiptPlace>
    requires long { length named.old ≡ length entries.now }
    requires unmarked { AreNamed (length entries.now) [] named.old }
    ensures first { MatchOption result (AllPlacesHave (StandsIn entries.now kept.now) kept.now)
        (λ at. IsFirstPlaceWithout (StandsIn entries.now kept.now) kept.now at.list at.place) }
    ensures marked { IfNone result (AreNamed (length entries.now) (all_kept kept.now) named.new) }
{
    for (list, receipts) in kept.iter().enumerate() {
        if let Some(place) = first_strange_in(entries, receipts, named) {
            return Some(ReceiptPlace { list, place });
        }
    }
    None
}

/// The first receipt of a list that doesn't stand, by the marks of those before the list.
fn first_strange_in<N: Naming>(
    entries: &[Entry],
    receipts: &[Receipt<N>],
    named: &mut [bool],
) -> Option<usize>
    requires { length named.old ≡ length entries.now }
    ensures first { (earlier : List Told) → AreNamed (length entries.now) earlier named.old
        → MatchOption result (EachHas (StandsAfter entries.now earlier receipts.now) receipts.now)
        (λ place.
        IsFirstWithout (StandsAfter entries.now earlier receipts.now) receipts.now place) }
    ensures marked { (earlier : List Told) → AreNamed (length entries.now) earlier named.old
        → IfNone result (AreNamed (length entries.now) (earlier ++ receipts.now) named.new) }
{
    for (place, receipt) in receipts.iter().enumerate() {
        if !mark_anew(entries, receipt, named) {
            return Some(place);
        }
    }
    None
}

/// Marks the number of a receipt that stands, and says whether it does.
fn mark_anew<N: Naming>(entries: &[Entry], receipt: &Receipt<N>, named: &mut [bool]) -> bool
    requires { length named.old ≡ length entries.now }
    ensures stands { (earlier : List Told) → AreNamed (length entries.now) earlier named.old
        → (IsTrue result ↔ Stands entries.now earlier receipt.now) }
    ensures marked { (earlier : List Told) → AreNamed (length entries.now) earlier named.old
        → OnTrue result (AreNamed (length entries.now) (earlier ++ receipt.now ∷ []) named.new) }
{
    let number = receipt.number() as usize;
    if !is_of_call(entries, receipt) || named[number] {
        return false;
    }
    named[number] = true;
    true
}

/// The entry of the receipt's number is a call, with the receipt's event and reply.
fn is_of_call<N: Naming>(entries: &[Entry], receipt: &Receipt<N>) -> bool
    ensures { IsTrue result ↔ IsOfCall entries.now receipt.now }
{
    let number = receipt.number() as usize;
    number < entries.len() && is_call_of(&entries[number], receipt)
}

/// The entry is a call with the receipt's event and reply.
fn is_call_of<N: Naming>(entry: &Entry, receipt: &Receipt<N>) -> bool
    ensures { IsTrue result ↔ (entry.now ≡ Call receipt.now.event receipt.now.reply) }
{
    match entry {
        Entry::Call { event, reply } => same_event(event, &receipt.event())
            && same_reply(reply, &receipt.reply()),
        Entry::Promotion { .. } => false,
    }
}
