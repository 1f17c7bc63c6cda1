// Lists whose numbers don't rise.
ghost use Rattle.std.specs.Prelude.{◌≡◌, ◌↔◌, length, slice_get, slice_index_or};
ghost use Rattle.std.specs.Prelude.{IsTrue, MatchOption};
ghost use Rattle.audit.specs.Firsts.{EachHas, IsFirstWithout, AllPlacesHave, IsFirstPlaceWithout};
ghost use Rattle.audit.specs.Receipts.{IsInOrder, IsInOrderIn};

use crate::cause::ReceiptPlace;
use gate_ledgers::{Naming, Receipt};

/// The first receipt whose number isn't above that of the one before it in its list.
pub(crate) fn first_unordered<N: Naming>(kept: &[Vec<Receipt<N>>]) -> Option<ReceiptPlace>
    ensures { MatchOption result (AllPlacesHave IsInOrderIn kept.now)
        (λ at. IsFirstPlaceWithout IsInOrderIn kept.now at.list at.place) }
{
    for (list, receipts) in kept.iter().enumerate() {
        if let Some(place) = first_unordered_in(receipts) {
            return Some(ReceiptPlace { list, place });
        }
    }
    None
}

/// The first receipt of a list whose number isn't above that of the one before it.
fn first_unordered_in<N: Naming>(receipts: &[Receipt<N>]) -> Option<usize>
    ensures { MatchOption result (EachHas (IsInOrder receipts.now) receipts.now)
        (λ place. IsFirstWithout (IsInOrder receipts.now) receipts.now place) }
{
    for place in 1..receipts.len() {
        if receipts[place].number() <= receipts[place - 1].number() {
            return Some(place);
        }
    }
    None
}
