// Calls without a receipt.
ghost use Rattle.std.specs.Prelude.{◌≡◌, List, length, MatchOption};
ghost use Rattle.gate_ledgers.specs.Receipt.{Told};
ghost use Rattle.audit.specs.Firsts.{EachHas, IsFirstWithout};
ghost use Rattle.limiter_core.specs.History.{is_call};
ghost use Rattle.audit.specs.Receipts.{IsCovered};
ghost use Rattle.audit.specs.Marks.{AreNamed};

use limiter_core::Entry;

/// The number of the first call without a receipt, by the marks of the receipts.
pub(crate) fn first_uncovered(entries: &[Entry], named: &[bool]) -> Option<usize>
    requires { length named.now ≡ length entries.now }
    ensures { (receipts : List Told) → AreNamed (length entries.now) receipts named.now
        → MatchOption result (EachHas (IsCovered receipts) entries.now)
        (λ number. IsFirstWithout (IsCovered receipts) entries.now number) }
{
    for (number, entry) in entries.iter().enumerate() {
        if is_call(entry) && !named[number] {
            return Some(number);
        }
    }
    None
}

/// The entry is a call.
fn is_call(entry: &Entry) -> bool
    ensures { result ≡ is_call entry.now }
{
    matches!(entry, Entry::Call { .. })
}
