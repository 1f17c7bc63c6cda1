// The verdict.
ghost use Rattle.std.specs.Prelude.{IfOk, IfNone, IfSome, MatchOption};
ghost use Rattle.audit.specs.Accepted.{IsHistoryOf};
ghost use Rattle.audit.specs.Marks.{AreFresh};
ghost use Rattle.audit.specs.Verdict.{audited, NoneApplies, IsFirstCause};

use crate::cause::{Cause, ReceiptPlace};
use crate::cover::first_uncovered;
use crate::matching::{first_endings, first_unmatched};
use crate::order::first_unordered;
use crate::strange::first_strange;
use gate_ledgers::{Naming, Receipt};
use limiter_core::Entry;
use std::alloc::{AllocError, Global};

/// How many calls were made by passes.
#[derive(Clone, Copy)]
pub struct Calls {
    /// By all passes of the gate, as its book has it.
    pub book: u64,
    /// By the passes that were handed in.
    pub sum: u64,
}

/// The marks of an audit, one of each kind for each entry.
#[derive(Drop)]
struct Marks {
    named: Vec<bool>,
    owed: Vec<bool>,
    endings: Vec<usize>,
}

/// The first cause why these are not the receipts of just the calls of this history, each once and
/// each list in order, or why the history is not matched; `None` where none applies.
///
/// `base` is the number of the first entry of `entries`. It takes memory for three marks an entry,
/// before it looks at anything else, and goes over the receipts twice and over the entries three
/// times. [`Cause::Memory`] where that memory runs out.
pub fn verdict<N: Naming>(
    alloc: Global,
    calls: Calls,
    base: u64,
    entries: &[Entry],
    kept: &[Vec<Receipt<N>>],
) -> Option<Cause>
    ensures none { IfNone result (NoneApplies (audited calls base entries.now kept.now)) }
    ensures first { IfSome result (IsFirstCause (audited calls base entries.now kept.now)) }
    ensures accepted { IfNone result (IsHistoryOf entries.now kept.now) }
{
    match fresh_marks(alloc, entries) {
        Ok(marks) => first_cause(calls, base, entries, kept, marks),
        Err(_) => Some(Cause::Memory),
    }
}

/// Marks for these entries, before anything is looked at.
fn fresh_marks(alloc: Global, entries: &[Entry]) -> Result<Marks, AllocError>
    ensures { IfOk result (λ marks.
        AreFresh entries.now marks.named.items marks.owed.items marks.endings.items) }
{
    let named = vec![in alloc; false; entries.len()]?;
    let owed = vec![in alloc; false; entries.len()]?;
    let endings = first_endings(alloc, entries)?;
    Ok(Marks {
        named,
        owed,
        endings,
    })
}

/// The first cause that applies, with fresh marks.
fn first_cause<N: Naming>(
    calls: Calls,
    base: u64,
    entries: &[Entry],
    kept: &[Vec<Receipt<N>>],
    marks: Marks,
) -> Option<Cause>
    requires { AreFresh entries.now marks.named.items marks.owed.items marks.endings.items }
    ensures { MatchOption result (NoneApplies (audited calls base entries.now kept.now))
        (IsFirstCause (audited calls base entries.now kept.now)) }
{
    let Marks {
        mut named,
        mut owed,
        endings,
    } = marks;
    if calls.book != calls.sum {
        return Some(Cause::PassesMissing {
            book: calls.book,
            sum: calls.sum,
        });
    }
    if base > 0 {
        return Some(Cause::Rolled { base });
    }
    if let Some(ReceiptPlace { list, place }) = first_strange(entries, kept, &mut named) {
        return Some(Cause::Strange { list, place });
    }
    if let Some(ReceiptPlace { list, place }) = first_unordered(kept) {
        return Some(Cause::Order { list, place });
    }
    if let Some(number) = first_uncovered(entries, &named) {
        return Some(Cause::Uncovered {
            number: number as u64,
        });
    }
    if let Some(number) = first_unmatched(entries, &endings, &mut owed) {
        return Some(Cause::Unmatched {
            number: number as u64,
        });
    }
    None
}
