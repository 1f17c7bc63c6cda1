// The audit of a gate that is closed.
ghost use Rattle.std.specs.Prelude.{◌≡◌, ◌≤◌, All, IfOk, IfErr, vec_len};
ghost use mathlib.Core.List.{IsPrefix};
ghost use Rattle.audit.specs.Accepted.{IsHistoryOf};
ghost use Rattle.audit.specs.Verdict.{audited, IsFirstCause};
ghost use Rattle.gate_history.specs.Book.{calls_of};
ghost use Rattle.shared_gate.specs.Closing.{HaveOwnCalls, IsEndOf, IsKept, calls_by};

use crate::naming::GateNaming;
use crate::pass::Pass;
use crate::sealed::Sealed;
use audit::{Calls, Cause, verdict};
use gate_history::{Book, Entry, History, Naming, Receipt};
use gate_word::{Keeper, SharedLogLength};
use limit_laws::Limit;
use std::alloc::Global;

/// Why a gate's audit fails, with what was audited.
#[derive(Drop)]
pub struct AuditFault<L: Limit, M: Naming> {
    /// The first cause that applies.
    pub cause: Cause,
    /// The gate's history.
    pub history: History<L>,
    /// The lists of receipts, as they were handed in.
    pub kept: Vec<Vec<Receipt<M>>>,
}

/// The calls by all passes of a book, and by these, each of which knew a beginning of the log.
pub(crate) fn count_calls<L: Limit, M: GateNaming>(
    book: &mut Book<L, M>,
    word: &SharedLogLength<Entry>,
    keeper: &mut Keeper<Entry>,
    passes: Vec<Pass<M>>,
) -> Calls
    requires word { word.now ≡ M.word }
    requires keeper { keeper.old.table ≡ M.word }
    ensures book { result.book ≡ book.old.tally.calls }
    ensures sum { result.sum ≡ calls_by passes.items }
    ensures enough { result.sum ≤ result.book }
    ensures all { vec_len passes ≡ book.old.tally.passes → result.sum ≡ result.book }
    ensures begun { All (λ pass. IsPrefix pass.log keeper.old.log) passes.items }
    ensures once { HaveOwnCalls passes.items }
    ensures same { book.new ≡ book.old }
    ensures table { keeper.new.table ≡ keeper.old.table }
    ensures log { keeper.new.log ≡ keeper.old.log }
{
    let mut returned = book.none_returned();
    for pass in passes {
        let Pass {
            pass,
            reader,
            seen: _,
        } = pass;
        word.take_back(keeper, reader);
        book.take_back(&mut returned, pass);
    }
    Calls {
        book: book.calls(),
        sum: returned.count(),
    }
}

/// The history of what lay under a lock, where it is that of the calls of just these receipts.
pub(crate) fn judge<L: Limit, M: GateNaming>(
    alloc: Global,
    sealed: Sealed<L, M>,
    calls: Calls,
    kept: Vec<Vec<Receipt<M>>>,
) -> Result<History<L>, AuditFault<L, M>>
    requires book { calls.book ≡ calls_of sealed }
    ensures whole { IfOk result (λ history. history.base ≡ 0) }
    ensures legal { IfOk result (λ history. IsKept L.rules M.making
        history.opening.standing history.base history.entries.items) }
    ensures log { IfOk result (λ history. history.entries.items ≡ sealed) }
    ensures counted { IfOk result (λ history. calls.sum ≡ calls_of history.entries.items) }
    ensures accepted { IfOk result (λ history.
        IsHistoryOf history.entries.items kept.items) }
    ensures end { IfErr result (λ fault. IsEndOf L.rules M.making
        sealed fault.history.base fault.history.entries.items) }
    ensures first { IfErr result (λ fault. IsFirstCause
        (audited (record { book = calls_of sealed; sum = calls.sum })
        fault.history.base fault.history.entries.items fault.kept.items) fault.cause) }
    ensures history { IfErr result (λ fault. IsKept L.rules M.making
        fault.history.opening.standing fault.history.base fault.history.entries.items) }
    ensures kept { IfErr result (λ fault. fault.kept ≡ kept) }
{
    let Sealed { book, keeper: _ } = sealed;
    book.invariant();
    let history = book.into_journal().into_history();
    match verdict(alloc, calls, history.base, &history.entries, &kept) {
        None => Ok(history),
        Some(cause) => Err(AuditFault {
            cause,
            history,
            kept,
        }),
    }
}
