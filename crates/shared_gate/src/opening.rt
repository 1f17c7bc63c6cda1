// A gate with its passes.
ghost use Rattle.std.specs.Prelude.{◌≡◌, ◌+◌, IfOk, OnOk, replicate, vec_len};
ghost use Rattle.gate_journal.specs.Journal.{next_number};
ghost use Rattle.shared_gate.specs.Calls.{pass_of};
ghost use Rattle.shared_gate.specs.Log.{CallsLegal};

use crate::gate::SharedGate;
use crate::naming::GateNaming;
use crate::pass::Pass;
use crate::word::LogLength;
use gate_history::Book;
use limit_laws::Limit;
use std::alloc::{AllocError, Global};

impl<L: Limit, M: GateNaming> SharedGate<L, M> {
    /// A gate over a book of which nothing was asked and that gave no pass, with so many passes,
    /// which are all that the book gives. No call was made by any of them, and none knows of an
    /// entry. A book that isn't sealed gives a million in all; where it gives fewer than are asked
    /// for, that is out of memory too.
    pub fn open(
        alloc: Global,
        word: LogLength,
        mut book: Book<L, M>,
        count: usize,
    ) -> Result<(SharedGate<L, M>, Vec<Pass<M>>), AllocError>
        requires word { word ≡ M.word }
        requires unasked { next_number book.journal ≡ 0 }
        requires unused { book.tally.passes ≡ 0 }
        requires passes { count ≡ M.passes }
        requires legal { CallsLegal L.rules book.journal M.legal }
        ensures all { IfOk result (λ made. vec_len made.1 ≡ count) }
        ensures passes { IfOk result (λ made.
            made.1.items ≡ replicate count (pass_of 0)) }
    {
        let passes = make_passes(alloc, &mut book, count)?;
        book.seal();
        let (gate, passes) = SharedGate::new(alloc, word, book, passes)?;
        Ok((gate, passes))
    }
}

/// So many passes of a book that gives them. No step is made.
fn make_passes<L: Limit, M: GateNaming>(
    alloc: Global,
    book: &mut Book<L, M>,
    count: usize,
) -> Result<Vec<gate_history::BookPass<M>>, AllocError>
    ensures passes { IfOk result (λ passes. passes.items ≡ replicate count 0) }
    ensures journal { OnOk result (book.new.journal ≡ book.old.journal) }
    ensures few { OnOk result (book.new.tally.passes ≡ book.old.tally.passes + count) }
{
    let mut passes = Vec::with_capacity(alloc, count)?;
    for _ in 0..count {
        let Some(pass) = book.pass() else {
            return Err(AllocError);
        };
        passes.push_reserved(pass);
    }
    Ok(passes)
}
