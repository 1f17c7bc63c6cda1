// Who may call a shared gate.
ghost use Rattle.std.specs.Prelude.{◌≡◌, [], IfOk, map};
ghost use Rattle.shared_gate.specs.Calls.{pass_of, seen_by};

use crate::naming::GateNaming;
use gate_history::Entry;
use gate_word::{Keeper, Reader, SharedLogLength};
use std::alloc::{AllocError, Global};
use std::marker::Model;

/// The right to call a shared gate. Contracts see how many calls were made by it, their numbers,
/// and the beginning of the gate's log that it knows, which is legal.
#[derive(Drop)]
pub struct Pass<M: GateNaming> {
    pub(crate) pass: gate_history::BookPass<M>,
    pub(crate) reader: Reader<Entry>,
    pub(crate) seen: u64,
}

impl<M: GateNaming> Model for Pass<M> {
    ghost use Rattle.std.specs.Prelude.{◌≡◌, length};
    ghost use Rattle.shared_gate.specs.Calls.{Pass};

    ghost Value = { Pass };

    ghost view = { λ p. record {
      count = p.pass;
      log = p.reader.log;
      own = p.reader.own;
    } };

    ghost invariant = { λ p. (p.reader.table ≡ M.word) × (p.seen ≡ length p.reader.log)
        × M.legal p.reader.log };
}

impl<M: GateNaming> Pass<M> {
    /// How many calls were made by it.
    pub fn count(&self) -> u64
        ensures { result ≡ self.now.count }
    {
        self.pass.count()
    }

    /// A number that is above those of all its receipts, and above those that it was told of. The
    /// receipts of its next calls have this number or greater ones.
    pub fn seen(&self) -> u64
        ensures { result ≡ seen_by self.now }
    {
        self.seen
    }

    /// What it knows of the gate's log is legal. The function does nothing: it is there for its
    /// contract.
    pub fn legal(&self)
        ensures { M.legal self.now.log }
    {
        let _ = &self.seen;
    }
}

/// The passes of a book, each with a reader who knows of no entry.
pub(crate) fn with_readers<M: GateNaming>(
    alloc: Global,
    word: &SharedLogLength<Entry>,
    keeper: &mut Keeper<Entry>,
    passes: Vec<gate_history::BookPass<M>>,
) -> Result<Vec<Pass<M>>, AllocError>
    requires word { word.now ≡ M.word }
    requires keeper { keeper.old.table ≡ M.word }
    requires empty { keeper.old.log ≡ [] }
    requires legal { M.legal [] }
    ensures keeper { keeper.new ≡ keeper.old }
    ensures passes { IfOk result (λ made. made.items ≡ map pass_of passes.items) }
{
    let mut made = Vec::with_capacity(alloc, passes.len())?;
    for pass in passes {
        let reader = word.reader(keeper);
        made.push_reserved(Pass {
            pass,
            reader,
            seen: 0,
        });
    }
    Ok(made)
}
