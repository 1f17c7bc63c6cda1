// What explains lines at fault.
ghost use Rattle.std.specs.Prelude.{◌≡◌, IfOk, string_bytes};
ghost use Rattle.counted_io.specs.Count.{raised_by_err};
ghost use Rattle.line_explain.specs.Named.{IsExplained};
ghost use Rattle.line_explain.specs.Lacking.{lacked_by};

use crate::explain::explanation;
use script::{LineFault, TextKind};
use std::alloc::{AllocError, Global};

/// What explains lines at fault, with how often it had no memory for the words, up to the greatest
/// u64. Only an explanation that can't be had raises that.
#[derive(Drop)]
pub struct LineExplainer {
    alloc: Global,
    lacked: u64,
}

impl LineExplainer {
    /// Nothing was lacking yet.
    pub fn new(alloc: Global) -> LineExplainer
        ensures { lacked_by result ≡ 0 }
    {
        LineExplainer { alloc, lacked: 0 }
    }

    /// What is said of a line at fault, in a line: which of its words is wrong, and what is wanted
    /// there. Nothing where the text has no such line. It fails only out of memory.
    pub fn explain(
        &mut self,
        kind: TextKind,
        text: &[u8],
        fault: LineFault,
    ) -> Result<String, AllocError>
        ensures words { IfOk result (λ words.
            IsExplained kind text.now fault (string_bytes words)) }
        ensures lacked { lacked_by self.new ≡ raised_by_err result (lacked_by self.old) }
    {
        let words = explanation(self.alloc, kind, text, fault);
        if words.is_err() {
            self.lacked = self.lacked.saturating_add(1);
        }
        words
    }
}
