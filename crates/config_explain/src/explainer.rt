// What explains configurations.
ghost use Rattle.std.specs.Prelude.{◌≡◌, IfOk, string_bytes};
ghost use Rattle.counted_io.specs.Count.{raised_by_err};
ghost use Rattle.config_explain.specs.Explained.{IsExplained};
ghost use Rattle.config_explain.specs.Lacking.{lacked_by};

use crate::explain::explanation;
use std::alloc::{AllocError, Global};

/// What explains configurations, with how often it had no memory for the words, up to the greatest
/// u64. Only an explanation that can't be had raises that.
#[derive(Drop)]
pub struct Explainer {
    alloc: Global,
    lacked: u64,
}

impl Explainer {
    /// Nothing was lacking yet.
    pub fn new(alloc: Global) -> Explainer
        ensures { lacked_by result ≡ 0 }
    {
        Explainer { alloc, lacked: 0 }
    }

    /// What is said of a configuration, a line or more: of one without fault also how it fits into
    /// this number of exchanges at once, where one is given. It fails only out of memory.
    pub fn explain(&mut self, bytes: &[u8], exchanges: Option<u32>) -> Result<String, AllocError>
        // Of a key at fault: which table of its array has it, its path, and what it was judged by.
        ensures words { IfOk result (λ words. IsExplained bytes.now (string_bytes words)) }
        ensures lacked { lacked_by self.new ≡ raised_by_err result (lacked_by self.old) }
    {
        let words = explanation(self.alloc, bytes, exchanges);
        if words.is_err() {
            self.lacked = self.lacked.saturating_add(1);
        }
        words
    }
}
