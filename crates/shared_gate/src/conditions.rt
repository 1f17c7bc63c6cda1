// Conditions at which threads wait by number.
ghost use Rattle.std.specs.Prelude.{◌≡◌, ◌<◌, ◌%◌, vec_len};

use std::alloc::{AllocError, Global};
use std::sync::{Condvar, MutexGuard, Wait};
use std::time::{Clock, Duration};

/// How many conditions there are.
const CONDITIONS: usize = 1_024;

/// 1,024 conditions of one lock. A thread waits at the condition of its number, so a wake for one
/// number reaches only the threads whose numbers differ from it by a multiple of 1,024.
#[derive(Drop)]
pub(crate) struct NumberedConditions {
    conditions: Vec<Condvar>,
    ghost all: { vec_len conditions ≡ 1024 },
}

impl NumberedConditions {
    /// Returns the conditions, at which no thread waits. Fails if there is no memory for them.
    pub(crate) fn new(alloc: Global) -> Result<NumberedConditions, AllocError> {
        let mut conditions = Vec::with_capacity(alloc, CONDITIONS)?;
        for _ in 0..CONDITIONS {
            conditions.push_reserved(Condvar::new());
        }
        Ok(NumberedConditions { conditions })
    }

    /// Returns the place of a number's condition: one place for the thread that waits and for the
    /// thread that wakes it.
    fn place(&self, number: u64) -> usize
        ensures within { result < vec_len self.now.conditions }
        ensures same { result ≡ number % 1024 }
    {
        (number % CONDITIONS as u64) as usize
    }

    /// Releases the lock, waits at the condition of this number until a wake, for at most `most`,
    /// and takes the lock again. The wait may also end early.
    pub(crate) fn wait<'b, R: Wait + Clock, T>(
        &self,
        rt: &R,
        guard: MutexGuard<'b, T>,
        number: u64,
        most: Duration,
    ) -> MutexGuard<'b, T> {
        self.conditions[self.place(number)]
            .wait_timeout(rt, guard, most)
            .0
    }

    /// Wakes the threads that wait at the condition of this number.
    pub(crate) fn wake(&self, number: u64) {
        self.conditions[self.place(number)].notify_all();
    }
}
