// How far an answer was passed on.
ghost use Rattle.std.specs.Prelude.{◌≡◌};
ghost use Rattle.counted_io.specs.Counted.{calls_of};
ghost use Rattle.answer_streaming.specs.Progress.{outcome_in, progress, reads_in, writes_in};

use counted_io::Counted;
use limiter_core::Outcome;

/// How far an answer was passed on as the clock was looked at.
///
/// Only this crate makes one, of the reader and the writer as they are then, and it can't be
/// copied. So a look that knows it came after so many reads and writes.
#[derive(Drop)]
pub struct Progress {
    // How many reads were made of the backend.
    reads: u64,
    // How many writes and flushes were made to the client.
    writes: u64,
    // The outcome of the permit that is ended at this look.
    outcome: Option<Outcome>,
}

impl Progress {
    /// Returns how far an answer was passed on by now, and the outcome of its permit if that is
    /// ended now.
    pub(crate) fn now<R, W>(
        reader: &Counted<R>,
        writer: &Counted<W>,
        outcome: Option<Outcome>,
    ) -> Progress
        ensures { result ≡ progress (calls_of reader.now) (calls_of writer.now) outcome }
    {
        Progress {
            reads: reader.calls(),
            writes: writer.calls(),
            outcome,
        }
    }

    /// Returns how many reads were made of the backend; the count stays at `u64::MAX`.
    pub fn reads(&self) -> u64
        ensures { result ≡ reads_in self.now }
    {
        self.reads
    }

    /// Returns how many writes and flushes were made to the client; the count stays at `u64::MAX`.
    pub fn writes(&self) -> u64
        ensures { result ≡ writes_in self.now }
    {
        self.writes
    }

    /// Returns the outcome of the permit that was ended at this look, if one was.
    pub fn outcome(&self) -> Option<Outcome>
        ensures { result ≡ outcome_in self.now }
    {
        self.outcome
    }
}
