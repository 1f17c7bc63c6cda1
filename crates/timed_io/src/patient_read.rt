// Clients that are slow to send a request.
ghost use Rattle.std.specs.Prelude.{◌≡◌, ◌≤◌};
ghost use Rattle.std.specs.Duration.{as_nanos};
ghost use Rattle.std.specs.Io.{ReadsAtMost};
ghost use Rattle.std.specs.Io.KnownBytes.{ReadConsumes};
ghost use Rattle.timed_io.specs.Timed.{patient_in};

use crate::head_end::HeadEnd;
use crate::patience::{BodyWait, Patience};
use crate::reading::LimitedRead;
use std::io::{ErrorKind, Result};
use std::time::Duration;

/// Behind the time that nobody is denied, for how long at a time, in milliseconds.
const STEP_MS: u64 = 100;

/// The same where others are kept waiting: what has come is still read.
const LAST_STEP_MS: u64 = 1;

/// How many waits a read may take: each is a step at least, or the last. Behind them it waits for
/// what is left at once.
const MOST_TURNS: u32 = 1 << 24;

/// A reader of a client that may be slow to send its request. Until the head is whole it is waited
/// for as long as nobody is denied, as far as the reads are allowed to wait, and longer for as long
/// as the patience lasts; where it is at its end, a read that has to wait fails. Once the head is
/// whole, a read of the body fails if the patience finds that it arrives too slowly.
#[derive(Drop)]
pub struct PatientRead<'p, R, P> {
    inner: R,
    patience: &'p P,
    // How long the first read was allowed to wait: from then on each has what is left of that.
    allowed: Option<Duration>,
    head: HeadEnd,
    // The same of the first read of the body.
    body_allowed: Option<Duration>,
    // How many bytes of the body have arrived.
    body_bytes: u64,
}

impl<'p, R: LimitedRead, P: Patience> PatientRead<'p, R, P> {
    /// A reader of which nothing has come yet.
    pub fn new(inner: R, patience: &'p P) -> PatientRead<'p, R, P>
        ensures { patient_in result ≡ inner }
    {
        PatientRead {
            inner,
            patience,
            allowed: None,
            head: HeadEnd::new(),
            body_allowed: None,
            body_bytes: 0,
        }
    }

    /// The reader inside, by value.
    pub fn into_inner(self) -> R
        ensures { result ≡ patient_in self.entry }
    {
        let PatientRead {
            inner,
            patience: _,
            allowed: _,
            head: _,
            body_allowed: _,
            body_bytes: _,
        } = self;
        inner
    }

    // How long the next wait is, behind so long, of so long that is left: up to the time that
    // nobody is denied, and then a step. Which of the two is less is had by what is left behind it.
    fn step(&self, waited: Duration, left: Duration) -> Duration
        ensures { as_nanos result ≤ as_nanos left }
    {
        let least = self.patience.least();
        let next = if waited < least {
            least.saturating_sub(waited)
        } else if self.patience.may_wait() {
            Duration::from_millis(STEP_MS)
        } else {
            Duration::from_millis(LAST_STEP_MS)
        };
        left.saturating_sub(left.saturating_sub(next))
    }

    // Whether it was waited for long enough, and others are kept waiting.
    fn is_let_go(&self, waited: Duration) -> bool {
        self.patience.least() <= waited && !self.patience.may_wait()
    }

    // What came of a read.
    fn note(&mut self, outcome: &Result<usize>, buf: &[u8])
        ensures { patient_in self.new ≡ patient_in self.old }
    {
        if let Ok(count) = outcome {
            if let Some(bytes) = buf.get(..*count) {
                let behind = self.head.pass(bytes) as u64;
                self.body_bytes = self.body_bytes.saturating_add(behind);
            }
        }
    }

    // A read while the head isn't whole.
    #[tactic(auto, using(crate::proofs::KnownBytes::anew))]
    fn read_head(&mut self, most: Duration, buf: &mut [u8]) -> Result<usize>
        ensures bound { ReadsAtMost result buf.new }
        ensures bytes { ReadConsumes (R.remaining (patient_in self.old))
            (R.remaining (patient_in self.new)) result buf.new }
        ensures allowed { R.allowed (patient_in self.new) ≤ as_nanos most }
    {
        let allowed = self.allowed.unwrap_or(most);
        self.allowed = Some(allowed);
        let mut left = most;
        for _ in 0..MOST_TURNS {
            let step = self.step(allowed.saturating_sub(left), left);
            match self.inner.read_within(step, buf) {
                Err(fault) if fault.kind() == ErrorKind::WouldBlock && step < left => {
                    left = left.saturating_sub(step);
                    if self.is_let_go(allowed.saturating_sub(left)) {
                        return Err(fault);
                    }
                }
                outcome => {
                    self.note(&outcome, buf);
                    return outcome;
                }
            }
        }
        self.inner.read_within(left, buf)
    }

    // A read of the body, in turns until bytes arrive. If it arrives too slowly, what has come is
    // still read.
    #[tactic(auto, using(crate::proofs::KnownBytes::anew))]
    fn read_body(&mut self, most: Duration, buf: &mut [u8]) -> Result<usize>
        ensures bound { ReadsAtMost result buf.new }
        ensures bytes { ReadConsumes (R.remaining (patient_in self.old))
            (R.remaining (patient_in self.new)) result buf.new }
        ensures allowed { R.allowed (patient_in self.new) ≤ as_nanos most }
    {
        let allowed = self.body_allowed.unwrap_or(most);
        self.body_allowed = Some(allowed);
        let mut left = most;
        for _ in 0..MOST_TURNS {
            let elapsed = allowed.saturating_sub(left);
            let wait = self.patience.wait_for_body(self.body_bytes, elapsed);
            let next = left.saturating_sub(left.saturating_sub(turn_of(wait)));
            match self.inner.read_within(next, buf) {
                Err(fault) if fault.kind() == ErrorKind::WouldBlock && next < left => {
                    if let BodyWait::TooSlow = wait {
                        return Err(fault);
                    }
                    left = left.saturating_sub(next);
                }
                outcome => {
                    self.note(&outcome, buf);
                    return outcome;
                }
            }
        }
        self.inner.read_within(left, buf)
    }
}

// How long the next turn of a read of the body waits at most.
fn turn_of(wait: BodyWait) -> Duration {
    match wait {
        BodyWait::Unlimited => Duration::MAX,
        BodyWait::UpTo(most) => most,
        BodyWait::TooSlow => Duration::from_millis(LAST_STEP_MS),
    }
}

impl<'p, R: LimitedRead, P: Patience> LimitedRead for PatientRead<'p, R, P> {
    ghost use Rattle.timed_io.specs.Timed.{patient_in};

    ghost remaining = { λ reader. R.remaining (patient_in reader) };

    ghost allowed = { λ reader. R.allowed (patient_in reader) };

    fn read_within(&mut self, most: Duration, buf: &mut [u8]) -> Result<usize> {
        self.patience.begin_read();
        let outcome = if self.head.is_whole() {
            self.read_body(most, buf)
        } else {
            self.read_head(most, buf)
        };
        self.patience.end_read();
        outcome
    }
}
