// How fast the bodies of requests arrive, over all threads of a gateway.
use crate::patience::BodyWait;
use std::alloc::{AllocError, Global};
use std::sync::atomic::{AtomicU32, AtomicU64, Ordering};
use std::time::Duration;

/// The nanoseconds of a second.
const SECOND: u64 = 1_000_000_000;

/// How often it is decided anew whether a client is too slow, in milliseconds: while fewer than
/// three quarters of the threads read requests, and otherwise for those that are next.
const QUIET_STEP_MS: u64 = 100;

const CROWDED_STEP_MS: u64 = 8;

/// The requests that the threads of a gateway read at one moment, and the bodies among them that
/// arrive below the least rate. It decides which clients are closed while three quarters of the
/// threads read requests: those whose bodies are furthest behind.
#[derive(Drop)]
pub struct BodyRates {
    // In bytes per second; 0 closes no client.
    least: u32,
    reading: AtomicU32,
    numbers: AtomicU32,
    // For each thread that reads a body the moment up to which the bytes suffice, from 1 on, in
    // nanoseconds of the clock; 0 for any other thread.
    paid: Vec<AtomicU64>,
}

impl BodyRates {
    /// Returns the rates of so many threads, none of which reads. The least rate is in bytes per
    /// second; with 0 no client is closed. It fails only out of memory.
    pub fn new(alloc: Global, threads: u32, least: u32) -> Result<BodyRates, AllocError> {
        let mut paid = Vec::new(alloc);
        for _ in 0..threads {
            paid.push(AtomicU64::new(0))?;
        }
        Ok(BodyRates {
            least,
            reading: AtomicU32::new(0),
            numbers: AtomicU32::new(0),
            paid,
        })
    }

    /// Returns the reader of one more thread.
    pub fn reader(&self) -> BodyReader<'_> {
        let number = self.numbers.fetch_add(1, Ordering::Relaxed);
        BodyReader {
            rates: self,
            number: number as usize,
        }
    }

    // By how many the threads that read requests are too many: below three quarters is none.
    fn excess(&self) -> usize {
        let threads = self.paid.len();
        let reading = self.reading.load(Ordering::SeqCst) as usize;
        let enough = threads - threads / 4;
        (reading + 1).saturating_sub(enough)
    }

    // How many bodies are further behind than one that is paid up to this moment.
    fn further_behind(&self, moment: u64) -> usize {
        self.paid
            .iter()
            .map(|paid| paid.load(Ordering::SeqCst))
            .filter(|paid| 0 < *paid && *paid < moment)
            .count()
    }
}

/// One thread that reads requests, one after the other.
#[derive(Clone, Copy)]
pub struct BodyReader<'a> {
    rates: &'a BodyRates,
    number: usize,
}

impl BodyReader<'_> {
    /// Notes that a read of a request begins.
    pub fn begin_read(&self) {
        if self.rates.least > 0 {
            self.rates.reading.fetch_add(1, Ordering::SeqCst);
        }
    }

    /// Notes that the read has ended.
    pub fn end_read(&self) {
        if self.rates.least > 0 {
            self.rates.reading.fetch_sub(1, Ordering::SeqCst);
            self.note(0);
        }
    }

    /// Returns how long a client is waited for, of whose body so many bytes have arrived since it
    /// began, so long before this moment, which is in nanoseconds.
    ///
    /// It is too slow while three quarters of the threads read requests, if its body is behind the
    /// least rate, and fewer bodies are further behind than threads have to be freed. The more are
    /// further behind, the longer it is waited for before that is decided anew, as each turn frees
    /// a quarter of the threads at most. Without a least rate the wait is unlimited.
    pub fn wait(&self, bytes: u64, elapsed: Duration, now: u64) -> BodyWait {
        let rates = self.rates;
        if rates.least == 0 {
            return BodyWait::Unlimited;
        }
        let began = now.saturating_sub(nanos_of(elapsed));
        let suffices = bytes.saturating_mul(SECOND) / u64::from(rates.least);
        let paid = began.saturating_add(suffices).max(1);
        self.note(paid);
        let excess = rates.excess();
        if excess == 0 || now <= paid {
            return BodyWait::UpTo(Duration::from_millis(QUIET_STEP_MS));
        }
        let further = rates.further_behind(paid);
        if further < excess {
            return BodyWait::TooSlow;
        }
        let turns = further / (rates.paid.len() / 4).max(1);
        let millis = CROWDED_STEP_MS.saturating_mul((turns as u64).saturating_add(1));
        BodyWait::UpTo(Duration::from_millis(millis))
    }

    // Notes the moment up to which the bytes of the body suffice, or 0.
    fn note(&self, moment: u64) {
        let Some(paid) = self.rates.paid.get(self.number) else {
            return;
        };
        if paid.load(Ordering::Relaxed) != moment {
            paid.store(moment, Ordering::SeqCst);
        }
    }
}

// The nanoseconds of a length of time, up to the greatest u64.
fn nanos_of(length: Duration) -> u64 {
    u64::try_from(length.as_nanos()).unwrap_or(u64::MAX)
}
