// When the callers of a load give up, by a clock of the test's own.
use crate::checks::check;
use counted_io::Counted;
use load_run::load_with;
use shared_gate::Clock;
use std::alloc::Global;
use std::io::{Read, Result as IoResult};
use std::sync::Wait;
use std::thread::Threads;
use std::time::Clock as SystemClock;
use tasks::Spawner;

/// A clock that stands at 10 seconds.
#[derive(Drop)]
struct Stands {}

impl Clock for Stands {
    fn now(&self) -> u64 {
        10_000_000_000
    }
}

/// One permit, and who waits for it does so for five seconds.
const HEAD: &[u8] = b"limit fixed 1\ntimeout 5000000000\n";

const ARRIVAL: &[u8] = b"arrive unknown 0 1 success wait\n";

/// Gives the head of a trace, and then so many arrivals, a line in a read.
#[derive(Drop)]
struct Arrivals {
    is_begun: bool,
    left: u64,
}

impl Read for Arrivals {
    fn read(&mut self, buf: &mut [u8]) -> IoResult<usize> {
        let line = if !self.is_begun {
            self.is_begun = true;
            HEAD
        } else if self.left > 0 {
            self.left -= 1;
            ARRIVAL
        } else {
            b""
        };
        let count = line.len().min(buf.len());
        buf[..count].copy_from_slice(&line[..count]);
        Ok(count)
    }
}

/// What is written of 20,000 arrivals by four workers.
fn crowded<R: Threads + Wait + SystemClock + Sync>(rt: &R, alloc: Global) -> Vec<u8> {
    let mut written = Vec::new(alloc);
    let mut reader = Counted::new(Arrivals {
        is_begun: false,
        left: 20_000,
    });
    let mut writer = Counted::new(&mut written);
    let mut spawner = Spawner::new(rt);
    let clock = Stands {};
    let _answer = load_with(
        rt,
        &mut spawner,
        alloc,
        &mut reader,
        &mut writer,
        1,
        4,
        &clock,
    );
    written
}

/// Nobody timed out, by the counters.
fn is_in_time(written: &[u8]) -> bool {
    match str::from_utf8(written) {
        Ok(text) => text.contains(" timed-out 0 success 20000 "),
        Err(_) => false,
    }
}

// Whoever had its deadline from the program's start, or from its arrival's moment, would find it
// reached as it begins to wait.
#[test]
fn a_deadline_is_reckoned_from_the_clock(rt: HostRuntime) {
    check(&rt, is_in_time(&crowded(&rt, rt.alloc())));
}
