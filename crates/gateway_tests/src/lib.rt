//! Tests by public calls, of what no script can ask the program.
//!
//! Of a gate: its book, calls through the lock by worked rows and by four threads at random, what a
//! pass has seen, when each of a thousand waiters is woken, how it is closed, a port over it, and
//! the windows of its limit. Of exchanges: ends that fail once or from a call on, what a backend
//! answers, two workers at one gate, and what is left in a book of one thread. Of loads by a clock
//! of their own; of shares and their copies; and of flushes, and of the time of a connection. What
//! clients, backends and operators see, the scripts of `tests/` try by the program.
//!
//! They are one crate, since each crate of tests reads and links all code below it.
#![tactic(auto)]

#[cfg(test)]
mod answer_tests;
#[cfg(test)]
mod body_tests;
#[cfg(test)]
mod book_tests;
#[cfg(test)]
mod books;
#[cfg(test)]
mod callers;
#[cfg(test)]
mod checks;
#[cfg(test)]
mod closing;
#[cfg(test)]
mod crowd_tests;
#[cfg(test)]
mod devices;
#[cfg(test)]
mod entries;
#[cfg(test)]
mod exchanged;
#[cfg(test)]
mod flushing_tests;
#[cfg(test)]
mod gates;
#[cfg(test)]
mod limits;
#[cfg(test)]
mod load;
#[cfg(test)]
mod looking_tests;
#[cfg(test)]
mod once_tests;
#[cfg(test)]
mod port_tests;
#[cfg(test)]
mod random;
#[cfg(test)]
mod rolling_tests;
#[cfg(test)]
mod seen_tests;
#[cfg(test)]
mod share_tests;
#[cfg(test)]
mod shared_gate_tests;
#[cfg(test)]
mod solo_tests;
#[cfg(test)]
mod test_clocks;
#[cfg(test)]
mod timed_io_tests;
#[cfg(test)]
mod waiting_tests;
#[cfg(test)]
mod window_tests;
#[cfg(test)]
mod worker_tests;
