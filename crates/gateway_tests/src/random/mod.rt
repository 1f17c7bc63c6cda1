// Calls that four threads draw at random, and events that a limiter over plain lists answers too.
mod compared_tests;
mod dice;
mod drawn_events;
mod four_threads_tests;
mod plain_counters;
mod plain_limiter;
mod random_calls;

pub(crate) use four_threads_tests::told_by_four;
