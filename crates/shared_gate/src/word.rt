// The word beside a gate's lock.
use gate_history::Entry;

/// The word beside a gate's lock, before any thread shares it: the log of a gate of which nothing
/// was asked. Contracts see the name of its table.
pub type LogLength = gate_word::LogLength<Entry>;
