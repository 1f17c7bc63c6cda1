// What hears of exchanges.
use crate::told::ExchangeSummary;
use gate_port::Report;
use partitions::PartitionTable;
use seats::ClientConnections;
use std::io::Error;

/// What hears of exchanges and of the gate that they ask, from each thread that carries them out.
pub trait Watch {
    /// A client was accepted: the worker whose thread this is serves it now. It tells the moment,
    /// in nanoseconds.
    fn accepted(&self) -> u64;

    /// That worker's exchange has ended, whose client was accepted at this moment: its connection
    /// is closed or waits for its next request, and the worker is free for another client.
    fn ended(&self, exchange: &ExchangeSummary, since: u64);

    /// Whether a worker is free for another client at this moment.
    fn has_free_worker(&self) -> bool;

    /// A connection couldn't be accepted, for this cause.
    fn unaccepted(&self, error: &Error);

    /// The state of the gate, over these classes, and how many clients wait to be served.
    fn report(&self, table: &PartitionTable, report: &Report, clients: &ClientConnections);
}
