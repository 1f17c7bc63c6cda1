// What a configuration says.
use crate::address::Address;
use crate::omitted::OmittedKeys;
use classifier::Rules;
use limit_kinds::AnyLimit;
use limiter_core::Promote;
use partitions::PartitionTable;

/// Everything that a gateway is told by its configuration.
#[derive(Drop)]
pub struct Settings {
    /// Where the gateway listens.
    pub listen: Address,
    /// Where it forwards to.
    pub backend: Address,
    /// How many callers may wait in all, up to 10,000: in everybody's places, as many as the key
    /// `backlog` says, and in the classes' own.
    pub backlog: u32,
    /// Whether a caller that finds no room may wait.
    pub wait: bool,
    /// The longest wait, in nanoseconds: a millisecond to an hour.
    pub timeout_ns: u64,
    /// How many idle client connections there may be, up to 10,000; with 0 none is kept for a
    /// further request.
    pub clients: u32,
    /// How long a kept client may be idle, in nanoseconds: up to an hour.
    pub client_idle_ns: u64,
    /// How many idle connections to the backend are kept, up to 4,096; with 0 none is.
    pub backends: u32,
    /// How long one of them may be idle and be used again, in nanoseconds: up to an hour.
    pub backend_idle_ns: u64,
    /// How many MiB all bodies may have together that are held, up to 1,048,576. It is a bound
    /// where it is written or made for a number of exchanges ([`Settings::bodies_bound`]).
    pub bodies_mib: u32,
    /// How many entries of the history are kept, from 1 to 1,000,000.
    pub keep: u32,
    /// Which waiters get the room that falls free.
    pub promote: Promote,
    /// The limit in its first state, over windows where the configuration has some.
    pub limit: AnyLimit,
    /// The classes of callers, their shares and their own places.
    pub table: PartitionTable,
    /// How a request's class is told.
    pub rules: Rules,
    /// Which of these numbers are defaults.
    pub omitted: OmittedKeys,
    /// The number of exchanges at once that the backlog and the limit were made for, where one was
    /// given.
    pub exchanges: Option<u32>,
}
