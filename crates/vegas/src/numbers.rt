// What a limit by Vegas is made of.

/// The greatest threshold of a queue, in permits.
pub(crate) const MOST_QUEUE: u32 = 100;

/// The most samples from probe to probe.
pub(crate) const MOST_PROBE: u32 = 1_000_000;

/// The numbers of a [`Vegas`](crate::Vegas), whichever they are. Limits and queues are in permits.
#[derive(Clone, Copy)]
pub struct VegasNumbers {
    /// The least limit: 1 or more.
    pub lo: u32,
    /// The limit to begin with.
    pub first: u32,
    /// The greatest limit: 10,000 or less.
    pub hi: u32,
    /// The least wanted queue: 1 or more.
    pub alpha: u32,
    /// The greatest wanted queue: 100 or less.
    pub beta: u32,
    /// How many samples come to a probe, 1,000,000 or fewer; 0 for no probes.
    pub probe_every: u32,
}

/// The usual ones, as a configuration has them which names none.
pub const USUAL: VegasNumbers = VegasNumbers {
    lo: 1,
    first: 20,
    hi: 200,
    alpha: 3,
    beta: 6,
    probe_every: 0,
};
