// What windows are made of.

/// The samples at which a window ends, however short it is: the greatest size, too.
pub const MOST_SAMPLES: u32 = 1_000_000;

/// The numbers of windows over a limit, whichever they are.
#[derive(Clone, Copy)]
pub struct WindowNumbers {
    /// How many samples a window must have to be handed on: 1 to [`MOST_SAMPLES`].
    pub size: u32,
    /// How long a window lasts at least: 1 ns or more.
    pub min_window_ns: u64,
    /// How long it lasts at most: one hour or less.
    pub max_window_ns: u64,
    /// The least round trip that counts: one hour or less.
    pub min_rtt_ns: u64,
}
