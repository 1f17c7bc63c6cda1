// What a limit by AIMD is made of.

/// The least part of a limit that a drop may leave, in thousandths.
pub(crate) const LEAST_RATIO: u32 = 500;

/// The greatest.
pub(crate) const GREATEST_RATIO: u32 = 999;

/// The numbers of an [`Aimd`](crate::Aimd), whichever they are. Limits are in permits.
#[derive(Clone, Copy)]
pub struct AimdNumbers {
    /// The least limit: 1 or more.
    pub lo: u32,
    /// The limit to begin with.
    pub first: u32,
    /// The greatest limit: 10,000 or less.
    pub hi: u32,
    /// What a drop leaves of a limit: 500 to 999.
    pub ratio_thousandths: u32,
    /// The longest round trip that is no drop: 1 ns to one hour.
    pub timeout_ns: u64,
}

/// The usual ones, as a configuration has them which names none.
pub const USUAL: AimdNumbers = AimdNumbers {
    lo: 1,
    first: 20,
    hi: 200,
    ratio_thousandths: 900,
    timeout_ns: 5_000_000_000,
};
