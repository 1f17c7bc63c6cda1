// Limits that learn.
use aimd::{AimdNumbers, USUAL};

/// AIMD between 1 and 5 permits, from 3 on.
pub(crate) const LEARNING: AimdNumbers = AimdNumbers {
    lo: 1,
    first: 3,
    hi: 5,
    timeout_ns: 1_000_000,
    ..USUAL
};
