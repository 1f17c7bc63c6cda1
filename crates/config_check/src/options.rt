// What is asked of a configuration.

/// What is asked of a configuration.
#[derive(Clone, Copy)]
pub struct CheckOptions {
    /// Whether an explanation comes first.
    pub explain: bool,
    /// How many exchanges at once it has to fit into, where a number is given.
    pub exchanges: Option<u32>,
}
