// The versions of a configuration.

/// A version of the configuration, which says how the shares of classes are written, and which keys
/// and kinds of limit there are.
#[derive(Clone, Copy)]
pub enum Version {
    /// Shares in percent, at `class.percent`.
    One,
    /// Shares in thousandths, at `class.share`. It also has optional keys that version 1 lacks, and
    /// each of them is off unless it is written.
    Two,
}
