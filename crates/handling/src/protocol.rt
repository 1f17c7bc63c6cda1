// How a client is treated behind its request.
ghost use Rattle.std.specs.Prelude.{◌≡◌};

/// Decides what becomes of a client, by what its request came to. A type that implements it has no
/// values: it only names the protocol.
pub trait Protocol<T> {
    ghost use Rattle.std.specs.Prelude.{Bool};

    // Whether some clients are kept.
    ghost keeps_some: { Bool };

    // Whether a client is kept, by what its request came to.
    ghost kept: { T → Bool };

    // What a request came to, once it is told whether all that was written was sent.
    ghost told_sent: { Bool → T → T };

    /// Returns whether some clients are kept for another request.
    fn keeps_clients() -> bool
        ensures { result ≡ keeps_some };

    /// Returns whether the client is kept whose request came to this.
    fn is_kept(told: &T) -> bool
        ensures { result ≡ kept told.now };

    /// Returns the same, which is told whether all that was written to the client was sent.
    fn with_sent(told: T, is_sent: bool) -> T
        ensures { result ≡ told_sent is_sent told };

    /// Returns whether the client has an answer to read, as far as is known.
    fn is_answered(told: &T) -> bool;

    /// Returns whether the client's request was read whole.
    fn is_read(told: &T) -> bool;
}
