// Whoever made a call.
use timed_io::Connection;

/// Whoever made a call, and may wait for its answer.
pub trait Caller {
    ghost use Rattle.std.specs.Prelude.{Bool};

    // What it may tell of whether it has left.
    ghost tells: { Self → Bool → Type 0 };

    /// Whether it has left: nobody waits for an answer.
    fn has_left(&self) -> bool
        ensures { tells self.now result };
}

/// The other side of a connection, behind a request that was read from it.
#[derive(Drop)]
pub(crate) struct Peer<'s, S> {
    pub(crate) stream: &'s S,
}

impl<S: Connection> Caller for Peer<'_, S> {
    ghost use Rattle.std.specs.Prelude.{⊤};

    ghost tells = { λ _ _. ⊤ };

    fn has_left(&self) -> bool {
        self.stream.has_left()
    }
}
