// A backend.
ghost use Rattle.std.specs.Prelude.{◌≡◌, ℕ};
ghost use Rattle.counted_io.specs.Count.{raised};
ghost use Rattle.wire.specs.Forwards.{Logs, Sends};

use crate::answer::BackendAnswer;
use message_parts::Request;

/// A server behind the gateway. It counts the requests that it was given.
pub trait Backend {
    ghost use Rattle.std.specs.Prelude.{Option, List};
    ghost use Rattle.wire.specs.Forwards.{Forwarded};

    // How many requests it was given.
    ghost forwarded: { Self → ℕ };

    // What it was given and what it answered, in order, where it shows that.
    ghost shown: { Self → Option (List Forwarded) };

    // All bytes that were written to it, where it shows them.
    ghost written: { Self → Option (List ℕ) };

    // The host of a request that names none.
    ghost host: { Self → List ℕ };

    /// Gives it the request once, and waits for its answer. Nothing is written but a beginning of
    /// the text of that request: all of it, where the fault is one of the answer's, and nothing
    /// where there was no connection.
    fn forward(&mut self, request: &Request) -> BackendAnswer
        ensures count { forwarded self.new ≡ raised (forwarded self.old) }
        ensures log { Logs (shown self.old) (shown self.new) request.now result }
        ensures written { Sends (host self.old) (written self.old) (written self.new)
            request.now result }
        ensures host { host self.new ≡ host self.old };

    /// Lets go of what the last request left, as a connection whose answer was read. It is called
    /// once the client was answered, so that nobody waits for it. Nothing is given to the backend.
    fn leave(&mut self)
        ensures count { forwarded self.new ≡ forwarded self.old }
        ensures log { shown self.new ≡ shown self.old }
        ensures written { written self.new ≡ written self.old }
        ensures host { host self.new ≡ host self.old };

    /// How many requests it was given; the count stays at `u64::MAX`.
    fn forwards(&self) -> u64
        ensures { result ≡ forwarded self.now };
}
