// How a thread comes to its clients.
ghost use Rattle.std.specs.Prelude.{◌≡◌, ◌&&◌, ℕ, List, [], Option, true, false, is_ok};
ghost use Rattle.std.specs.Prelude.{if◌then◌else◌, IfOk, IfSome, OnErr};
ghost use Rattle.counted_io.specs.Count.{raised, raised_by_err};
ghost use Rattle.timed_io.specs.Client.{from_of, to_of};
ghost use Rattle.listening.specs.Seen.{seen_at};
ghost use Rattle.client_tokens.specs.Roll.{Comes, Goes, Stays};
ghost use Rattle.handling.specs.Visits.{Arrives, Leaves, Misses};

use crate::protocol::Protocol;
use listening::AcceptedClient;
use std::io::Result;
use timed_io::{Connection, Inlet, Outlet};

/// One thread's own way to its clients: it counts them, tells who was given and left there, and may
/// show what it did. Nobody else lets a client go: only [`leave`](Accepts::leave) takes one, with
/// what its request came to.
pub trait Accepts {
    /// A client's connection, which whoever serves it can't let go.
    type Stream: Connection;

    /// The end of it that is read.
    type From: Inlet<Self::Stream>;

    /// The end of it that is written.
    type To: Outlet<Self::Stream>;

    /// Where they come from.
    type Source;

    /// What the request of a client came to.
    type Told;

    /// Decides by that whether the client is kept.
    type Protocol: Protocol<Self::Told>;

    ghost use Rattle.std.specs.Prelude.{ℕ, Bool, List, Option};
    ghost use Rattle.client_tokens.specs.Roll.{Roll};
    ghost use Rattle.handling.specs.Visits.{Visits};

    // Where its clients come from.
    ghost source: { Self → Self.Source };

    // How many accepts gave a client, and how many gave none.
    ghost given: { Self → ℕ };

    ghost failed: { Self → ℕ };

    // How many clients were left to wait for their next request.
    ghost kept: { Self → ℕ };

    // Whether it was found closed.
    ghost closed: { Self → Bool };

    // A client came there who would send these bytes, where they are known.
    ghost came: { Self → Option (List ℕ) → Type 0 };

    // Who is still to come and what happened so far, where that is shown.
    ghost visits: { Self → Option (Visits Self.Told) };

    // Who was given there and who was left, where that is known.
    ghost roll: { Self → Option Roll };

    // Where its clients come from was found closed.
    ghost shut: { Self → Type 0 };

    /// Waits for the next client: a new one, or, if the protocol keeps some, also one who was kept.
    fn accept(&mut self) -> Result<AcceptedClient<Self::Stream, Self::From, Self::To>>
        ensures given { given self.new
            ≡ (if is_ok result then raised (given self.old) else given self.old) }
        ensures failed { failed self.new ≡ raised_by_err result (failed self.old) }
        ensures kept { kept self.new ≡ kept self.old }
        ensures place { (sent : Option (List ℕ)) → came self.new sent → came self.old sent }
        ensures came { IfOk result (λ client.
            came self.old (Self.From.remaining (from_of client.ends))) }
        ensures arrived { IfOk result (λ client. Arrives (visits self.old) (visits self.new)
            (record {
              sent = Self.From.remaining (from_of client.ends);
              written = Self.To.contents (to_of client.ends);
              is_kept = client.is_kept;
            })) }
        ensures unwritten { IfOk result (λ client.
            (Self.Protocol.keeps_some && client.is_kept) ≡ false
            → IfSome (Self.To.contents (to_of client.ends)) (λ written. written ≡ [])) }
        ensures missed { OnErr result (Misses (visits self.old) (visits self.new)) }
        ensures rolled { IfOk result (λ client. Comes (roll self.old) (roll self.new)
            (seen_at Self.From.remaining Self.To.contents client.ends)) }
        ensures unrolled { OnErr result (Stays (roll self.old) (roll self.new)) }
        ensures open { IfOk result (λ _. closed self.new ≡ closed self.old) }
        ensures shut { OnErr result (closed self.new ≡ true → shut self.old) }
        ensures same_shut { shut self.new → shut self.old }
        ensures source { source self.new ≡ source self.old };

    /// Leaves the client whose request came to this: if the protocol keeps it, it waits for its
    /// next request, and otherwise its connection is closed.
    fn leave(
        &mut self,
        client: AcceptedClient<Self::Stream, Self::From, Self::To>,
        told: Self::Told,
    )
        ensures given { given self.new ≡ given self.old }
        ensures failed { failed self.new ≡ failed self.old }
        ensures kept { kept self.new
            ≡ (if Self.Protocol.kept told then raised (kept self.old) else kept self.old) }
        ensures place { (sent : Option (List ℕ)) → came self.new sent → came self.old sent }
        ensures left { Leaves Self.Protocol.kept (visits self.old) (visits self.new)
            (record {
              sent = Self.From.remaining (from_of client.ends);
              written = Self.To.contents (to_of client.ends);
              is_kept = Self.Protocol.kept told;
            })
            told }
        ensures gone { Goes (roll self.old) (roll self.new)
            (seen_at Self.From.remaining Self.To.contents client.ends) }
        ensures same_closed { closed self.new ≡ closed self.old }
        ensures same_shut { shut self.new → shut self.old }
        ensures source { source self.new ≡ source self.old };

    /// Returns whether a client who is served now may be kept.
    fn keeps(&self) -> bool;

    /// Returns whether it was found closed: nobody comes any more.
    fn is_closed(&self) -> bool
        ensures { result ≡ closed self.now };
}
