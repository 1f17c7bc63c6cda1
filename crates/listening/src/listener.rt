// Where connections come from.
ghost use Rattle.std.specs.Prelude.{◌≡◌, [], false, true, Some, IfOk, IfSome, OnErr};
ghost use Rattle.timed_io.specs.Client.{from_of, to_of};
ghost use Rattle.client_tokens.specs.Roll.{Comes, Goes, Joins, Roll, Stays, nobody};
ghost use Rattle.listening.specs.Seen.{seen_at};

use seats::{ClientConnections, Places};
use std::alloc::{AllocError, Global};
use std::io::Result;
use std::time::{Clock, Duration};
use timed_io::{ClientEnds, Connection, Inlet, Outlet};

/// A client who came. It can't be copied, and it is let go only by [`close`](Self::close), which
/// needs a connection that may be dropped: generic code can't let one go.
pub struct AcceptedClient<S, F, T> {
    /// Its connection.
    pub stream: S,
    /// Whether it was served before, and kept: this is not its first request.
    pub is_kept: bool,
    /// The two ends of it.
    pub ends: ClientEnds<F, T>,
}

impl<S: Drop, F: Drop, T: Drop> AcceptedClient<S, F, T> {
    /// Closes its connection.
    pub fn close(self) {
        let AcceptedClient {
            stream: _,
            is_kept: _,
            ends: _,
        } = self;
    }
}

/// Where connections come from. Several threads may ask it at once, each by a token of its own.
pub trait Listener {
    /// A client's connection, which is closed where its value ends. Whoever may do that says so by
    /// a bound of his own: nobody else lets a client go.
    type Stream: Connection;

    /// The end of it that is read.
    type From: Inlet<Self::Stream> + Drop;

    /// The end of it that is written.
    type To: Outlet<Self::Stream> + Drop;

    /// The right to be given clients, of one of those who share it. It can't be copied, and counts
    /// who was given by it, and who was left. Only the listener makes one.
    type Token: Drop;

    ghost use Rattle.std.specs.Prelude.{ℕ, Bool, List, Option};
    ghost use Rattle.client_tokens.specs.Roll.{Roll};

    // A client came there who would send these bytes, where they are known.
    ghost came: { Self → Option (List ℕ) → Type 0 };

    // It was found open, or closed.
    ghost found: { Self → Bool → Type 0 };

    // Who was given by a token of it, and who was left by that, where it is known.
    ghost roll: { Self → Self.Token → Option Roll };

    // Just these were given and left in all, since nobody is given any more.
    ghost gave: { Self → Roll → Type 0 };

    // It can't tell whom it gave in all.
    ghost lost: { Self → Type 0 };

    /// One token more, by which nobody was given yet.
    fn token(&self) -> Self::Token
        ensures { IfSome (roll self.now result) (λ rolled. rolled ≡ nobody) };

    /// Waits for the next new client, to whom nothing was written yet; the fault is the system's,
    /// where there was none to be had. Once it is closed, nobody waits. Nobody is kept where this
    /// is asked: who was, is let go. A token of another listener, and any token once it was told
    /// who was given in all, gives nobody.
    fn accept(
        &self,
        token: &mut Self::Token,
    ) -> Result<AcceptedClient<Self::Stream, Self::From, Self::To>>
        ensures came { IfOk result (λ client.
            came self.now (Self.From.remaining (from_of client.ends))) }
        ensures unwritten { IfOk result (λ client.
            IfSome (Self.To.contents (to_of client.ends)) (λ written. written ≡ [])) }
        ensures given { IfOk result (λ client. Comes (roll self.now token.old)
            (roll self.now token.new)
            (seen_at Self.From.remaining Self.To.contents client.ends)) }
        ensures missed { OnErr result (Stays (roll self.now token.old) (roll self.now token.new)) };

    /// Waits for the next client, a new one as [`accept`](Self::accept) does, or one who is kept
    /// and has sent something.
    fn next(
        &self,
        token: &mut Self::Token,
    ) -> Result<AcceptedClient<Self::Stream, Self::From, Self::To>>
        ensures came { IfOk result (λ client.
            came self.now (Self.From.remaining (from_of client.ends))) }
        ensures unwritten { IfOk result (λ client. client.is_kept ≡ false
            → IfSome (Self.To.contents (to_of client.ends)) (λ written. written ≡ [])) }
        ensures given { IfOk result (λ client. Comes (roll self.now token.old)
            (roll self.now token.new)
            (seen_at Self.From.remaining Self.To.contents client.ends)) }
        ensures missed { OnErr result (Stays (roll self.now token.old) (roll self.now token.new)) };

    /// Has a client who was served wait for its next request, as long as a kept one may; it is let
    /// go where it can't: without places, once this is closed, or where there is no memory.
    fn keep(
        &self,
        token: &mut Self::Token,
        client: AcceptedClient<Self::Stream, Self::From, Self::To>,
    )
        ensures { Goes (roll self.now token.old) (roll self.now token.new)
            (seen_at Self.From.remaining Self.To.contents client.ends) };

    /// Lets a client go who was served: its connection is closed.
    fn let_go(
        &self,
        token: &mut Self::Token,
        client: AcceptedClient<Self::Stream, Self::From, Self::To>,
    )
        ensures { Goes (roll self.now token.old) (roll self.now token.new)
            (seen_at Self.From.remaining Self.To.contents client.ends) };

    /// Puts another token into one: who was given and left by it comes behind its own.
    fn join(&self, token: &mut Self::Token, other: Self::Token)
        ensures { Joins (roll self.now token.old) (roll self.now other)
            (roll self.now token.new) };

    /// Whether just those were given and left in all who were by this token: all others that there
    /// were are put into it, and each client who was given was left. From then on nobody is given
    /// any more.
    fn gave_all(&self, all: Self::Token) -> bool
        ensures all { result ≡ true → (rolled : Roll) × (roll self.now all ≡ Some rolled)
            × gave self.now rolled }
        ensures lost { result ≡ false → lost self.now };

    /// Whether a client who is served now may be kept: there are places, and it wasn't closed.
    fn keeps(&self) -> bool;

    /// How many connections of clients wait, and what became of those that there were.
    fn connections(&self) -> ClientConnections;

    /// From now on so many may wait beside those who are served, who have sent nothing or are kept,
    /// each for so long; where all places are taken, who has waited longest goes. Without places
    /// each client is given as it comes, and nobody is kept. It fails only out of memory, and takes
    /// all that the places need.
    fn offer_places(&self, alloc: Global, places: Places) -> std::result::Result<(), AllocError>;

    /// From now on the system ends the connections of those who come, where for so long nothing is
    /// taken of what was sent to them.
    fn end_untaken(&self, most: Duration);

    /// Whether connections may still come: it hasn't been closed. Where it has been, one that waits
    /// may still be had.
    fn is_open(&self) -> bool
        ensures { found self.now result };
}

/// A listener that may be closed: whoever has it as a [`Listener`] alone can't do that.
pub trait Closable: Listener {
    // It was closed for good.
    ghost closed: { Self → Type 0 };

    /// Closes it for good, with all who wait in `accept`. Connections that wait are still accepted,
    /// for so long at most; it returns once there are none, and whoever connects then is refused.
    /// Who has sent nothing for a while is let go, and so is who is kept and sends nothing.
    fn close<R: Clock>(&self, rt: &R, most: Duration)
        ensures { closed self.now };
}
