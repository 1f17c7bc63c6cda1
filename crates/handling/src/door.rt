// A door to a listener.
ghost use Rattle.std.specs.Prelude.{◌≡◌, ℕ, List, Option, None, true, false};
ghost use Rattle.std.specs.Prelude.{if◌then◌else◌, IfSome};
ghost use Rattle.counted_io.specs.Count.{raised};
ghost use Rattle.timed_io.specs.Client.{from_of, to_of};
ghost use Rattle.listening.specs.Accepted.{listener_of, token_of};
ghost use Rattle.listening.specs.Seen.{seen_at};
ghost use Rattle.client_tokens.specs.Roll.{Goes, nobody};
ghost use Rattle.handling.specs.Doors.{counted_in, failed_of, given_of, is_closed, left_at};
ghost use Rattle.handling.specs.Doors.{roll_at};
ghost use Rattle.handling.specs.Visits.{Leaves};

use crate::accepts::Accepts;
use crate::protocol::Protocol;
use crate::watch::ClientWatch;
use listening::{AcceptedClient, CountedListener, Listener};
use std::io::Result;

/// A thread's own door to a listener that several share, with a token of its own. It counts each
/// accept, and a watch hears of its clients. It shows no visits.
#[derive(Drop)]
pub struct Door<'a, L, K, N> {
    listener: CountedListener<'a, L, K>,
    watch: N,
    // When the watch was told of the client that is served.
    since: u64,
    closed: bool,
}

impl<'a, L: Listener, N> Door<'a, L, L::Token, N> {
    /// Returns a door to a listener at which nobody was given yet.
    pub fn new(listener: &'a L, watch: N) -> Door<'a, L, L::Token, N>
        ensures opens_to { listener_of (counted_in result) ≡ listener.now }
        ensures given { given_of result ≡ 0 }
        ensures failed { failed_of result ≡ 0 }
        ensures unclosed { is_closed result ≡ false }
        ensures unrolled { IfSome (roll_at L.roll result) (λ rolled. rolled ≡ nobody) }
    {
        let listener = CountedListener::new(listener);
        Door {
            listener,
            watch,
            since: 0,
            closed: false,
        }
    }
}

impl<'a, L, K, N: Drop> Door<'a, L, K, N> {
    /// Returns the token by which its clients came.
    pub fn into_token(self) -> K
        ensures { result ≡ token_of (counted_in self.entry) }
    {
        let Door {
            listener,
            watch: _,
            since: _,
            closed: _,
        } = self;
        listener.into_token()
    }
}

impl<'a, L: Listener, N: ClientWatch> Accepts for Door<'a, L, L::Token, N>
where
    L::Stream: Drop,
{
    type Stream = L::Stream;

    type From = L::From;

    type To = L::To;

    type Source = L;

    type Told = N::Told;

    type Protocol = N::Protocol;

    ghost use Rattle.std.specs.Prelude.{None, false};
    ghost use Rattle.listening.specs.Accepted.{listener_of};
    ghost use Rattle.handling.specs.Doors.{counted_in, failed_of, given_of, is_closed, left_at};
    ghost use Rattle.handling.specs.Doors.{roll_at};

    ghost source = { λ door. listener_of (counted_in door) };

    ghost given = { given_of };

    ghost failed = { failed_of };

    ghost kept = { left_at };

    ghost closed = { is_closed };

    ghost came = { λ door. L.came (listener_of (counted_in door)) };

    ghost visits = { λ _. None };

    ghost roll = { roll_at L.roll };

    ghost shut = { λ door. L.found (listener_of (counted_in door)) false };

    fn accept(&mut self) -> Result<AcceptedClient<L::Stream, L::From, L::To>> {
        let outcome = self.listener.next(N::Protocol::keeps_clients());
        match &outcome {
            Ok(_) => self.since = self.watch.accepted(),
            Err(error) => {
                self.closed = !self.listener.is_open();
                if !self.closed {
                    self.watch.unaccepted(error);
                }
            }
        }
        outcome
    }

    fn leave(&mut self, client: AcceptedClient<L::Stream, L::From, L::To>, told: N::Told)
        ensures given { given_of self.new ≡ given_of self.old }
        ensures failed { failed_of self.new ≡ failed_of self.old }
        ensures kept { left_at self.new
            ≡ (if N.Protocol.kept told then raised (left_at self.old) else left_at self.old) }
        ensures place { (sent : Option (List ℕ))
            → L.came (listener_of (counted_in self.new)) sent
            → L.came (listener_of (counted_in self.old)) sent }
        ensures left { Leaves N.Protocol.kept None None
            (record {
              sent = L.From.remaining (from_of client.ends);
              written = L.To.contents (to_of client.ends);
              is_kept = N.Protocol.kept told;
            })
            told }
        ensures gone { Goes (roll_at L.roll self.old) (roll_at L.roll self.new)
            (seen_at L.From.remaining L.To.contents client.ends) }
        ensures same_closed { is_closed self.new ≡ is_closed self.old }
        ensures same_shut { L.found (listener_of (counted_in self.new)) false
            → L.found (listener_of (counted_in self.old)) false }
        ensures source { listener_of (counted_in self.new) ≡ listener_of (counted_in self.old) }
    {
        if N::Protocol::is_kept(&told) {
            self.listener.keep(client);
        } else {
            self.listener.let_go(client);
        }
        self.watch.ended(told, self.since);
    }

    fn keeps(&self) -> bool {
        self.listener.keeps()
    }

    fn is_closed(&self) -> bool {
        self.closed
    }
}
