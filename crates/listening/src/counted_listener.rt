// A listener whose accepts are counted.
ghost use Rattle.std.specs.Prelude.{◌≡◌, ◌&&◌, [], false, is_ok, if◌then◌else◌};
ghost use Rattle.std.specs.Prelude.{IfOk, IfSome, OnErr};
ghost use Rattle.counted_io.specs.Count.{raised, raised_by_err};
ghost use Rattle.timed_io.specs.Client.{from_of, to_of};
ghost use Rattle.listening.specs.Accepted.{accepted_of, kept_of, listener_of, missed_of, token_of};
ghost use Rattle.client_tokens.specs.Roll.{Comes, Goes, Stays, nobody};
ghost use Rattle.listening.specs.Seen.{seen_at};

use crate::listener::{AcceptedClient, Listener};
use std::io::Result;

/// A listener, as one of those has it who share it: by a token of its own, with which each of its
/// accepts is counted, and each client who is left there. A count stays at its greatest value.
#[derive(Drop)]
pub struct CountedListener<'a, L, K> {
    listener: &'a L,
    token: K,
    accepted: u64,
    missed: u64,
    kept: u64,
}

impl<'a, L, K> CountedListener<'a, L, K> {
    /// Its token, which tells who was given by it and left.
    pub fn into_token(self) -> K
        ensures { result ≡ token_of self.entry }
    {
        let CountedListener {
            listener: _,
            token,
            accepted: _,
            missed: _,
            kept: _,
        } = self;
        token
    }
}

impl<'a, L: Listener> CountedListener<'a, L, L::Token> {
    /// Nobody was asked for yet.
    pub fn new(listener: &'a L) -> CountedListener<'a, L, L::Token>
        ensures listener { listener_of result ≡ listener.now }
        ensures accepted { accepted_of result ≡ 0 }
        ensures missed { missed_of result ≡ 0 }
        ensures kept { kept_of result ≡ 0 }
        ensures rolled { IfSome (L.roll listener.now (token_of result))
            (λ rolled. rolled ≡ nobody) }
    {
        CountedListener {
            listener,
            token: listener.token(),
            accepted: 0,
            missed: 0,
            kept: 0,
        }
    }

    /// Waits for the next client: a new one, to whom nothing was written yet, or, if it may be one
    /// who was kept, either of them, whichever comes first.
    pub fn next(&mut self, may_be_kept: bool) -> Result<AcceptedClient<L::Stream, L::From, L::To>>
        ensures listener { listener_of self.new ≡ listener_of self.old }
        ensures accepted { accepted_of self.new
            ≡ (if is_ok result then raised (accepted_of self.old) else accepted_of self.old) }
        ensures missed { missed_of self.new ≡ raised_by_err result (missed_of self.old) }
        ensures kept { kept_of self.new ≡ kept_of self.old }
        ensures came { IfOk result (λ client.
            L.came (listener_of self.old) (L.From.remaining (from_of client.ends))) }
        ensures unwritten { IfOk result (λ client. (may_be_kept && client.is_kept) ≡ false
            → IfSome (L.To.contents (to_of client.ends)) (λ written. written ≡ [])) }
        ensures given { IfOk result (λ client. Comes
            (L.roll (listener_of self.old) (token_of self.old))
            (L.roll (listener_of self.old) (token_of self.new))
            (seen_at L.From.remaining L.To.contents client.ends)) }
        ensures none { OnErr result (Stays (L.roll (listener_of self.old) (token_of self.old))
            (L.roll (listener_of self.old) (token_of self.new))) }
    {
        let outcome = if may_be_kept {
            self.listener.next(&mut self.token)
        } else {
            self.listener.accept(&mut self.token)
        };
        match &outcome {
            Ok(_) => self.accepted = self.accepted.saturating_add(1),
            Err(_) => self.missed = self.missed.saturating_add(1),
        }
        outcome
    }

    /// Has a client wait for its next request.
    pub fn keep(&mut self, client: AcceptedClient<L::Stream, L::From, L::To>)
        ensures listener { listener_of self.new ≡ listener_of self.old }
        ensures accepted { accepted_of self.new ≡ accepted_of self.old }
        ensures missed { missed_of self.new ≡ missed_of self.old }
        ensures kept { kept_of self.new ≡ raised (kept_of self.old) }
        ensures left { Goes (L.roll (listener_of self.old) (token_of self.old))
            (L.roll (listener_of self.old) (token_of self.new))
            (seen_at L.From.remaining L.To.contents client.ends) }
    {
        self.listener.keep(&mut self.token, client);
        self.kept = self.kept.saturating_add(1);
    }

    /// Lets a client go.
    pub fn let_go(&mut self, client: AcceptedClient<L::Stream, L::From, L::To>)
        ensures listener { listener_of self.new ≡ listener_of self.old }
        ensures accepted { accepted_of self.new ≡ accepted_of self.old }
        ensures missed { missed_of self.new ≡ missed_of self.old }
        ensures kept { kept_of self.new ≡ kept_of self.old }
        ensures left { Goes (L.roll (listener_of self.old) (token_of self.old))
            (L.roll (listener_of self.old) (token_of self.new))
            (seen_at L.From.remaining L.To.contents client.ends) }
    {
        self.listener.let_go(&mut self.token, client);
    }

    /// Whether a client who is served now may be kept.
    pub fn keeps(&self) -> bool {
        self.listener.keeps()
    }

    /// Whether connections may still come.
    pub fn is_open(&self) -> bool
        ensures { L.found (listener_of self.now) result }
    {
        self.listener.is_open()
    }
}
