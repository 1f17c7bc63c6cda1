// Clients over TCP.
ghost use Rattle.client_tokens.specs.Roll.{Goes};
ghost use Rattle.client_tokens.specs.Tokens.{roll_on, unseen};

use crate::listener::{AcceptedClient, Closable, Listener};
use crate::opaque_end::OpaqueEnd;
use crate::room::{Came, Room};
use client_tokens::{BoundToken, TokensOut};
use libc::net::{POLLIN, SHUT_RD, listen, poll, shutdown};
use libc::types::pollfd;
use seats::{ClientConnections, Places};
use std::alloc::{AllocError, Global};
use std::io::{Error, ErrorKind, Result};
use std::net::{Net, SocketAddr, TcpListener, TcpStream};
use std::os::fd::{AsFd, AsRawFd, RawFd};
use std::sync::atomic::{AtomicBool, AtomicU64, Ordering};
use std::sync::{Mutex, Wait};
use std::thread;
use std::time::{Clock, Duration};
use timed_io::{ClientEnds, ask_after, end_untaken, send_at_once};

/// From one look for connections that wait to the next, in milliseconds.
const TURN_MS: u64 = 1;

/// For how long a closing listener takes whoever comes, in milliseconds, before it takes those
/// alone who wait.
const OPEN_TO_ALL_MS: u64 = 500;

/// For how long it waits for one who came and hasn't sent anything yet, in milliseconds.
const NEWCOMER_MS: u64 = 500;

/// How many are accepted before somebody is served.
const MOST_AT_ONCE: u32 = 64;

/// Clients over TCP. Where it has places, those who have sent nothing wait there, and are given to
/// nobody before they have sent something, or have left; and those who are kept, until they send
/// their next request.
#[derive(Drop)]
pub struct BoundListener<'r, R> {
    rt: &'r R,
    listener: TcpListener,
    room: Room<'r, R>,
    // How many were told of the listener since one of them began to accept.
    told: AtomicU64,
    // One who was accepted, but can't wait, while somebody else was to be served.
    unseated: Mutex<Option<TcpStream>>,
    tokens: TokensOut,
    open: AtomicBool,
    has_places: AtomicBool,
}

/// A client over TCP.
type Arrival = AcceptedClient<TcpStream, OpaqueEnd, OpaqueEnd>;

impl<'r, R: Net + Wait + Clock> BoundListener<'r, R> {
    /// Binds the address; the fault is the system's, mostly that another program has it. As many
    /// clients may wait to be accepted as the system allows, 4,096 by default; std's own number is
    /// 128, and a client that finds the queue full tries again a second later. The system asks
    /// after clients that are silent, ends the connections of those who are gone, and sends what is
    /// written to a client at once.
    pub fn bind(rt: &'r R, address: SocketAddr) -> Result<BoundListener<'r, R>> {
        let queue = mio::net::TcpListener::bind(rt, address)?;
        let listener = TcpListener::from(queue.as_fd().try_clone_to_owned()?);
        ask_after(&listener);
        send_at_once(&listener);
        let room = Room::new(rt, &listener)?;
        Ok(BoundListener {
            rt,
            listener,
            room,
            told: AtomicU64::new(0),
            unseated: Mutex::new(None),
            tokens: TokensOut::new(),
            open: AtomicBool::new(true),
            has_places: AtomicBool::new(false),
        })
    }

    // The next client, a new one or one who is kept, where this token is one of the listener.
    fn await_client(&self, token: &BoundToken) -> Result<Arrival> {
        if !token.is_of(self.listener.as_raw_fd()) {
            return Err(Error::from(ErrorKind::NotConnected));
        }
        for _ in self.rt.forever() {
            if let Some(client) = self.await_event()? {
                return Ok(client);
            }
        }
        Err(Error::from(ErrorKind::NotConnected))
    }

    // The next new client. Who was kept is let go.
    fn await_new(&self, token: &BoundToken) -> Result<Arrival> {
        for _ in self.rt.forever() {
            let client = self.await_client(token)?;
            if !client.is_kept {
                return Ok(client);
            }
            client.close();
        }
        Err(Error::from(ErrorKind::NotConnected))
    }

    // The next event, and the client that comes of it.
    fn await_event(&self) -> Result<Option<Arrival>> {
        let (came, is_kept) = match self.room.wait() {
            Came::Nothing => (self.unseated.lock(self.rt).take(), false),
            Came::New(stream) => (Some(stream), false),
            Came::Kept(stream) => (Some(stream), true),
            Came::Connection => (self.welcome()?, false),
        };
        match came {
            Some(stream) => Ok(Some(arrival_of(stream, is_kept))),
            None => Ok(None),
        }
    }

    // Accepts those who have come, as far as places are free, and one in any case. The first one
    // who has sent something is served now, and all others wait in the room: with one accept for
    // each event, a new client would wait for all who are busy once for each who came before it.
    // One at a time accepts; who is told meanwhile leaves it to that one, who looks again.
    fn welcome(&self) -> Result<Option<TcpStream>> {
        if self.told.fetch_add(1, Ordering::SeqCst) > 0 {
            return Ok(None);
        }
        let mut first = self.unseated.lock(self.rt).take();
        for _ in 0..MOST_AT_ONCE {
            let client = match self.listener.accept() {
                Ok((client, _)) => client,
                Err(fault) if fault.kind() == ErrorKind::WouldBlock => {
                    return self.end_welcome(first, None, false);
                }
                Err(fault) => return self.end_welcome(first, Some(fault), true),
            };
            if let Some(client) = self.room.admit(client, first.is_none()) {
                if first.is_some() {
                    *self.unseated.lock(self.rt) = Some(client);
                    break;
                }
                first = Some(client);
            }
            if !self.room.has_place() {
                break;
            }
        }
        self.end_welcome(first, None, true)
    }

    // Has those be told of who may still lie at the listener, which they may also where another one
    // was told meanwhile; and gives who is served now, or else the fault that there was.
    fn end_welcome(
        &self,
        first: Option<TcpStream>,
        fault: Option<Error>,
        may_lie: bool,
    ) -> Result<Option<TcpStream>> {
        let told = self.told.swap(0, Ordering::SeqCst);
        let watched = if may_lie || told > 1 {
            self.room.watch_listener(&self.listener)
        } else {
            Ok(())
        };
        if first.is_some() {
            return Ok(first);
        }
        if let Some(fault) = fault {
            return Err(fault);
        }
        watched?;
        Ok(None)
    }

    // Whether a connection waits to be accepted, or somebody who was accepted waits to be served,
    // or may be about to send its request.
    fn has_waiting(&self) -> bool {
        has_waiting(self.listener.as_raw_fd())
            || has_waiting(self.room.as_raw_fd())
            || self.unseated.lock(self.rt).is_some()
            || self.room.has_newcomer(Duration::from_millis(NEWCOMER_MS))
    }

    // Waits until nobody waits, until so long behind a moment at most, and tells whether nobody
    // does. Many short sleeps take longer than they are told to, so the clock is looked at; where
    // it fails, their number bounds the wait.
    fn await_empty<C: Clock>(&self, rt: &C, began: Option<Duration>, most: Duration) -> bool {
        for _ in 0..most.as_millis() / u128::from(TURN_MS) {
            if !self.has_waiting() {
                return true;
            }
            if has_passed(rt, began, most) {
                return false;
            }
            thread::sleep(rt, Duration::from_millis(TURN_MS));
        }
        false
    }
}

impl<'r, R: Net + Wait + Clock> Listener for BoundListener<'r, R> {
    type Stream = TcpStream;

    type From = OpaqueEnd;

    type To = OpaqueEnd;

    type Token = BoundToken;

    ghost use Rattle.std.specs.Prelude.{⊤};
    ghost use Rattle.client_tokens.specs.Tokens.{roll_on};

    ghost came = { λ _ _. ⊤ };

    ghost found = { λ _ _. ⊤ };

    ghost roll = { λ _ token. roll_on token };

    ghost gave = { λ _ _. ⊤ };

    ghost lost = { λ _. ⊤ };

    fn token(&self) -> BoundToken {
        self.tokens.give(self.rt, self.listener.as_raw_fd())
    }

    fn accept(&self, token: &mut BoundToken) -> Result<Arrival> {
        let client = self.await_new(token)?;
        token.raise_came();
        Ok(client)
    }

    fn next(&self, token: &mut BoundToken) -> Result<Arrival> {
        let client = self.await_client(token)?;
        token.raise_came();
        Ok(client)
    }

    fn keep(&self, token: &mut BoundToken, client: Arrival)
        ensures { Goes (roll_on token.old) (roll_on token.new) unseen }
    {
        token.raise_left();
        let AcceptedClient {
            stream,
            is_kept: _,
            ends: _,
        } = client;
        if self.keeps() {
            let _unseated = self.room.keep(stream);
        }
    }

    fn let_go(&self, token: &mut BoundToken, client: Arrival)
        ensures { Goes (roll_on token.old) (roll_on token.new) unseen }
    {
        token.raise_left();
        client.close();
    }

    fn join(&self, token: &mut BoundToken, other: BoundToken) {
        self.tokens.join(self.rt, token, other);
    }

    fn gave_all(&self, all: BoundToken) -> bool {
        self.tokens.close(self.rt, self.listener.as_raw_fd(), &all)
    }

    fn keeps(&self) -> bool {
        self.has_places.load(Ordering::SeqCst) && self.is_open()
    }

    fn connections(&self) -> ClientConnections {
        self.room.connections()
    }

    fn offer_places(&self, alloc: Global, places: Places) -> std::result::Result<(), AllocError> {
        self.room.offer(alloc, places)?;
        self.has_places.store(places.count > 0, Ordering::SeqCst);
        Ok(())
    }

    fn end_untaken(&self, most: Duration) {
        end_untaken(&self.listener, most);
    }

    fn is_open(&self) -> bool {
        self.open.load(Ordering::SeqCst)
    }
}

impl<'r, R: Net + Wait + Clock> Closable for BoundListener<'r, R> {
    ghost use Rattle.std.specs.Prelude.{⊤};

    ghost closed = { λ _. ⊤ };

    // Only the first time: a socket that was shut down would listen anew. The queue is made short
    // where it doesn't get empty by itself alone: a client that finds it full isn't refused by the
    // system, and tries again a second later.
    fn close<C: Clock>(&self, rt: &C, most: Duration) {
        if self.open.swap(false, Ordering::SeqCst) {
            let file = self.listener.as_raw_fd();
            let began = rt.monotonic().ok();
            let first = most.min(Duration::from_millis(OPEN_TO_ALL_MS));
            if !self.await_empty(rt, began, first) {
                listen(file, 0);
                self.await_empty(rt, began, most);
            }
            shutdown(file, SHUT_RD);
            self.room.close();
        }
    }
}

/// A client, whom nobody serves yet; whether it was served before.
fn arrival_of(stream: TcpStream, is_kept: bool) -> Arrival {
    AcceptedClient {
        stream,
        is_kept,
        ends: ClientEnds::new(OpaqueEnd::new(), OpaqueEnd::new()),
    }
}

/// Whether so long has gone by since a moment, as far as the clock tells.
fn has_passed<R: Clock>(rt: &R, began: Option<Duration>, most: Duration) -> bool {
    match (began, rt.monotonic()) {
        (Some(began), Ok(now)) => most <= now.saturating_sub(began),
        _ => false,
    }
}

/// Whether something is to be had of it: of a listener a connection, of a set an event.
fn has_waiting(file: RawFd) -> bool {
    let mut watched = [pollfd {
        fd: file,
        events: POLLIN,
        revents: 0,
    }];
    poll(&mut watched, 0) > 0 && watched[0].revents & POLLIN != 0
}
