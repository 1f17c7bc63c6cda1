// Connections that are kept for further requests.
ghost use Rattle.std.specs.Prelude.{◌≡◌, IfSome, true};
ghost use Rattle.std.specs.Net.Text.{socket_v4_text};
ghost use Rattle.tcp_backend.specs.Kept.{dialed_at, is_young};

use crate::ends::OpaqueEnd;
use crate::watch::{BackendWatch, ConnectionEvent};
use std::alloc::{AllocError, Global};
use std::io::ErrorKind;
use std::net::SocketAddrV4;
use std::os::fd::AsRawFd;
use std::sync::{Mutex, Wait};
use timed_io::read_ready;

/// A connection that may carry another request. Only a call makes one, of its own connection: where
/// its request was written whole, and its answer, which said where it ends, is all that came.
#[derive(Drop)]
pub struct ReadyConnection<S, E> {
    pub(crate) stream: S,
    pub(crate) end: E,
}

/// One of them that waits for a request, and since when, in nanoseconds of a clock.
#[derive(Drop)]
struct IdleConnection<S> {
    connection: ReadyConnection<S, OpaqueEnd>,
    since_ns: u64,
}

/// Connections that wait for another request: all workers share them. The one that was put back
/// last is taken first, so that no more are kept open than are needed at once.
#[derive(Drop)]
pub struct ConnectionPool<S> {
    places: usize,
    most_ns: u64,
    idle: Mutex<Vec<IdleConnection<S>>>,
}

impl<S> ConnectionPool<S> {
    /// A pool with so many places, from which a connection is taken for as long as it has waited
    /// for fewer than so many nanoseconds. None waits yet. It fails only out of memory, of which no
    /// later call takes any.
    pub fn new(
        alloc: Global,
        places: usize,
        most_ns: u64,
    ) -> Result<ConnectionPool<S>, AllocError> {
        Ok(ConnectionPool {
            places,
            most_ns,
            idle: Mutex::new(Vec::with_capacity(alloc, places)?),
        })
    }

    // The connection that was put back last.
    fn pop<R: Wait>(&self, rt: &R) -> Option<IdleConnection<S>> {
        self.idle.lock(rt).pop()
    }

    // Puts one behind the others, or gives it back where no place is free.
    fn push<R: Wait>(&self, rt: &R, idle: IdleConnection<S>) -> Option<IdleConnection<S>> {
        let mut list = self.idle.lock(rt);
        if list.len() < list.capacity() {
            list.push_reserved(idle);
            None
        } else {
            Some(idle)
        }
    }

    // The connection that has waited longest, where that is too long.
    fn pop_aged<R: Wait>(&self, rt: &R, now: u64) -> Option<IdleConnection<S>> {
        let mut list = self.idle.lock(rt);
        match list.first() {
            Some(first) if !is_young(first.since_ns, self.most_ns, now) => Some(list.remove(0)),
            _ => None,
        }
    }
}

impl<S: AsRawFd + Drop> ConnectionPool<S> {
    // A connection to the address that still waits in silence, where there is one. Those that are
    // looked at before it are closed.
    pub(crate) fn take<R: Wait, W: BackendWatch>(
        &self,
        rt: &R,
        watch: &W,
        address: SocketAddrV4,
        now: u64,
    ) -> Option<ReadyConnection<S, OpaqueEnd>>
        ensures { IfSome result (λ taken. dialed_at taken.end ≡ socket_v4_text address) }
    {
        for _ in 0..self.places {
            let IdleConnection {
                connection,
                since_ns,
            } = self.pop(rt)?;
            let is_fresh = is_young(since_ns, self.most_ns, now) && is_silent(&connection.stream);
            if is_fresh && connection.end.is_at(address) {
                watch.connection(ConnectionEvent::Reused);
                return Some(connection);
            }
            watch.connection(ConnectionEvent::Stale);
        }
        None
    }

    // Puts a connection back that waits from now on, where a place is free; else it is closed. The
    // one that has waited longest is closed where that is too long.
    pub(crate) fn put_back<R: Wait, W: BackendWatch>(
        &self,
        rt: &R,
        watch: &W,
        connection: ReadyConnection<S, OpaqueEnd>,
        now: u64,
    ) {
        if let Some(_aged) = self.pop_aged(rt, now) {
            watch.connection(ConnectionEvent::Stale);
        }
        let idle = IdleConnection {
            connection,
            since_ns: now,
        };
        match self.push(rt, idle) {
            None => watch.connection(ConnectionEvent::Kept),
            Some(_) => watch.connection(ConnectionEvent::Closed),
        }
    }
}

// Whether a connection that has waited since then has not waited for too long by now.
fn is_young(since_ns: u64, most_ns: u64, now: u64) -> bool
    ensures { result ≡ is_young since_ns most_ns now }
{
    now.saturating_sub(since_ns) < most_ns
}

// Whether nothing has come: neither bytes, which would belong to no request, nor the end.
fn is_silent<S: AsRawFd>(stream: &S) -> bool {
    let mut first = [0u8; 1];
    match read_ready(stream, &mut first) {
        Ok(_) => false,
        Err(fault) => fault.kind() == ErrorKind::WouldBlock,
    }
}
