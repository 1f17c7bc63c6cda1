// Where connections to a backend come from.
ghost use Rattle.std.specs.Prelude.{◌≡◌, false, true, IfOk, IfSome};
ghost use Rattle.counted_io.specs.Count.{raised};
ghost use Rattle.std.specs.Net.Text.{socket_v4_text};
ghost use Rattle.tcp_backend.specs.Connecting.{address_of, dialed_of, has_pool};
ghost use Rattle.tcp_backend.specs.Kept.{dialed_at};

use crate::ends::{OpaqueEnd, RequestOutlet};
use crate::pool::{ConnectionPool, ReadyConnection};
use crate::watch::{BackendWatch, ConnectionEvent};
use clocks::Clock;
use std::alloc::Global;
use std::io::{Read, Result};
use std::net::{Net, OpenStream, SocketAddr, SocketAddrV4, TcpStream};
use std::os::fd::AsRawFd;
use std::sync::{Arc, Wait};
use std::time::Duration;
use timed_io::{ask_after, end_untaken};

/// For how long a backend may take nothing of its request, in milliseconds, before the system ends
/// the connection.
const UNTAKEN_MS: u64 = 5_000;

/// A connection for one request, where it is written to, and whether it was kept behind another
/// request.
#[derive(Drop)]
pub struct Connected<S, E> {
    pub(crate) stream: S,
    pub(crate) end: E,
    pub(crate) is_reused: bool,
}

/// What has connections to one address, new ones and those that were put back, and counts how often
/// it was asked for one. A backend has no other way to one.
pub trait Connector {
    /// A connection, which is closed where its value ends. It is written to by its end alone.
    type Stream: Read + OpenStream + AsRawFd + Drop;

    /// Where it is written to. Each comes back, since nobody else can drop it.
    type End: RequestOutlet<Self::Stream>;

    ghost use Rattle.std.specs.Prelude.{ℕ, Bool, List, Option};
    ghost use Rattle.tcp_backend.specs.Ends.{Gathers, IsFresh, end_kept};

    // How often it was asked to connect.
    ghost connects: { Self → ℕ };

    // The text of the address that it connects to.
    ghost reaches: { Self → List ℕ };

    // Whether connections are kept behind their requests.
    ghost keeps: { Self → Bool };

    // All bytes that were written to the ends which came back, where they are shown.
    ghost written: { Self → Option (List ℕ) };

    /// A connection for one request: one that was put back here and waits in silence, or else a new
    /// one; or why none can be had within this time.
    fn connect<C: Clock, W: BackendWatch>(
        &mut self,
        clock: &C,
        watch: &W,
        most: Duration,
    ) -> Result<Connected<Self::Stream, Self::End>>
        ensures connects { connects self.new ≡ raised (connects self.old) }
        ensures reaches { reaches self.new ≡ reaches self.old }
        ensures keeps { keeps self.new ≡ keeps self.old }
        ensures dialed { IfOk result (λ made. Self.End.dialed made.end ≡ reaches self.old) }
        ensures fresh { IfOk result (λ made. keeps self.old ≡ false → made.is_reused ≡ false) }
        ensures unwritten { IfOk result (λ made.
            IsFresh (written self.old) (Self.End.contents made.end)) }
        ensures written { written self.new ≡ written self.old };

    /// Whether connections are kept behind their requests, which then don't say that these end.
    fn keeps(&self) -> bool
        ensures { result ≡ keeps self.now };

    /// Takes a connection back that may carry another request.
    fn keep<C: Clock, W: BackendWatch>(
        &mut self,
        clock: &C,
        watch: &W,
        connection: ReadyConnection<Self::Stream, Self::End>,
    )
        ensures connects { connects self.new ≡ connects self.old }
        ensures reaches { reaches self.new ≡ reaches self.old }
        ensures keeps { keeps self.new ≡ keeps self.old }
        ensures written { Gathers (written self.old)
            (Self.End.contents (end_kept connection)) (written self.new) };

    /// Takes the end of a connection back that carries no further request.
    fn release(&mut self, end: Self::End)
        ensures connects { connects self.new ≡ connects self.old }
        ensures reaches { reaches self.new ≡ reaches self.old }
        ensures keeps { keeps self.new ≡ keeps self.old }
        ensures written { Gathers (written self.old) (Self.End.contents end) (written self.new) };

    /// The address that it connects to.
    fn address(&self) -> SocketAddrV4
        ensures { socket_v4_text result ≡ reaches self.now };

    /// How often it was asked to connect; the count stays at `u64::MAX`.
    fn connects(&self) -> u64
        ensures { result ≡ connects self.now };
}

/// Connections over TCP to one address: each is made for one request, or kept in a pool behind it.
#[derive(Drop)]
pub struct Dialer<R, S> {
    rt: R,
    address: SocketAddrV4,
    connects: u64,
    pool: Option<Arc<ConnectionPool<S>, Global>>,
}

impl<R: Net, S> Dialer<R, S> {
    /// Nothing is connected yet. Without a pool no connection is kept.
    pub fn new(
        rt: R,
        address: SocketAddrV4,
        pool: Option<Arc<ConnectionPool<S>, Global>>,
    ) -> Dialer<R, S>
        ensures unused { dialed_of result ≡ 0 }
        ensures address { address_of result ≡ socket_v4_text address }
    {
        Dialer {
            rt,
            address,
            connects: 0,
            pool,
        }
    }
}

impl<R: Net + Wait> Dialer<R, R::Stream> {
    // A connection that was kept, where one still waits in silence.
    fn take_kept<C: Clock, W: BackendWatch>(
        &self,
        clock: &C,
        watch: &W,
    ) -> Option<ReadyConnection<R::Stream, OpaqueEnd>>
        ensures at { IfSome result (λ taken. dialed_at taken.end ≡ address_of self.now) }
        ensures kept { IfSome result (λ _. has_pool self.now ≡ true) }
    {
        match &self.pool {
            Some(pool) => pool.take(&self.rt, watch, self.address, clock.now()),
            None => None,
        }
    }

    // A new connection. The system asks after a backend that is silent, and ends a connection whose
    // backend is gone, or takes nothing of its request; and what is written goes out at once.
    fn dial(&self, most: Duration) -> Result<R::Stream> {
        let stream = TcpStream::connect_timeout(&self.rt, &SocketAddr::V4(self.address), most)?;
        ask_after(&stream);
        end_untaken(&stream, Duration::from_millis(UNTAKEN_MS));
        let _ = stream.set_nodelay(true);
        Ok(stream)
    }
}

impl<R: Net + Wait> Connector for Dialer<R, R::Stream> {
    type Stream = R::Stream;

    type End = OpaqueEnd;

    ghost use Rattle.std.specs.Prelude.{None};
    ghost use Rattle.tcp_backend.specs.Connecting.{address_of, dialed_of, has_pool};

    ghost connects = { dialed_of };

    ghost reaches = { address_of };

    ghost keeps = { has_pool };

    ghost written = { λ _. None };

    fn connect<C: Clock, W: BackendWatch>(
        &mut self,
        clock: &C,
        watch: &W,
        most: Duration,
    ) -> Result<Connected<R::Stream, OpaqueEnd>> {
        self.connects = self.connects.saturating_add(1);
        if let Some(kept) = self.take_kept(clock, watch) {
            return Ok(Connected {
                stream: kept.stream,
                end: kept.end,
                is_reused: true,
            });
        }
        watch.connection(ConnectionEvent::Dialing);
        let dialed = self.dial(most);
        watch.connection(match &dialed {
            Ok(_) => ConnectionEvent::Opened,
            Err(_) => ConnectionEvent::Unreached,
        });
        let stream = dialed?;
        let end = OpaqueEnd {
            address: self.address,
        };
        Ok(Connected {
            stream,
            end,
            is_reused: false,
        })
    }

    fn keeps(&self) -> bool {
        self.pool.is_some()
    }

    fn keep<C: Clock, W: BackendWatch>(
        &mut self,
        clock: &C,
        watch: &W,
        connection: ReadyConnection<R::Stream, OpaqueEnd>,
    )
        ensures connects { dialed_of self.new ≡ dialed_of self.old }
        ensures reaches { address_of self.new ≡ address_of self.old }
        ensures keeps { has_pool self.new ≡ has_pool self.old }
    {
        match &self.pool {
            Some(pool) => pool.put_back(&self.rt, watch, connection, clock.now()),
            None => watch.connection(ConnectionEvent::Closed),
        }
    }

    fn release(&mut self, _end: OpaqueEnd) {}

    fn address(&self) -> SocketAddrV4 {
        self.address
    }

    fn connects(&self) -> u64 {
        self.connects
    }
}
