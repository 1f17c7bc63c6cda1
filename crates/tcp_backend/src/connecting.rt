// A backend at an address.
ghost use Rattle.std.specs.Prelude.{◌≡◌, ◌⊎◌, IfOk, None, false};
ghost use Rattle.std.specs.Net.Text.{socket_v4_text};
ghost use Rattle.counted_io.specs.Count.{raised};
ghost use Rattle.wire.specs.declared.answer.BackendAnswer.TheVariants.{Late, NotConnected, Stale};
ghost use Rattle.wire.specs.declared.fault.WireFault.{WireFault};
ghost use Rattle.wire.specs.Forwards.{Sends};
ghost use Rattle.tcp_backend.specs.Answers.{answer_of, is_stale};
ghost use Rattle.tcp_backend.specs.CallTime.{call_deadline, is_over};
ghost use Rattle.message_text.specs.declared.persistence.Persistence.TheVariants.{Close};
ghost use Rattle.tcp_backend.specs.Connecting.{connector_of, host_of, limit_of};
ghost use Rattle.tcp_backend.specs.Ends.{Gathers};
ghost use Rattle.tcp_backend.specs.Kept.{carries_on, end_left, is_kept};

use crate::asking::{Sending, answer_of, ask, read_on};
use crate::attempt::{Attempt, Leftover, Settled};
use crate::call_buffers::CallBuffers;
use crate::call_time::{CallTime, connect_time};
use crate::dialing::{Connected, Connector};
use crate::watch::{BackendWatch, ConnectionEvent};
use arrayvec::ArrayString;
use body_memory::{BodyMemory, HeldBodies};
use clocks::Clock;
use itoa::Buffer;
use message_parts::{Method, Request};
use std::alloc::AllocError;
use std::io::Error;
use std::net::SocketAddrV4;
use wire::{Backend, BackendAnswer, Persistence};

/// Why a backend was not made.
#[derive(Clone, Copy, Drop)]
pub enum BackendFault {
    /// A growth was refused.
    Memory = 1,
}

impl From<AllocError> for BackendFault {
    fn from(_: AllocError) -> BackendFault {
        BackendFault::Memory
    }
}

/// A backend at the address of its connector, which it asks for one connection for each request,
/// and what hears of its troubles.
#[derive(Drop)]
pub struct TcpBackend<'c, K, S, W, C> {
    connector: K,
    watch: W,
    line: Line<'c, S>,
    limit: Limit<'c, C>,
}

/// What serves one connection after another: what holds the bodies of its answers, the last one's
/// until it is left, and the connection of that. A call takes the buffers, and puts them back.
#[derive(Drop)]
struct Line<'c, S> {
    bodies: HeldBodies<'c>,
    host: ArrayString<21>,
    buffers: Option<CallBuffers>,
    answered: Option<S>,
}

impl<'c, S: Drop> Line<'c, S> {
    // Lets go of the last answer, where it wasn't left.
    fn let_go(&mut self)
        ensures host { self.new.host ≡ self.old.host }
    {
        self.answered = None;
        self.bodies.release();
    }

    // The buffers, by value; new ones where a call kept them, which none does.
    fn take_buffers(&mut self) -> Result<CallBuffers, AllocError>
        ensures host { self.new.host ≡ self.old.host }
    {
        match self.buffers.take() {
            Some(buffers) => Ok(buffers),
            None => CallBuffers::new(self.bodies.alloc()),
        }
    }

    // Puts the buffers of a call back; what became of its request, which said so of its connection,
    // that had been kept or was new; and what is left of that.
    fn put_back<E, C: Clock>(
        &mut self,
        call: &CallTime<'_, C>,
        attempt: Attempt<S, E>,
        persistence: Persistence,
        is_reused: bool,
    ) -> (BackendAnswer, Leftover<S, E>)
        ensures answer { result.0 ≡ answer_of attempt.answer
            (is_over (call_deadline call.now) attempt.looked) (is_stale is_reused attempt) }
        ensures unlimited { call_deadline call.now ≡ None → ¬ (result.0 ≡ Late) }
        ensures fresh { is_reused ≡ false → (fault : WireFault) → ¬ (result.0 ≡ Stale fault) }
        ensures kept { is_kept result.1 ≡ carries_on persistence attempt }
        ensures end { end_left result.1 ≡ attempt.end }
        ensures host { self.new.host ≡ self.old.host }
    {
        let Settled {
            answer,
            is_heard,
            looked,
            left,
            buffers,
        } = attempt.settle(persistence);
        self.buffers = Some(buffers);
        let is_stale = is_reused && !is_heard;
        (answer_of(answer, call.is_over(looked), is_stale), left)
    }
}

/// How long a call may take, in nanoseconds of a clock, where that is limited.
#[derive(Drop)]
struct Limit<'c, C> {
    clock: &'c C,
    most_ns: Option<u64>,
}

impl<'c, K: Connector + Drop, W: Drop, C> TcpBackend<'c, K, K::Stream, W, C> {
    /// The backend at the address of this connector. A request that names no host is sent with the
    /// address as its host. A call may take so many nanoseconds of the clock, from its connect to
    /// the end of its answer, and without a limit as long as the backend takes. Nothing is
    /// connected yet, and it fails only out of memory for the buffers. The bodies of answers are
    /// held by `bodies`, each until it is left.
    pub fn new(
        connector: K,
        bodies: HeldBodies<'c>,
        watch: W,
        clock: &'c C,
        most_ns: Option<u64>,
    ) -> Result<TcpBackend<'c, K, K::Stream, W, C>, BackendFault>
        ensures connector { IfOk result (λ backend. connector_of backend ≡ connector) }
        ensures host { IfOk result (λ backend. host_of backend ≡ K.reaches connector) }
        ensures limit { IfOk result (λ backend. limit_of backend ≡ most_ns) }
    {
        let buffers = CallBuffers::new(bodies.alloc())?;
        let line = Line {
            bodies,
            host: host_text(connector.address()),
            buffers: Some(buffers),
            answered: None,
        };
        Ok(TcpBackend {
            connector,
            watch,
            line,
            limit: Limit { clock, most_ns },
        })
    }
}

impl<'c, K: Connector, W: BackendWatch, C: Clock> Backend for TcpBackend<'c, K, K::Stream, &W, C> {
    ghost use Rattle.std.specs.Prelude.{None};
    ghost use Rattle.tcp_backend.specs.Connecting.{connector_of, host_of};

    ghost forwarded = { λ backend. K.connects (connector_of backend) };

    ghost shown = { λ _. None };

    ghost written = { λ backend. K.written (connector_of backend) };

    ghost host = { host_of };

    /// Asks for a connection once, writes the request and reads one response. Where there is no
    /// connection, that is `NotConnected`; each later fault is `Broken`, but out of memory is
    /// `Memory`, and a body that may not be held is `Bodies`; and where the time of the call is
    /// over before, all that is `Late`. A connection that was kept may have been closed by the
    /// backend meanwhile: a fault over one is `Stale` where no byte of an answer came, and the
    /// request isn't sent again (RFC 9110, section 9.2.2). A response that says its own length is
    /// read behind a write that failed or stands still, too: the backend may have answered before
    /// it read the whole request. `NotConnected`, `Broken`, `Stale`, `Late` and `Bodies` are told,
    /// and `Stale` as `Broken` is.
    fn forward(&mut self, request: &Request) -> BackendAnswer
        ensures count { K.connects (connector_of self.new)
            ≡ raised (K.connects (connector_of self.old)) }
        ensures reaches { K.reaches (connector_of self.new) ≡ K.reaches (connector_of self.old) }
        ensures written { Sends (host_of self.old) (K.written (connector_of self.old))
            (K.written (connector_of self.new)) request.now result }
        ensures host { host_of self.new ≡ host_of self.old }
        ensures limit { limit_of self.new ≡ limit_of self.old }
        ensures unlimited { limit_of self.old ≡ None → ¬ (result ≡ Late) }
        ensures fresh { K.keeps (connector_of self.old) ≡ false
            → (fault : WireFault) → ¬ (result ≡ Stale fault) }
    {
        forward_over(
            &mut self.connector,
            &mut self.line,
            &self.limit,
            self.watch,
            request,
        )
    }

    /// Reads the connection of the last answer to its end, and closes it, so that a backend which
    /// closes it does so first. One that keeps it open isn't waited for. The body of that answer is
    /// held no longer.
    fn leave(&mut self)
        ensures count { K.connects (connector_of self.new)
            ≡ K.connects (connector_of self.old) }
        ensures reaches { K.reaches (connector_of self.new) ≡ K.reaches (connector_of self.old) }
        ensures written { K.written (connector_of self.new) ≡ K.written (connector_of self.old) }
        ensures host { host_of self.new ≡ host_of self.old }
        ensures limit { limit_of self.new ≡ limit_of self.old }
    {
        if let Some(mut stream) = self.line.answered.take() {
            read_on(&mut stream);
        }
        self.line.bodies.release();
    }

    fn forwards(&self) -> u64 {
        self.connector.connects()
    }
}

// Forwards a request over one connection, which was kept or is new: whatever fails, there is no
// second one.
fn forward_over<K: Connector, W: BackendWatch, C: Clock>(
    connector: &mut K,
    line: &mut Line<'_, K::Stream>,
    limit: &Limit<'_, C>,
    watch: &W,
    request: &Request,
) -> BackendAnswer
    ensures once { K.connects connector.new ≡ raised (K.connects connector.old) }
    ensures reaches { K.reaches connector.new ≡ K.reaches connector.old }
    ensures written { Sends line.old.host.bytes (K.written connector.old) (K.written connector.new)
        request.now result }
    ensures host { line.new.host ≡ line.old.host }
    ensures unlimited { limit.now.most_ns ≡ None → ¬ (result ≡ Late) }
    ensures fresh { K.keeps connector.old ≡ false
        → (fault : WireFault) → ¬ (result ≡ Stale fault) }
{
    line.let_go();
    let call = CallTime::begin(limit.clock, limit.most_ns);
    let most = connect_time(limit.most_ns);
    let Connected {
        stream,
        end,
        is_reused,
    } = match connector.connect(limit.clock, watch, most) {
        Ok(made) => made,
        Err(error) => return unconnected(&call, watch, &error),
    };
    let Ok(buffers) = line.take_buffers() else {
        connector.release(end);
        return BackendAnswer::Memory;
    };
    let persistence = persistence_for(connector.keeps(), &request.method);
    let sending = Sending {
        request,
        host: line.host.as_str(),
        persistence,
    };
    let attempt = ask(&mut line.bodies, &call, stream, end, buffers, &sending);
    let (answer, left) = line.put_back(&call, attempt, persistence, is_reused);
    tell(watch, &answer);
    line.answered = give_back(connector, limit.clock, watch, left);
    answer
}

// Gives back what is left of a connection, which is kept only where it carries on; one that the
// backend is to close is the result.
fn give_back<K: Connector, W: BackendWatch, C: Clock>(
    connector: &mut K,
    clock: &C,
    watch: &W,
    left: Leftover<K::Stream, K::End>,
) -> Option<K::Stream>
    ensures connects { K.connects connector.new ≡ K.connects connector.old }
    ensures reaches { K.reaches connector.new ≡ K.reaches connector.old }
    ensures written { Gathers (K.written connector.old) (K.End.contents (end_left left))
        (K.written connector.new) }
{
    match left {
        Leftover::Ready(connection) => {
            connector.keep(clock, watch, connection);
            None
        }
        Leftover::Ending(stream, end) => {
            connector.release(end);
            watch.connection(ConnectionEvent::Closed);
            Some(stream)
        }
        Leftover::Closed(end) => {
            connector.release(end);
            watch.connection(ConnectionEvent::Closed);
            None
        }
    }
}

// Tells of an answer that is none.
fn tell<W: BackendWatch>(watch: &W, answer: &BackendAnswer) {
    match answer {
        BackendAnswer::Broken(fault) => watch.broken(*fault),
        BackendAnswer::Stale(fault) => watch.broken(*fault),
        BackendAnswer::Late => watch.late(),
        BackendAnswer::Bodies => watch.unheld(),
        BackendAnswer::Answered(_) | BackendAnswer::NotConnected | BackendAnswer::Memory => {}
    }
}

// What a request by this method says of its connection, where such are kept or not. One behind HEAD
// isn't, so that the backend is to close it.
fn persistence_for(keeps: bool, method: &Method) -> Persistence
    ensures { keeps ≡ false → result ≡ Close }
{
    if keeps && method.as_slice() != b"HEAD".as_slice() {
        Persistence::Keep
    } else {
        Persistence::Close
    }
}

// What becomes of a request where no connection was to be had, for this cause.
fn unconnected<W: BackendWatch, C: Clock>(
    call: &CallTime<'_, C>,
    watch: &W,
    error: &Error,
) -> BackendAnswer
    ensures either { (result ≡ NotConnected) ⊎ (result ≡ Late) }
    ensures unlimited { call_deadline call.now ≡ None → result ≡ NotConnected }
{
    if call.is_over_now() {
        watch.late();
        BackendAnswer::Late
    } else {
        watch.unreached(error);
        BackendAnswer::NotConnected
    }
}

// The address as it is printed.
fn host_text(address: SocketAddrV4) -> ArrayString<21>
    ensures { result.bytes ≡ socket_v4_text address }
{
    let [first, second, third, fourth] = address.ip().octets();
    let mut number = Buffer::new();
    let mut text = ArrayString::new();
    text.push_str(number.format(first));
    text.push_str(".");
    text.push_str(number.format(second));
    text.push_str(".");
    text.push_str(number.format(third));
    text.push_str(".");
    text.push_str(number.format(fourth));
    text.push_str(":");
    text.push_str(number.format(address.port()));
    text
}
