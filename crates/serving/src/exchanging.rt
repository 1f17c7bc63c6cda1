// Clients served by exchanges.
ghost use Rattle.std.specs.Prelude.{◌≡◌};
ghost use Rattle.timed_io.specs.Client.{from_of, to_of};
ghost use Rattle.serving.specs.Served.{IsServed, back_of, told_by_places};

use crate::watching::Exchanges;
use crate::working::WorkerSettings;
use body_memory::{BodyMemory, HeldBodies, SharedBodies};
use clocks::{Clock, MonotonicClock};
use counted_io::Counted;
use gate_port::GatePort;
use gateway_settings::Settings;
use handling::{Accepts, Handler, serve_client};
use lent_io::ReadAhead;
use listening::AcceptedClient;
use proxy::{Exchange, ExchangePolicy, Keeper, exchange};
use std::alloc::Global;
use std::io::{BufRead, Write};
use timed_io::{ClientBuffers, ClientTime, Connection, Inlet, Outlet, Patience};
use wire::Backend;

/// Where the exchanges of a worker ask for permits, and where they forward requests.
#[derive(Drop)]
pub struct Exchanger<P, B> {
    /// Where permits are asked for.
    pub port: P,
    /// Where requests are forwarded.
    pub backend: B,
}

/// By what an exchange is carried out, beside the worker's exchanger.
#[derive(Drop)]
pub(crate) struct ExchangeTerms<'a, C, K> {
    settings: &'a Settings,
    clock: &'a C,
    alloc: Global,
    bodies: &'a Option<SharedBodies>,
    marks: bool,
    keeper: &'a K,
    is_later: bool,
}

impl<'a, P, B, C, K> Handler<ExchangeTerms<'a, C, K>> for Exchanger<P, B>
where
    P: GatePort,
    B: Backend,
    C: Clock,
    K: Keeper,
{
    type Told = Exchange;

    type Protocol = Exchanges;

    ghost use Rattle.serving.specs.Served.{IsCarriedOut, back_of};

    ghost handles = { λ by old new before behind told. IsCarriedOut
        (record {
          settings = by.settings.now;
          marks = by.marks;
          keeps = K.tells by.keeper.now;
          later = by.is_later;
        })
        (back_of P.shown P.known B.forwarded B.shown old.port old.backend)
        (back_of P.shown P.known B.forwarded B.shown new.port new.backend)
        before behind told };

    /// The body of the request is held until the exchange has ended.
    fn handle<S: Connection, R: BufRead + ReadAhead, W: Write>(
        &mut self,
        by: &ExchangeTerms<'a, C, K>,
        _stream: &S,
        reader: &mut Counted<R>,
        writer: &mut Counted<W>,
    ) -> Exchange {
        let policy = ExchangePolicy {
            marks: by.marks,
            keeper: by.keeper,
            is_later: by.is_later,
        };
        let mut looks = MonotonicClock::new(by.clock);
        let mut bodies = HeldBodies::new(by.alloc, by.bodies.as_ref());
        let served = exchange(
            &mut bodies,
            &mut self.port,
            &mut self.backend,
            by.settings,
            &policy,
            &mut looks,
            reader,
            writer,
        );
        bodies.release();
        served
    }
}

/// Serves one client by one exchange; one that is slow to send its head is let go where no worker
/// is free. Of a client that was kept the request is a later one of its connection.
pub(crate) fn serve_by_exchange<T, I, O, P, B, C, L, W, D, A>(
    common: &WorkerSettings<'_, L, C, W>,
    keeper: &DoorKeeper<'_, D>,
    patience: &A,
    client: AcceptedClient<T, I, O>,
    exchanger: &mut Exchanger<P, B>,
    buffers: ClientBuffers,
) -> (AcceptedClient<T, I, O>, Exchange, ClientBuffers)
where
    T: Connection,
    I: Inlet<T>,
    O: Outlet<T>,
    P: GatePort,
    B: Backend,
    C: Clock,
    D: Accepts,
    A: Patience,
    ensures { IsServed
        (record {
          settings = common.now.settings.now;
          marks = common.now.marks;
          keeps = told_by_places keeper.now.places;
          later = client.is_kept;
        })
        (I.remaining (from_of client.ends)) (O.contents (to_of client.ends))
        (I.remaining (from_of result.0.ends)) (O.contents (to_of result.0.ends))
        (back_of P.shown P.known B.forwarded B.shown exchanger.old.port exchanger.old.backend)
        (back_of P.shown P.known B.forwarded B.shown exchanger.new.port exchanger.new.backend)
        result.1 }
{
    let terms = ExchangeTerms {
        settings: common.settings,
        clock: common.clock,
        alloc: common.alloc,
        bodies: common.bodies,
        marks: common.marks,
        keeper,
        is_later: client.is_kept,
    };
    let time = ClientTime {
        clock: common.clock,
        most_ns: common.client_timeout_ns,
    };
    serve_client(exchanger, &terms, client, patience, &time, buffers)
}

/// Who tells whether a client that is answered may be kept: the door that it came by, if there are
/// places for it. The last answer of a worker says that the connection ends.
#[derive(Drop)]
pub(crate) struct DoorKeeper<'d, A> {
    pub(crate) door: &'d A,
    /// How many clients may be kept.
    pub(crate) places: u32,
    /// Whether this is the last turn of a worker.
    pub(crate) is_last: bool,
}

impl<A: Accepts> Keeper for DoorKeeper<'_, A> {
    ghost use Rattle.serving.specs.Served.{told_by_places};

    ghost tells = { λ keeper. told_by_places keeper.places };

    fn may_keep(&self) -> bool {
        if self.places == 0 {
            return false;
        }
        !self.is_last && self.door.keeps()
    }
}
