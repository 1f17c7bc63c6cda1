// What one worker does.
ghost use Rattle.std.specs.Prelude.{◌≡◌, ◌≤◌, ◌+◌, true, false};
ghost use Rattle.counted_io.specs.Count.{count_end};
ghost use Rattle.serving.specs.Served.{back_of, policy_of};
ghost use Rattle.serving.specs.Turns.{IsRun, place_of};

use crate::exchanging::{DoorKeeper, Exchanger, serve_by_exchange};
use crate::watching::Exchanges;
use body_memory::SharedBodies;
use clocks::Clock;
use gate_port::GatePort;
use gateway_settings::Settings;
use handling::Accepts;
use proxy::{Exchange, Watch};
use std::alloc::Global;
use std::thread;
use std::time::{Clock as SystemClock, Duration};
use timed_io::{BodyRates, BodyReader, BodyWait, ClientBuffers, Patience};
use wire::Backend;

/// How long a worker rests that could have no connection, in milliseconds.
const WITHOUT_A_CLIENT_MS: u64 = 10;

/// What all workers of a gateway share, and what each of them is asked to do.
#[derive(Drop)]
pub struct WorkerSettings<'a, L, C, W> {
    /// Where clients come from.
    pub listener: &'a L,
    /// What the gateway was told by its configuration.
    pub settings: &'a Settings,
    /// The clock of deadlines.
    pub clock: &'a C,
    /// How many exchanges a worker carries out, or tries to, one after the other.
    pub per_worker: u64,
    /// How long a client may take to send its request, and again to take its answer, at each of its
    /// exchanges anew; and how long one may wait that has sent nothing.
    pub client_timeout_ns: u64,
    /// For how long a client whose head isn't whole may hold a worker where no other one is free.
    pub head_timeout_ns: u64,
    /// Which bodies of requests arrive slowest, over all workers.
    pub rates: &'a BodyRates,
    /// How many clients that have sent nothing may wait beside those who are served, where settings
    /// keep none.
    pub client_places: u32,
    /// How long a call of the backend may take, from its connect to the end of its answer; as long
    /// as the backend takes without it.
    pub backend_timeout_ns: Option<u64>,
    /// Whether each of the gateway's own answers has the line `X-Admission` with its word.
    pub marks: bool,
    /// From one report to the next; none is made without it.
    pub report_every_ns: Option<u64>,
    /// What hears of what workers do.
    pub watch: &'a W,
    /// What is read of a client is held here.
    pub alloc: Global,
    /// The bytes that the bodies of all exchanges share, where these have a bound.
    pub bodies: &'a Option<SharedBodies>,
}

/// What came of a worker's turns.
#[derive(Clone, Copy)]
pub struct TurnCounts {
    /// How many exchanges it carried out.
    pub accepted: u64,
    /// How often none was to be had.
    pub unaccepted: u64,
}

/// Takes `per_worker` turns, or fewer where the door is found closed. In each a client comes, a new
/// one or one who was kept, is served by one exchange, and is let go, or waits for its next request
/// where it was told so; or none was to be had, and then nothing is forwarded, and the next turn
/// comes a while later: what was missing, such as a free descriptor, isn't there at once. What the
/// backend's answer left is waited for once the client was left. The client of the last turn isn't
/// kept, and its answer says so.
pub fn work<R, A, P, B, C, L, W>(
    rt: &R,
    common: &WorkerSettings<'_, L, C, W>,
    door: &mut A,
    exchanger: &mut Exchanger<P, B>,
    buffers: ClientBuffers,
) -> TurnCounts
where
    R: SystemClock,
    A: Accepts<Told = Exchange, Protocol = Exchanges>,
    P: GatePort,
    B: Backend,
    C: Clock,
    W: Watch,
    ensures run { IsRun (policy_of common.now.settings.now common.now.marks)
        (A.came door.old) (A.shut door.old) common.now.per_worker
        (place_of A.given A.failed A.closed A.visits A.roll
        (back_of P.shown P.known B.forwarded B.shown) door.old exchanger.old.port
        exchanger.old.backend)
        (place_of A.given A.failed A.closed A.visits A.roll
        (back_of P.shown P.known B.forwarded B.shown) door.new exchanger.new.port
        exchanger.new.backend)
        result }
    ensures source { A.source door.new ≡ A.source door.old }
    ensures bounded { common.now.per_worker ≤ count_end }
    ensures turns { result.accepted + result.unaccepted ≤ common.now.per_worker }
    ensures whole { A.closed door.new ≡ false →
        result.accepted + result.unaccepted ≡ common.now.per_worker }
    ensures once { B.forwarded exchanger.new.backend
        ≤ B.forwarded exchanger.old.backend + result.accepted }
    ensures given { A.given door.old + common.now.per_worker ≤ count_end →
        A.given door.new ≡ A.given door.old + result.accepted }
    ensures failed { A.failed door.old + common.now.per_worker ≤ count_end →
        A.failed door.new ≡ A.failed door.old + result.unaccepted }
{
    let mut buffers = buffers;
    let patience = WorkerPatience {
        watch: common.watch,
        clock: common.clock,
        least_ns: common.head_timeout_ns,
        body: common.rates.reader(),
    };
    let mut tally = TurnCounts {
        accepted: 0,
        unaccepted: 0,
    };
    for turn in 0..common.per_worker {
        match door.accept() {
            Ok(client) => {
                let keeper = DoorKeeper {
                    door: &*door,
                    places: common.settings.clients,
                    is_last: turn == common.per_worker - 1,
                };
                let (client, served, used) = serve_by_exchange(
                    common, &keeper, &patience, client, exchanger, buffers,
                );
                buffers = used;
                door.leave(client, served);
                exchanger.backend.leave();
                tally.accepted += 1;
            }
            Err(_) => {
                tally.unaccepted += 1;
                if door.is_closed() {
                    return tally;
                }
                thread::sleep(rt, Duration::from_millis(WITHOUT_A_CLIENT_MS));
            }
        }
    }
    tally
}

/// What decides how long a worker waits for a client that is slow to send its request: a head may
/// take longer as long as other workers are free, and a body as long as others are further behind.
#[derive(Drop)]
struct WorkerPatience<'a, C, W> {
    watch: &'a W,
    clock: &'a C,
    // For how long a head is waited for in any case.
    least_ns: u64,
    body: BodyReader<'a>,
}

impl<C: Clock, W: Watch> Patience for WorkerPatience<'_, C, W> {
    fn least(&self) -> Duration {
        Duration::from_nanos(self.least_ns)
    }

    fn may_wait(&self) -> bool {
        self.watch.has_free_worker()
    }

    fn begin_read(&self) {
        self.body.begin_read();
    }

    fn end_read(&self) {
        self.body.end_read();
    }

    fn wait_for_body(&self, bytes: u64, elapsed: Duration) -> BodyWait {
        self.body.wait(bytes, elapsed, self.clock.now())
    }
}
