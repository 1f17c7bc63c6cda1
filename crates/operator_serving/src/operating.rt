// Operators, one after the other.
ghost use Rattle.std.specs.Prelude.{◌≡◌, true};
ghost use Rattle.operator_calls.specs.declared.audience.Audience.TheVariants.{Anyone};
ghost use Rattle.operator_serving.specs.Attending.{AreServed};
ghost use Rattle.operator_serving.specs.Desk.{AreLooks};
ghost use Rattle.operator_serving.specs.Memory.{refused_of};
ghost use Rattle.operator_serving.specs.Stands.{stand};

use crate::attending::Attended;
use crate::desk::Desk;
use crate::protocol::OperatorCalls;
use crate::served_desk::ServedDesk;
use clocks::Clock;
use handling::{Accepts, serve_client};
use operator_calls::Audience;
use std::alloc::Global;
use std::sync::Wait;
use std::thread;
use std::time::{Clock as SystemClock, Duration};
use timed_io::{BodyWait, ClientBuffers, ClientTime, Patience};

/// How long to rest where no connection could be had, in milliseconds.
const WITHOUT_A_CLIENT_MS: u64 = 10;

/// What serves operators, and where they come from.
#[derive(Drop)]
pub struct Operating<'a, L, C> {
    /// Where they come from.
    pub listener: &'a L,
    /// The clock of deadlines.
    pub clock: &'a C,
    /// Whom the address is for.
    pub audience: Audience<'a>,
    /// The page that draws the state.
    pub page: &'a str,
    /// How long a client may take to send its request, and again to take its answer, in
    /// nanoseconds.
    pub timeout_ns: u64,
    /// What is read and told is held here.
    pub alloc: Global,
}

/// Attends to one client of a door after the other, each for one request, until that is found
/// closed.
pub fn operate<R, L, C, A, D>(
    rt: &R,
    common: &Operating<'_, L, C>,
    door: &mut A,
    served: &mut ServedDesk<D>,
    buffers: ClientBuffers,
)
where
    R: Wait + SystemClock,
    C: Clock,
    A: Accepts<Told = Attended, Protocol = OperatorCalls>,
    D: Desk,
    ensures served { AreServed D.rows D.shows D.does (A.came door.old) common.now.audience
        common.now.page.now
        (stand served.old.desk (A.given door.old) (A.failed door.old)
        (refused_of served.old.memory))
        (stand served.new.desk (A.given door.new) (A.failed door.new)
        (refused_of served.new.memory)) }
    ensures looks { common.now.audience ≡ Anyone →
        AreLooks D.does served.old.desk served.new.desk }
    ensures ended { A.closed door.new ≡ true }
    ensures shut { A.shut door.old }
{
    let mut buffers = buffers;
    let patience = Unhurried {};
    let time = ClientTime {
        clock: common.clock,
        most_ns: common.timeout_ns,
    };
    for _ in rt.forever() {
        match door.accept() {
            Ok(client) => {
                let (client, attended, used) = serve_client(
                    served, common, client, &patience, &time, buffers,
                );
                buffers = used;
                door.leave(client, attended);
            }
            Err(_) => {
                if door.is_closed() {
                    return;
                }
                thread::sleep(rt, Duration::from_millis(WITHOUT_A_CLIENT_MS));
            }
        }
    }
}

/// Nobody else is kept waiting by a client that is slow: its own time bounds that.
#[derive(Drop)]
struct Unhurried {}

impl Patience for Unhurried {
    fn least(&self) -> Duration {
        Duration::MAX
    }

    fn may_wait(&self) -> bool {
        true
    }

    fn begin_read(&self) {}

    fn end_read(&self) {}

    fn wait_for_body(&self, _bytes: u64, _elapsed: Duration) -> BodyWait {
        BodyWait::Unlimited
    }
}
