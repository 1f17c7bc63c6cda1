// One exchange over devices.
use crate::devices::{Failing, KEPT, Says, Sink, Source, Ticking, Told, Watched};
use clocks::MonotonicClock;
use counted_io::Counted;
use gate_config::read;
use gate_port::GatePort;
use gateway_settings::Settings;
use limiter_core::Outcome;
use proxy::{ExchangePolicy, ExchangeSummary, exchange};
use std::alloc::Global;
use std::process::Abort;

/// Settings by which requests wait for a second.
const SETTINGS: &str = "version = 1
listen = \"127.0.0.1:8080\"
backend = \"127.0.0.1:9000\"
[limit]
kind = \"fixed\"
";

/// What a client sends, a byte in each read, and what the backend answers.
#[derive(Clone, Copy, Drop)]
pub(crate) struct Case<'a> {
    pub(crate) sent: &'a [u8],
    pub(crate) says: Says,
    /// The reads and the writes at which the client's end fails.
    pub(crate) failing_read: Failing,
    pub(crate) failing_write: Failing,
}

impl<'a> Case<'a> {
    /// A client whose end doesn't fail.
    pub(crate) fn new(sent: &'a [u8], says: Says) -> Case<'a> {
        Case {
            sent,
            says,
            failing_read: Failing::Never,
            failing_write: Failing::Never,
        }
    }
}

/// What came of an exchange.
#[derive(Drop)]
pub(crate) struct Came {
    pub(crate) told: ExchangeSummary,
    /// How often the client's end was read and written.
    pub(crate) reads: u64,
    pub(crate) writes: u64,
    /// How many bytes the client was sent, and what they began with.
    pub(crate) sent: usize,
    pub(crate) first: [u8; KEPT],
    /// How often the backend was given the request.
    pub(crate) forwards: u64,
    /// Of a gate that is watched, whether it was asked, and what an ending told it.
    pub(crate) is_asked: bool,
    pub(crate) learnt: Option<Outcome>,
}

/// One exchange at a gate that is watched.
pub(crate) fn exchanged(rt: &impl Abort, alloc: Global, case: Case) -> Came {
    let mut gate = Watched {
        is_asked: false,
        learnt: None,
    };
    let mut came = exchanged_over(rt, alloc, &mut gate, case);
    came.is_asked = gate.is_asked;
    came.learnt = gate.learnt;
    came
}

/// One exchange over any port.
pub(crate) fn exchanged_over<P: GatePort>(
    rt: &impl Abort,
    alloc: Global,
    port: &mut P,
    case: Case,
) -> Came {
    let settings = read(alloc, SETTINGS.as_bytes()).expect(rt, "settings");
    came_by(alloc, port, case, &settings)
}

/// One exchange by these settings.
fn came_by<P: GatePort>(alloc: Global, port: &mut P, case: Case, settings: &Settings) -> Came {
    let mut backend = Told {
        alloc,
        says: case.says,
        count: 0,
    };
    let mut source = Source {
        left: case.sent,
        most: 1,
        calls: 0,
        failing: case.failing_read,
    };
    let mut sink = Sink {
        calls: 0,
        failing: case.failing_write,
        taken: 0,
        first: [0; KEPT],
    };
    let policy = ExchangePolicy {
        marks: false,
        keeper: &false,
        is_later: false,
    };
    let mut memory = alloc;
    let served = exchange(
        &mut memory,
        port,
        &mut backend,
        settings,
        &policy,
        &mut MonotonicClock::new(&Ticking::new()),
        &mut Counted::new(&mut source),
        &mut Counted::new(&mut sink),
    );
    Came {
        told: served.end(),
        reads: source.calls,
        writes: sink.calls,
        sent: sink.taken,
        first: sink.first,
        forwards: backend.count,
        is_asked: false,
        learnt: None,
    }
}
