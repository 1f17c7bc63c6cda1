// Two workers at one gate, each of which serves one client in memory: one is admitted, and waits at
// its backend until the other one is refused. What both are told is decided in one log, whose
// counters are told at the end.
ghost use Rattle.std.specs.Prelude.{◌≡◌, Some, true, false, []};
ghost use Rattle.counted_io.specs.Count.{raised};
ghost use Rattle.limit_kinds.specs.AnyKinds.{any_rules};
ghost use Rattle.gateway_settings.specs.Settings.{AreSound};
ghost use Rattle.gate_ledgers.specs.Names.{AreNamed, AreWhole};
ghost use Rattle.gate_opening.specs.Opening.{journal_of, making_of};
ghost use Rattle.shared_gate.specs.Calls.{pass_of};
ghost use Rattle.shared_gate.specs.Log.{CallsLegal};
ghost use Rattle.proxy.specs.Exchanges.{Policy};
ghost use Rattle.gateway_tests.specs.Deciding.{AreBothDecided, IsServed};

use crate::checks::check;
use crate::devices::{Failing, KEPT, Sink, Source, Ticking};
use clocks::MonotonicClock;
use counted_io::Counted;
use gate_config::{AnyLimit, read};
use gate_history::Blanks;
use gate_laws::exchanges_are_one_threads;
use gate_opening::open_gate;
use gate_port::Why;
use gateway_settings::Settings;
use limit_laws::Limit;
use limiter_core::Counters;
use message_parts::{Headers, Request};
use ports::Port;
use proxy::{ExchangePolicy, ExchangeSummary, Verdict, exchange};
use shared_gate::{GateNaming, LogLength, Pass, SharedGate};
use std::alloc::Global;
use std::marker::Brand;
use std::process::Abort;
use std::sync::Wait;
use std::thread::{Threads, join};
use std::time::Clock as SystemClock;
use wire::{Backend, BackendAnswer, Response, Reuse};

const GET: &[u8] = b"GET /a HTTP/1.1\r\nHost: h\r\n\r\n";

/// Settings by which one request is at the backend at once, and nobody waits.
const ONE_AT_ONCE: &str = "version = 1
listen = \"127.0.0.1:8080\"
backend = \"127.0.0.1:9000\"
wait = false
[limit]
kind = \"fixed\"
initial = 1
";

/// A backend that answers 204 once the gate has refused somebody.
#[derive(Drop)]
struct Patient<'a, L: Limit, M: GateNaming, R> {
    rt: &'a R,
    alloc: Global,
    gate: &'a SharedGate<L, M>,
    count: u64,
}

impl<'a, L: Limit, M: GateNaming, R: Wait> Backend for Patient<'a, L, M, R> {
    ghost use Rattle.std.specs.Prelude.{[], None};

    ghost forwarded = { λ b. b.count };

    ghost shown = { λ b. None };

    ghost written = { λ b. None };

    ghost host = { λ b. [] };

    fn forward(&mut self, _request: &Request) -> BackendAnswer
        ensures { self.new.count ≡ raised self.old.count }
    {
        self.count = self.count.saturating_add(1);
        for _ in self.rt.forever() {
            if self.gate.counters(self.rt).full > 0 {
                break;
            }
        }
        let headers = Headers::new(Vec::new(self.alloc));
        BackendAnswer::Answered(Response::new(204, headers, None, Reuse::Closing))
    }

    fn leave(&mut self) {}

    fn forwards(&self) -> u64
        ensures { result ≡ self.now.count }
    {
        self.count
    }
}

/// What is told of an exchange, and the pass by which its port called.
#[derive(Drop)]
struct Served<M: GateNaming> {
    told: ExchangeSummary,
    pass: Pass<M>,
}

/// One worker serves one client.
fn serve_one<L: Limit, M: GateNaming, R: Wait + SystemClock + Abort>(
    rt: &R,
    alloc: Global,
    gate: &SharedGate<L, M>,
    pass: Pass<M>,
) -> Served<M>
    requires unused { pass ≡ pass_of 0 }
    ensures { (p : Policy) × IsServed M.making p result.told result.pass }
{
    let settings = read(alloc, ONE_AT_ONCE.as_bytes()).expect(rt, "settings");
    let clock = Ticking::new();
    serve_by(rt, alloc, gate, &settings, pass, &clock)
}

/// The same by these settings.
fn serve_by<L: Limit, M: GateNaming, R: Wait + SystemClock>(
    rt: &R,
    alloc: Global,
    gate: &SharedGate<L, M>,
    settings: &Settings,
    pass: Pass<M>,
    clock: &Ticking,
) -> Served<M>
    requires unused { pass ≡ pass_of 0 }
    ensures { IsServed M.making
        (record {
          settings = settings.now;
          marks = false;
          keeps = Some true;
          later = false;
        })
        result.told result.pass }
{
    let mut port = Port::new(rt, gate, pass, clock);
    let mut backend = Patient {
        rt,
        alloc,
        gate,
        count: 0,
    };
    let mut source = Source {
        left: GET,
        most: usize::MAX,
        calls: 0,
        failing: Failing::Never,
    };
    let mut sink = Sink {
        calls: 0,
        failing: Failing::Never,
        taken: 0,
        first: [0; KEPT],
    };
    let policy = ExchangePolicy {
        marks: false,
        keeper: &true,
        is_later: false,
    };
    let mut memory = alloc;
    let served = exchange(
        &mut memory,
        &mut port,
        &mut backend,
        settings,
        &policy,
        &mut MonotonicClock::new(clock),
        &mut Counted::new(&mut source),
        &mut Counted::new(&mut sink),
    );
    Served {
        told: served.end(),
        pass: port.into_pass(),
    }
}

/// What came of both.
#[derive(Drop)]
struct Both {
    counters: Counters,
    first: ExchangeSummary,
    second: ExchangeSummary,
}

/// Two workers serve a client each, at the same time.
fn serve_both<L, M, R>(
    rt: &R,
    alloc: Global,
    gate: &SharedGate<L, M>,
    one: Pass<M>,
    two: Pass<M>,
) -> Both
where
    L: Limit + Send,
    M: GateNaming + Send + Sync,
    R: Threads + Wait + SystemClock + Abort + Sync,
    requires first { one ≡ pass_of 0 }
    requires second { two ≡ pass_of 0 }
    ensures { AreBothDecided L.rules M.making result.counters result.first result.second }
{
    let (first, second) = join(
        rt,
        move || -> Served<M>
            requires { one ≡ pass_of 0 }
            ensures { (p : Policy) × IsServed M.making p result.told result.pass }
        { serve_one(rt, alloc, gate, one) },
        move || -> Served<M>
            requires { two ≡ pass_of 0 }
            ensures { (p : Policy) × IsServed M.making p result.told result.pass }
        { serve_one(rt, alloc, gate, two) },
    );
    exchanges_are_one_threads::<L>();
    let mut passes = Vec::with_capacity(alloc, 2).expect(rt, "memory for passes");
    passes.push_reserved(first.pass);
    passes.push_reserved(second.pass);
    let Ok(counters) = gate.counters_of_all(rt, passes) else {
        rt.abort()
    };
    Both {
        counters,
        first: first.told,
        second: second.told,
    }
}

fn served_at<M, R>(rt: &R, alloc: Global, settings: &Settings, blanks: Blanks, word: LogLength)
where
    M: GateNaming + Send + Sync,
    R: Threads + Wait + SystemClock + Abort + Sync,
    requires names { AreNamed M.calls M.place blanks }
    requires parts { AreWhole blanks }
    requires word { word ≡ M.word }
    requires passes { M.passes ≡ 2 }
    requires making { M.making ≡ making_of 2 settings.now }
    requires sound { AreSound settings.now }
    requires legal { CallsLegal any_rules (journal_of 2 settings.now) M.legal }
{
    let made = open_gate::<M>(alloc, settings, 2, blanks, word, 2);
    let (gate, mut passes) = made.expect(rt, "memory for a gate");
    let two = passes.pop().expect(rt, "a pass");
    let one = passes.pop().expect(rt, "a pass");
    let both = serve_both(rt, alloc, &gate, one, two);
    check(rt, both.counters.admitted == 1);
    check(rt, both.counters.full == 1);
    check(rt, both.counters.success == 1);
    check(rt, is_admitted(&both.first) != is_admitted(&both.second));
    check(rt, is_full(&both.first) != is_full(&both.second));
}

fn is_admitted(told: &ExchangeSummary) -> bool {
    matches!(told.admission, Verdict::Admitted)
}

fn is_full(told: &ExchangeSummary) -> bool {
    matches!(told.admission, Verdict::Refused(Why::Full))
}

/// Two workers at a gate of these settings.
fn serve_at<R>(rt: &R, alloc: Global, settings: &Settings)
where
    R: Threads + Wait + SystemClock + Abort + Sync,
    requires sound { AreSound settings.now }
{
    let word = LogLength::new(alloc).expect(rt, "memory for a word");
    served_at::<Brand, R>(rt, alloc, settings, Blanks::new(), word);
}

#[test]
fn one_of_two_is_refused_while_the_other_is_inside(rt: HostRuntime) {
    let settings = read(rt.alloc(), ONE_AT_ONCE.as_bytes()).expect(&rt, "settings");
    serve_at(&rt, rt.alloc(), &settings);
}
