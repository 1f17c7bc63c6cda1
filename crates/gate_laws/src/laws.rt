// Laws of a gate that threads share. These functions do nothing: each is there for its contract.
ghost use Rattle.limit_laws.specs.Algorithm.{Algorithm};
ghost use Rattle.limiter_core.specs.History.{Gate};
ghost use Rattle.gate_laws.specs.Balance.{ReportsBalance};
ghost use Rattle.gate_laws.specs.Exchanges.{ExchangesAreOneThreads};
ghost use Rattle.gate_laws.specs.Recovery.{RecoversAtTheBase};

use limit_kinds::BaseLimit;
use limiter_core::no_waiter_with_room_is_left;
use shared_gate::running_gates_are_one_threads;
use vegas::rises_at_the_base;
use windowed::learns_from_windows_with_enough;

/// Each exchange is one thread's: in every legal log that begins with what its port knows behind
/// it, the calls by which its request was let through or refused stand at their numbers, each with
/// the sequential limiter's reply there. Who was refused as full or made to wait found the limit in
/// use and its share taken; who waited in vain had no room, where all are promoted; and a permit
/// that was got was ended, behind that, by the outcome of the backend's answer.
///
/// `proxy::exchange` promises the premise over a port that knows a log, as those of a shared gate
/// do; that the log is legal is promised by what is told of the gate, as by
/// [`SharedGate::counters_of_all`](shared_gate::SharedGate::counters_of_all).
pub fn exchanges_are_one_threads<S>()
    ensures { (g : Gate S) → ExchangesAreOneThreads g }
{
    running_gates_are_one_threads::<S>();
    no_waiter_with_room_is_left::<S>();
}

/// Every report of a gate is balanced: what was admitted and promoted was ended or is in flight,
/// and who began to wait was promoted, gave up in vain, or waits.
pub fn reports_balance<S>()
    ensures { (rules : Algorithm S) → ReportsBalance rules }
{}

/// A limit comes back: where a window of Vegas has just ended, and nobody sets or resets the limit,
/// the limit of the log after k more windows, each with enough samples, at the base and with half
/// of the limit in use, is k higher, or the greatest.
pub fn limits_recover_at_the_base()
    ensures { RecoversAtTheBase }
{
    learns_from_windows_with_enough::<BaseLimit>();
    rises_at_the_base();
}
