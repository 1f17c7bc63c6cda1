// The headline, and what a pass promises. The functions do nothing: they are there for their
// contracts.
ghost use Rattle.limiter_core.specs.History.{Gate};
ghost use Rattle.shared_gate.specs.Headline.{AcceptedIsOneThreads};
ghost use Rattle.shared_gate.specs.Running.{RunningIsOneThreads};
ghost use Rattle.shared_gate.specs.Seen.{OrderIsNeverTheCause, ReceiptsOfAPassRise};

use limiter_core::turned_away_only_when_full;

/// The headline: where an audit is accepted, the history is one that one thread might have made,
/// each receipt has the reply of the sequential limiter at its number, nobody below a share was
/// refused or queued, and each caller's calls stand once and in the caller's order.
///
/// [`SharedGate::close`](crate::SharedGate::close) promises the premises of every gate that it
/// accepts, whatever the algorithm and however its threads were interleaved.
pub fn accepted_histories_are_one_threads<S>()
    ensures { (g : Gate S) → AcceptedIsOneThreads g }
{
    turned_away_only_when_full::<S>();
}

/// The headline of a gate that serves, with no audit and however often it has rolled: the longest
/// log that its passes know is one that one thread might have made; each receipt of the passes
/// stands in it at its number and has the sequential limiter's reply there, nobody below a share
/// was refused or queued, and each pass's receipts are in order. The function does nothing: it is
/// there for its contract.
///
/// Each call of [`SharedGate`](crate::SharedGate) promises the premise of it for its receipts,
/// [`gather`](crate::SharedGate::gather) and [`told`](crate::SharedGate::told) that of the log, and
/// [`Pass::legal`](crate::Pass::legal) that it is what the gate's maker calls legal. What an audit
/// adds is that nothing is missing: each call of the log is on just one receipt that was kept.
pub fn running_gates_are_one_threads<S>()
    ensures { (g : Gate S) → RunningIsOneThreads g }
{
    turned_away_only_when_full::<S>();
}

/// What a pass promises over a list of its calls: the numbers of its receipts rise strictly, also
/// where the gate rolls and no audit can say so; and no audit ever fails for the order of lists
/// that were kept in the order of one pass's calls. The function does nothing: it is there for its
/// contract.
///
/// Each call of [`SharedGate`](crate::SharedGate) promises the premise of it for its receipts.
pub fn receipts_of_a_pass_rise()
    ensures rise { ReceiptsOfAPassRise }
    ensures order { OrderIsNeverTheCause }
{}
