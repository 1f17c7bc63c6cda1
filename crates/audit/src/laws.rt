// Laws of verdicts and of histories. These functions do nothing: each is there for its contract.
ghost use Rattle.std.specs.Prelude.{List};
ghost use Rattle.limiter_core.specs.declared.event.Entry.{Entry};
ghost use Rattle.limiter_core.specs.History.{Gate};
ghost use Rattle.audit.specs.Permits.{HandsOutNamed, IsNamedByItself};
ghost use Rattle.audit.specs.Histories.{WholeHandsOutNamed, WholeIsMatchedPlainly};
ghost use Rattle.audit.specs.Verdict.{Audit, HasOneVerdict};

use limiter_core::soundness_is_kept;

/// Where memory suffices, an audit has one verdict: where a cause is the first that applies, no
/// other is, and some does.
pub fn one_verdict()
    ensures { (a : Audit) → HasOneVerdict a }
{}

/// Where no entry hands out a permit of a later number than its own, that an ending names an
/// earlier number follows from the permit's having been handed out.
pub fn handed_out_is_named()
    ensures { (entries : List Entry) → HandsOutNamed entries → IsNamedByItself entries }
{}

/// So it is in each legal history from the first entry on: a number that is granted is that of a
/// waiter, which came before.
pub fn legal_histories_hand_out_named<S>()
    ensures { (g : Gate S) → WholeHandsOutNamed g }
{
    soundness_is_kept::<S>();
}

/// So in such a history no entry is [`Cause::Unmatched`](crate::Cause::Unmatched) just where each
/// ending ends a permit that an earlier entry handed out with the same part, start and inflight, no
/// two endings name the same number, and no reply is that a number is lost.
pub fn legal_histories_are_matched_plainly<S>()
    ensures { (g : Gate S) → WholeIsMatchedPlainly g }
{
    soundness_is_kept::<S>();
}
