// What an operator may rely on.
ghost use Rattle.aimd.specs.Falls.{DecreasesToTheGreatest, FallsByTheRatioAtMost, FallsNoFasterThanDrops};
ghost use Rattle.aimd.specs.Rises.{RisesByOneASample};

/// A drop leaves the greatest m with `1000 * m <= limit * ratio`: this m has it, and m + 1 has not.
pub fn decreases_to_the_greatest()
    ensures { DecreasesToTheGreatest }
{}

/// However a sample was, the next limit is at least each m with `1000 * m <= limit * ratio`.
pub fn falls_by_the_ratio_at_most()
    ensures { FallsByTheRatioAtMost }
{}

/// After any samples the limit is at least what as many drops would leave of it.
pub fn falls_no_faster_than_drops()
    ensures { FallsNoFasterThanDrops }
{}

/// After n samples that weren't dropped and took no longer than the timeout, each of which found at
/// least half of the limit in use, the limit is n higher, or at the greatest.
pub fn rises_by_one_a_sample()
    ensures { RisesByOneASample }
{}
