// What the inner algorithm learns from.
ghost use Rattle.windowed.specs.Windows.{CutsIntoWindows, InnerRunsOverWindows};
ghost use Rattle.windowed.specs.Learning.{CutsFromAnyMoment, LearnsFromEachWindow, LearnsNothingFromFew};

use limit_laws::Limit;

/// Every list of samples and settings is cut into windows and a rest.
pub fn cuts_into_windows()
    ensures { CutsIntoWindows }
{}

/// From the first state on, the inner algorithm is where its own run over the mean samples of the
/// windows leads, with the settings between them in their order.
pub fn inner_runs_over_windows<L: Limit>()
    ensures { InnerRunsOverWindows L.rules }
{}

/// Over samples alone, from the end of any window on: where each of the windows that come has at
/// least `size` samples, the inner algorithm learns from the mean sample of each; where none has,
/// it learns nothing, and its limit stays, be it the least.
pub fn learns_from_windows_with_enough<L: Limit>()
    ensures cuts { CutsFromAnyMoment }
    ensures each { LearnsFromEachWindow L.rules }
    ensures none { LearnsNothingFromFew L.rules }
{}
