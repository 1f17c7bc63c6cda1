// What a backend that sheds tells by its quick drops.
ghost use Rattle.std.specs.Prelude.{◌≡◌, ◌≤◌, ◌<◌, false, true};
ghost use Rattle.limit_laws.specs.Algorithm.{greatest_limit};
ghost use Rattle.auto.specs.Kept.{most_answers, AreKept, IsKept};
ghost use Rattle.auto.specs.AutoRules.{ends_early, learn, looked, roof_windows, served as served_lem};
ghost use Rattle.auto.specs.AutoRules.{shed, shown, window_over};

use crate::learned::Learned;
use crate::moving::half_way;
use crate::root::headroom_of;
use crate::window::{MOST_DROPS, Window};
use limit_laws::Sample;

/// What the answers of a window found in flight on average, rounded up.
fn served(lo: u32, window: &Window) -> u64
    requires window { IsKept window.now }
    requires some { 1 ≤ window.now.count }
    ensures { result ≡ served_lem lo window.now }
{
    let mean = (window.held + (window.count - 1)) / window.count;
    mean.max(u64::from(lo))
}

impl Learned {
    /// For how many windows no raise goes above what was served.
    fn roof_windows(&self, lo: u32, hi: u32, to: u32) -> u32
        requires kept { AreKept lo hi self.now }
        requires to { to ≤ greatest_limit }
        ensures value { result ≡ roof_windows self.now to }
        ensures most { result ≤ 64 }
    {
        if to <= self.roof && self.roof <= to + headroom_of(self.limit) {
            (4 * self.roof_every).min(64)
        } else {
            4
        }
    }

    /// Lowers the limit half way to what was served.
    fn shed(&mut self, lo: u32, hi: u32, served: u32)
        requires kept { AreKept lo hi self.old }
        requires least { lo ≤ served }
        requires less { served ≤ self.old.limit }
        ensures value { self.new ≡ shed self.old served }
        ensures kept { AreKept lo hi self.new }
        ensures window { self.new.window ≡ self.old.window }
    {
        let windows = self.roof_windows(lo, hi, served);
        self.pace = 0;
        self.skip = self.limit;
        self.roof = served;
        self.roof_left = windows;
        self.roof_every = windows;
        self.limit = half_way(self.limit, served);
    }

    /// Looks at a window, outside a dip.
    #[tactic(auto, unfolding(crate::specs::AutoRules::looked))]
    fn look(&mut self, lo: u32, hi: u32, early: bool, window: &Window)
        requires kept { AreKept lo hi self.old }
        requires window { IsKept window.now }
        requires some { 1 ≤ window.now.count }
        ensures value { self.new ≡ looked lo hi early self.old window.now }
        ensures kept { AreKept lo hi self.new }
        ensures window { self.new.window ≡ self.old.window }
    {
        let served = served(lo, window);
        if window.is_shed() && served < u64::from(self.limit) {
            self.shed(lo, hi, served as u32);
        } else if !early {
            let before = *self;
            self.turn(lo, hi, window);
            self.dip(lo, hi, &before, window);
        }
    }

    /// Ends a window, early where drops did it.
    #[tactic(auto, unfolding(crate::specs::AutoRules::window_over))]
    fn end_window(&mut self, lo: u32, hi: u32, early: bool)
        requires kept { AreKept lo hi self.old }
        requires some { 1 ≤ self.old.window.count }
        ensures value { self.new ≡ window_over lo hi early self.old }
        ensures kept { AreKept lo hi self.new }
        ensures emptied { self.new.window.count ≡ 0 }
    {
        let limit = self.shown(lo, hi);
        let window = self.close(lo, hi);
        let mean = window.mean();
        if self.in_dip {
            self.end_dip(lo, hi, limit, mean);
            return;
        }
        self.take_base(lo, hi, mean);
        self.roof_left = self.roof_left.saturating_sub(1);
        self.look(lo, hi, early, &window);
    }

    /// Whether drops end the window early.
    #[tactic(auto, unfolding(crate::specs::AutoRules::ends_early))]
    fn ends_early(&self, lo: u32, hi: u32) -> bool
        requires kept { AreKept lo hi self.now }
        ensures value { result ≡ ends_early (shown lo hi self.now) self.now }
        ensures some { result ≡ true → 1 ≤ self.now.window.count }
    {
        let window = self.window;
        0 < window.count
            && window.is_shed()
            && self.needed(self.shown(lo, hi)) + 6 <= 3 * window.drops
            && window.held / window.count < u64::from(self.limit)
    }

    /// Counts a drop, where it was quick.
    fn take_drop(&mut self, lo: u32, hi: u32, sample: &Sample)
        requires kept { AreKept lo hi self.old }
        requires room { self.old.window.count < most_answers }
        requires dropped { sample.now.dropped ≡ true }
        ensures value { self.new ≡ learn lo hi self.old sample.now }
        ensures kept { AreKept lo hi self.new }
        ensures room { self.new.window.count < most_answers }
    {
        if self.in_dip
            || self.skip != 0
            || self.base <= 2 * sample.rtt()
            || MOST_DROPS <= self.window.drops
        {
            return;
        }
        self.window.add_drop(sample);
        if self.ends_early(lo, hi) {
            self.end_window(lo, hi, true);
        }
    }

    /// Counts an answer, where none are left out.
    fn take_answer(&mut self, lo: u32, hi: u32, sample: &Sample)
        requires kept { AreKept lo hi self.old }
        requires room { self.old.window.count < most_answers }
        requires answered { sample.now.dropped ≡ false }
        ensures value { self.new ≡ learn lo hi self.old sample.now }
        ensures kept { AreKept lo hi self.new }
        ensures room { self.new.window.count < most_answers }
    {
        let last = self.last;
        self.last = sample.rtt();
        if self.skip != 0 {
            self.skip -= 1;
            return;
        }
        self.window.add(last, sample);
        if self.needed(self.shown(lo, hi)) <= self.window.count {
            self.end_window(lo, hi, false);
        }
    }

    /// Learns from a sample.
    pub(crate) fn learn(&mut self, lo: u32, hi: u32, sample: &Sample)
        requires kept { AreKept lo hi self.old }
        requires room { self.old.window.count < most_answers }
        ensures value { self.new ≡ learn lo hi self.old sample.now }
        ensures kept { AreKept lo hi self.new }
        ensures room { self.new.window.count < most_answers }
    {
        if sample.dropped() {
            self.take_drop(lo, hi, sample);
        } else {
            self.take_answer(lo, hi, sample);
        }
    }
}
