// What is known of a backend.
ghost use Rattle.std.specs.Prelude.{◌≡◌, ◌≤◌};
ghost use Rattle.limit_laws.specs.Facts.{hour};
ghost use Rattle.limit_laws.specs.Algorithm.{greatest_limit};
ghost use Rattle.auto.specs.Kept.{most_answers, AreKept};
ghost use Rattle.auto.specs.AutoRules.{closed, dip_over, has_moved, low, needed, shown, unlearned};
ghost use Rattle.auto.specs.AutoRules.{with_base};

use crate::root::headroom_of;
use crate::window::Window;

/// What a limit has learned. Limits are in permits, times in nanoseconds.
#[derive(Clone, Copy)]
pub struct Learned {
    /// The limit, outside a dip.
    pub(crate) limit: u32,
    /// What an answer takes without a queue; 0 where it isn't known.
    pub(crate) base: u64,
    /// The limit under which the base was measured; 0 where there was none.
    pub(crate) base_limit: u32,
    /// Whether the limit is low for a moment, so that the base is measured.
    pub(crate) in_dip: bool,
    /// How many windows were full since the last dip without a raise.
    pub(crate) calm: u32,
    /// How many of these come to a dip.
    pub(crate) every: u32,
    /// By how many doublings a raise is more than what is missing.
    pub(crate) pace: u32,
    /// How much answers differ: the mean step from one to the next over their mean, times 1,024.
    pub(crate) rough: u32,
    /// How many answers are still left out.
    pub(crate) skip: u32,
    /// The last round trip; 0 where there was none.
    pub(crate) last: u64,
    /// What a raise doesn't go above while the backend sheds.
    pub(crate) roof: u32,
    /// For how many windows more.
    pub(crate) roof_left: u32,
    /// For how many windows it was set.
    pub(crate) roof_every: u32,
    /// The answers since the last look.
    pub(crate) window: Window,
    /// The window that was looked at last, without answers where there was none.
    pub(crate) ended: Window,
}

impl Learned {
    /// Nothing yet, at this limit.
    pub(crate) fn none(first: u32) -> Learned
        ensures { result ≡ unlearned first }
    {
        Learned {
            limit: first,
            base: 0,
            base_limit: 0,
            in_dip: false,
            calm: 0,
            every: 1,
            pace: 4,
            rough: 0,
            skip: 0,
            last: 0,
            roof: 0,
            roof_left: 0,
            roof_every: 4,
            window: Window::empty(),
            ended: Window::empty(),
        }
    }

    /// The limit in a dip.
    #[tactic(auto, unfolding(crate::specs::AutoRules::low))]
    fn low(&self) -> u32
        requires least { 1 ≤ self.now.limit }
        requires most { self.now.limit ≤ greatest_limit }
        ensures value { result ≡ low self.now }
        ensures most { result ≤ greatest_limit }
    {
        let headroom = headroom_of(self.limit);
        let down = headroom + (headroom + 1) / 2;
        let below = self.limit.saturating_sub(down).max(1);
        if self.every == 1 {
            below.min((self.limit / 2).max(1))
        } else {
            below
        }
    }

    /// The limit that callers see.
    pub(crate) fn shown(&self, lo: u32, hi: u32) -> u32
        requires kept { AreKept lo hi self.now }
        ensures value { result ≡ shown lo hi self.now }
        ensures most { result ≤ greatest_limit }
    {
        let limit = if self.in_dip { self.low() } else { self.limit };
        limit.max(lo).min(hi)
    }

    /// How many answers end a window under this limit.
    #[tactic(auto, unfolding(crate::specs::AutoRules::needed))]
    pub(crate) fn needed(&self, limit: u32) -> u64
        requires limit { limit ≤ greatest_limit }
        requires rough { self.now.rough ≤ 2048 }
        ensures value { result ≡ needed limit self.now }
        ensures most { result ≤ most_answers }
    {
        let rough = u64::from(self.rough);
        let weight = if self.in_dip { 16 } else { 8 };
        let part = (weight * (rough * rough)).max(1_048_576);
        (u64::from(limit) * part / 1_048_576).max(2)
    }

    /// Ends the window, and gives it.
    pub(crate) fn close(&mut self, lo: u32, hi: u32) -> Window
        requires kept { AreKept lo hi self.old }
        requires some { 1 ≤ self.old.window.count }
        ensures value { self.new ≡ closed self.old }
        ensures window { result ≡ self.old.window }
        ensures kept { AreKept lo hi self.new }
    {
        let window = self.window;
        self.rough = (7 * self.rough + window.roughness()) / 8;
        self.window = Window::empty();
        self.ended = window;
        window
    }

    /// Whether the base moved by more than the headroom stands for.
    fn has_moved(&self, lo: u32, hi: u32, mean: u64) -> bool
        requires kept { AreKept lo hi self.now }
        requires mean { mean ≤ hour }
        ensures { result ≡ has_moved self.now mean }
    {
        let headroom = u64::from(headroom_of(self.limit));
        self.base == 0 || self.base * headroom < mean.abs_diff(self.base) * u64::from(self.limit)
    }

    /// Ends a dip under this limit, whose mean round trip is the base.
    #[tactic(auto, unfolding(crate::specs::AutoRules::dip_over))]
    pub(crate) fn end_dip(&mut self, lo: u32, hi: u32, limit: u32, mean: u64)
        requires kept { AreKept lo hi self.old }
        requires mean { mean ≤ hour }
        requires limit { limit ≤ greatest_limit }
        ensures value { self.new ≡ dip_over limit self.old mean }
        ensures kept { AreKept lo hi self.new }
        ensures window { self.new.window ≡ self.old.window }
    {
        self.every = if self.has_moved(lo, hi, mean) {
            1
        } else {
            (4 * self.every).min(64)
        };
        self.in_dip = false;
        self.base = mean;
        self.base_limit = limit;
        self.calm = 0;
    }

    /// Takes a mean round trip as the base, where it is one.
    pub(crate) fn take_base(&mut self, lo: u32, hi: u32, mean: u64)
        requires kept { AreKept lo hi self.old }
        requires mean { mean ≤ hour }
        ensures value { self.new ≡ with_base self.old mean }
        ensures kept { AreKept lo hi self.new }
        ensures window { self.new.window ≡ self.old.window }
    {
        if self.base == 0 || self.limit <= self.base_limit || 2 * mean < self.base {
            self.base = mean;
            self.base_limit = if self.base_limit == 0 {
                self.limit
            } else {
                self.base_limit.min(self.limit)
            };
            self.every = 1;
            self.calm = 0;
        }
    }
}
