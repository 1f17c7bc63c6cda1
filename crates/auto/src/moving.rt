// How a window moves the limit.
ghost use Rattle.std.specs.Prelude.{◌≡◌, ◌≤◌, ◌*◌};
ghost use Rattle.auto.specs.Kept.{AreKept, IsKept};
ghost use Rattle.auto.specs.AutoRules.{added, fallen, half_way, is_calm, is_met, moved, queue};
ghost use Rattle.auto.specs.AutoRules.{raised, room, top, wanted, with_dip};

use crate::learned::Learned;
use crate::root::headroom_of;
use crate::window::Window;

impl Learned {
    /// The queue, times the answers of the window.
    pub(crate) fn queue(&self, window: &Window) -> u64
        requires window { IsKept window.now }
        requires some { 1 ≤ window.now.count }
        ensures value { result ≡ queue self.now window.now }
        ensures most { result ≤ window.now.held }
    {
        let mean = window.mean();
        let above = mean.saturating_sub(self.base);
        (u128::from(window.held) * u128::from(above) / u128::from(mean)) as u64
    }

    /// What a headroom is, times the answers of the window.
    fn room(&self, lo: u32, hi: u32, window: &Window) -> u64
        requires kept { AreKept lo hi self.now }
        requires window { IsKept window.now }
        ensures value { result ≡ room self.now window.now }
        ensures most { result ≤ 100 * window.now.count }
    {
        u64::from(headroom_of(self.limit)) * window.count
    }

    /// What a raise adds, where there is less queue than room.
    fn added(&self, lo: u32, hi: u32, window: &Window) -> u64
        requires kept { AreKept lo hi self.now }
        requires window { IsKept window.now }
        requires some { 1 ≤ window.now.count }
        ensures value { result ≡ added self.now window.now }
    {
        let missing = self.room(lo, hi, window).saturating_sub(self.queue(window));
        (missing * 2_u64.pow(self.pace) + window.count / 2) / window.count
    }

    /// What no raise goes above.
    fn top(&self, hi: u32) -> u32
        ensures { result ≡ top hi self.now }
    {
        if self.roof_left == 0 {
            hi
        } else {
            self.limit.max(self.roof)
        }
    }

    /// Raises the limit.
    fn raise(&mut self, lo: u32, hi: u32, window: &Window)
        requires kept { AreKept lo hi self.old }
        requires window { IsKept window.now }
        requires some { 1 ≤ window.now.count }
        ensures value { self.new ≡ raised hi self.old window.now }
        ensures kept { AreKept lo hi self.new }
        ensures window { self.new.window ≡ self.old.window }
    {
        let added = self.added(lo, hi, window);
        let step = added.min(u64::from(self.limit)) as u32;
        self.limit = self.top(hi).min(hi).min(self.limit + step);
        self.pace = if added == 0 {
            0
        } else {
            (self.pace + 1).min(4)
        };
    }

    /// What the limit falls to, half way.
    fn wanted(&self, lo: u32, hi: u32, window: &Window) -> u64
        requires kept { AreKept lo hi self.now }
        requires window { IsKept window.now }
        requires some { 1 ≤ window.now.count }
        ensures { result ≡ wanted self.now window.now }
    {
        let without = window.held - self.queue(window);
        (without + window.count / 2) / window.count + u64::from(headroom_of(self.limit))
    }

    /// Lowers the limit.
    fn fall(&mut self, lo: u32, hi: u32, window: &Window)
        requires kept { AreKept lo hi self.old }
        requires window { IsKept window.now }
        requires some { 1 ≤ window.now.count }
        ensures value { self.new ≡ fallen lo self.old window.now }
        ensures kept { AreKept lo hi self.new }
        ensures window { self.new.window ≡ self.old.window }
    {
        let wanted = self.wanted(lo, hi, window).min(u64::from(self.limit)) as u32;
        let next = half_way(self.limit, wanted).max(lo);
        if next < self.limit {
            self.limit = next;
            self.skip = window.most;
        }
        self.pace = 0;
    }

    /// Whether a window met the limit.
    fn is_met(&self, window: &Window) -> bool
        ensures { result ≡ is_met self.now window.now }
    {
        self.limit <= window.most
    }

    /// Moves the limit by the queue of a window.
    #[tactic(auto, unfolding(crate::specs::AutoRules::moved))]
    pub(crate) fn turn(&mut self, lo: u32, hi: u32, window: &Window)
        requires kept { AreKept lo hi self.old }
        requires window { IsKept window.now }
        requires some { 1 ≤ window.now.count }
        ensures value { self.new ≡ moved lo hi self.old window.now }
        ensures kept { AreKept lo hi self.new }
        ensures window { self.new.window ≡ self.old.window }
    {
        if self.queue(window) < self.room(lo, hi, window) {
            if self.is_met(window) {
                self.raise(lo, hi, window);
            }
        } else {
            self.fall(lo, hi, window);
        }
    }

    /// Whether a window that met the limit before had a queue, and didn't raise it.
    fn is_calm(&self, lo: u32, hi: u32, before: &Learned, window: &Window) -> bool
        requires before { AreKept lo hi before.now }
        requires window { IsKept window.now }
        requires some { 1 ≤ window.now.count }
        ensures { result ≡ is_calm before.now self.now window.now }
    {
        before.is_met(window)
            && self.limit <= before.limit
            && before.room(lo, hi, window) <= 2 * before.queue(window)
            && 1 < self.limit
    }

    /// Begins a dip, where enough windows were calm.
    pub(crate) fn dip(&mut self, lo: u32, hi: u32, before: &Learned, window: &Window)
        requires kept { AreKept lo hi self.old }
        requires before { AreKept lo hi before.now }
        requires window { IsKept window.now }
        requires some { 1 ≤ window.now.count }
        ensures value { self.new ≡ with_dip before.now self.old window.now }
        ensures kept { AreKept lo hi self.new }
        ensures window { self.new.window ≡ self.old.window }
    {
        if !self.is_calm(lo, hi, before, window) {
            return;
        }
        if self.every <= self.calm + 1 {
            self.calm = 0;
            self.in_dip = true;
            self.skip = window.most;
        } else {
            self.calm += 1;
        }
    }
}

/// Half way down to a lower limit.
pub(crate) fn half_way(limit: u32, to: u32) -> u32
    requires { to ≤ limit }
    ensures { result ≡ half_way limit to }
{
    limit - (limit - to).div_ceil(2)
}
