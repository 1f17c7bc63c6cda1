// What is gathered of answers until the limit is looked at again.
ghost use Rattle.std.specs.Prelude.{◌≡◌, ◌≤◌, ◌<◌};
ghost use Rattle.limit_laws.specs.Facts.{hour};
ghost use Rattle.auto.specs.Window.{empty, with_answer, with_drop};
ghost use Rattle.auto.specs.Kept.{most_answers, most_drops, IsKept};
ghost use Rattle.auto.specs.AutoRules.{is_shed, mean, roughness};

use limit_laws::Sample;

/// So many drops of a window are counted.
pub(crate) const MOST_DROPS: u64 = 1_000_000;

/// The totals of some answers, and of the quick drops among them. Times are in nanoseconds.
#[derive(Clone, Copy)]
pub(crate) struct Window {
    /// How many answers.
    pub(crate) count: u64,
    /// Their round trips together.
    pub(crate) sum: u64,
    /// What was in flight when each of them was sent, together.
    pub(crate) held: u64,
    /// The most that was in flight when one was sent.
    pub(crate) most: u32,
    /// How far each was from the one before, together.
    pub(crate) steps: u64,
    /// How many quick drops.
    pub(crate) drops: u64,
    /// What was in flight when each of these was sent, together.
    pub(crate) drops_held: u64,
}

impl Window {
    /// The window without answers.
    pub(crate) fn empty() -> Window
        ensures { result ≡ empty }
    {
        Window {
            count: 0,
            sum: 0,
            held: 0,
            most: 0,
            steps: 0,
            drops: 0,
            drops_held: 0,
        }
    }

    /// With one more answer, which came behind a round trip of `last` nanoseconds; 0 for the first.
    pub(crate) fn add(&mut self, last: u64, sample: &Sample)
        requires kept { IsKept self.old }
        requires room { self.old.count < most_answers }
        requires last { last ≤ hour }
        ensures value { self.new ≡ with_answer self.old last sample.now }
        ensures kept { IsKept self.new }
    {
        let rtt = sample.rtt();
        self.count += 1;
        self.sum += rtt;
        self.held += u64::from(sample.inflight());
        self.most = self.most.max(sample.inflight());
        if last != 0 {
            self.steps += rtt.abs_diff(last);
        }
    }

    /// With one more quick drop.
    pub(crate) fn add_drop(&mut self, sample: &Sample)
        requires kept { IsKept self.old }
        requires room { self.old.drops < most_drops }
        ensures value { self.new ≡ with_drop self.old sample.now }
        ensures kept { IsKept self.new }
    {
        self.drops += 1;
        self.drops_held += u64::from(sample.inflight());
    }

    /// The mean round trip.
    pub(crate) fn mean(&self) -> u64
        requires some { 1 ≤ self.now.count }
        requires kept { IsKept self.now }
        ensures value { result ≡ mean self.now }
        ensures least { 1 ≤ result }
        ensures most { result ≤ hour }
    {
        self.sum / self.count
    }

    /// How much the answers differ, of 1,024 at most twice.
    pub(crate) fn roughness(&self) -> u32
        requires some { 1 ≤ self.now.count }
        requires kept { IsKept self.now }
        ensures value { result ≡ roughness self.now }
        ensures most { result ≤ 2048 }
    {
        (u128::from(self.steps) * 1_024 / u128::from(self.sum)).min(2_048) as u32
    }

    /// Whether the backend sheds.
    #[tactic(auto, unfolding(crate::specs::AutoRules::is_shed))]
    pub(crate) fn is_shed(&self) -> bool
        requires { IsKept self.now }
        ensures { result ≡ is_shed self.now }
    {
        3 <= self.drops
            && self.count < 3 * self.drops
            && u128::from(self.held) * u128::from(self.drops)
                < u128::from(self.drops_held) * u128::from(self.count)
    }
}
