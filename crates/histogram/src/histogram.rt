// Histograms of times.
ghost use Rattle.std.specs.Prelude.{◌≡◌, ◌<◌, ℕ, List, [], ◌∷◌, length, set, slice_index};
ghost use Rattle.histogram.specs.Histogram.{IsHistogramOf, bounds, one_more};

/// How many buckets a histogram has.
const BUCKETS: usize = 14;

/// The greatest time of each bucket, in nanoseconds.
const BOUNDS: [u64; BUCKETS] = [
    500_000,
    1_000_000,
    2_500_000,
    5_000_000,
    10_000_000,
    25_000_000,
    50_000_000,
    100_000_000,
    250_000_000,
    500_000_000,
    1_000_000_000,
    2_500_000_000,
    5_000_000_000,
    10_000_000_000,
];

/// Times that were noted, in nanoseconds: how many of them were at most each of fourteen bounds,
/// from half a millisecond to ten seconds. It takes no memory.
#[derive(Clone, Copy)]
pub struct Histogram {
    /// How many were at most each bound, by rising bounds. A count stays at `u64::MAX`.
    pub counts: [u64; BUCKETS],
    /// How many there were; it stays there too.
    pub count: u64,
    /// Their sum, which stays there too: after 584 years.
    pub sum: u64,
}

impl Histogram {
    /// No time was noted.
    pub fn new() -> Histogram
        ensures { IsHistogramOf [] result }
    {
        Histogram {
            counts: [0; BUCKETS],
            count: 0,
            sum: 0,
        }
    }

    /// Notes a time, in nanoseconds: those that were noted are one more.
    pub fn note(&mut self, time: u64)
        ensures { (times : List ℕ) → IsHistogramOf times self.old
            → IsHistogramOf (time ∷ times) self.new }
    {
        note_in(&mut self.counts, time);
        self.count = self.count.saturating_add(1);
        self.sum = self.sum.saturating_add(time);
    }
}

/// Notes a time in each bucket.
fn note_in(counts: &mut [u64; BUCKETS], time: u64)
    ensures { (place : ℕ) → place < length bounds → slice_index counts.new place
        ≡ one_more time (slice_index bounds place) (slice_index counts.old place) }
{
    for place in 0..BUCKETS {
        note_at(counts, place, time);
    }
}

/// Notes a time in the bucket at a place.
fn note_at(counts: &mut [u64; BUCKETS], place: usize, time: u64)
    requires { place < length bounds }
    ensures { counts.new ≡ set counts.old place
        (one_more time (slice_index bounds place) (slice_index counts.old place)) }
{
    let is_within = time <= BOUNDS[place];
    counts[place] = counts[place].saturating_add(u64::from(is_within));
}
