// Where a head ends among the bytes that a reader shows.
ghost use Rattle.std.specs.Prelude.{◌≡◌, ◌≤◌, ◌<◌, ◌+◌, [], length, take};
ghost use Rattle.message_reading.specs.FirstCuts.{HasBegun, IsKept, kept_of, spans_of};
ghost use Rattle.message_reading.specs.Progress.{lines_of, progress_of, room_of};

use crate::head_cut::{FirstCut, HeadCut, Kept, MOST_HEAD};
use crate::head_lines::FEW_LINES;
use crate::head_parts::HeadParts;
use crate::progress::Progress;
use counted_io::Cut;
use httparse::spans::EMPTY_HEADER_SPAN;

impl HeadCut {
    /// This was kept of the bytes so far, and a head may have so many more.
    pub(crate) fn new(progress: Progress, room: usize) -> HeadCut
        requires { lines_of progress + room ≤ 65536 }
        ensures progress { progress_of result ≡ progress }
        ensures room { room_of result ≡ room }
    {
        HeadCut { progress, room }
    }

    /// What is kept of the bytes so far.
    pub(crate) fn progress(&self) -> Progress
        ensures { result ≡ progress_of self.now }
    {
        self.progress
    }
}

/// All that the reader shows is wanted, through the head's end.
impl Cut for HeadCut {
    ghost use Rattle.message_reading.specs.Progress.{IsCut, progress_of, room_of};

    ghost room = { room_of };

    ghost wants = { λ old new piece. IsCut (progress_of old) (progress_of new) piece };

    fn cut(&mut self, shown: &[u8]) -> usize {
        let room = shown.len().min(self.room);
        let (progress, count) = self.progress.until_end(&shown[..room]);
        self.progress = progress;
        self.room -= count;
        count
    }
}

impl<P: HeadParts> FirstCut<P> {
    /// Nothing was read of the head.
    #[inline(always)]
    pub(crate) fn new() -> FirstCut<P>
        ensures { IsKept P.are_of (kept_of result) (spans_of result) [] }
    {
        FirstCut {
            spans: [EMPTY_HEADER_SPAN; FEW_LINES],
            kept: Kept::Begun(Progress::new()),
        }
    }
}

// What is kept of a head's first bytes up to its end among them, or of all, and how many it is.
#[cold]
#[inline(never)]
fn begin(shown: &[u8]) -> (Progress, usize)
    requires { length shown.now ≤ 65536 }
    ensures bound { result.1 ≤ length shown.now }
    ensures some { 0 < length shown.now → 0 < result.1 }
    ensures begun { HasBegun (take result.1 shown.now) result.0 }
{
    Progress::new().until_end(shown)
}

/// The head is wanted where the reader shows all of it. Else all that it shows is, through the
/// head's end.
impl<P: HeadParts> Cut for FirstCut<P> {
    ghost room = { λ _. 65536 };

    ghost wants = { λ _ new piece. IsKept P.are_of (kept_of new) (spans_of new) piece };

    fn cut(&mut self, shown: &[u8]) -> usize {
        let room = shown.len().min(MOST_HEAD);
        let (kept, len) = match P::find(&shown[..room], &mut self.spans) {
            Some((parts, len)) => (Kept::Whole(parts), len),
            None => {
                let (progress, len) = begin(&shown[..room]);
                (Kept::Begun(progress), len)
            }
        };
        self.kept = kept;
        len
    }
}
