// The bytes of a head.
ghost use Rattle.std.specs.Prelude.{◌≡◌, ◌≤◌, ◌<◌, ◌-◌, ◌⊎◌, ◌++◌, ℕ, List, [], length, IsErrOf, IfErr, IfOk, OnErr, OnOk};
ghost use Rattle.counted_io.specs.Counted.{calls_of};
ghost use Rattle.counted_io.specs.Effects.{Gave, IfLeft};
ghost use Rattle.message_reading.specs.FirstCuts.{AreParts, kept_of, spans_of};
ghost use Rattle.message_reading.specs.Reading.{By, Reads, ReadsWithin, once_more};
ghost use Rattle.message_reading.specs.HeadBytes.{ends_head, head_behind, head_of, line_ends};
ghost use Rattle.message_reading.specs.Progress.{HeadPasses, IsProgress};

use crate::byte::read_wanted;
use crate::fault::{Fault, MessageFault};
use crate::head_cut::{FirstCut, HeadCut, Kept, MOST_HEAD};
use crate::head_parts::HeadParts;
use crate::progress::Progress;
use counted_io::Counted;
use std::alloc::Global;
use std::io::BufRead;
use std::marker::Model;

/// The greatest number of lines, the first and the empty one among them.
const MOST_LINES: usize = 102;

// The bytes of a head so far.
#[derive(Drop)]
struct Seen {
    bytes: Vec<u8>,
    progress: Progress,
}

impl Model for Seen {
    ghost use Rattle.std.specs.Prelude.{ℕ, List};
    ghost use Rattle.message_reading.specs.Progress.{IsProgress};

    ghost Value = { List ℕ };

    ghost view = { λ seen. seen.bytes.items };

    ghost invariant = { λ seen. IsProgress seen.bytes.items seen.progress };
}

impl Seen {
    // These bytes, of which this was kept.
    fn new(bytes: Vec<u8>, progress: Progress) -> Seen
        requires { IsProgress bytes.items progress }
        ensures { result ≡ bytes.items }
    {
        Seen { bytes, progress }
    }

    // Adds the next bytes that the reader shows, up to a head's end.
    fn read_on<R: BufRead>(
        &mut self,
        reader: &mut Counted<R>,
        limit: u64,
    ) -> Result<(), MessageFault>
        requires { length self.old < 65536 }
        ensures gave { OnOk result ((part : List ℕ) × (0 < length part)
            × (length part ≤ 65536 - length self.old) × (self.new ≡ self.old ++ part)
            × Gave R.remaining reader.old reader.new part × HeadPasses self.old part) }
        ensures faults { IfErr result (λ fault. (fault ≡ MessageFault.TurnLimit)
            ⊎ (fault ≡ MessageFault.Read) ⊎ (fault ≡ MessageFault.Memory)
            ⊎ (fault ≡ MessageFault.Bytes Fault.Early)) }
        ensures early { IsErrOf result (MessageFault.Bytes Fault.Early)
            → IfLeft R.remaining reader.old (λ left. left ≡ []) }
        ensures within { ReadsWithin limit result reader.old reader.new }
        ensures reads { once_more limit (calls_of reader.old) ≤ calls_of reader.new }
    {
        let mut cut = HeadCut::new(self.progress, MOST_HEAD - self.bytes.len());
        read_wanted(reader, limit, &mut cut, &mut self.bytes)?;
        self.progress = cut.progress();
        Ok(())
    }

    fn ends(&self) -> bool
        ensures { result ≡ ends_head self.now }
    {
        self.progress.ends()
    }

    fn len(&self) -> usize
        ensures { result ≡ length self.now }
    {
        self.bytes.len()
    }

    // The bytes, unless they have too many lines.
    fn into_head(self) -> Result<Vec<u8>, MessageFault>
        ensures head { IfOk result (λ head. head.items ≡ self) }
        ensures lines { OnOk result (line_ends self ≤ 102) }
        ensures fault { IfErr result (λ fault. fault ≡ MessageFault.Bytes Fault.HeadTooLarge) }
        ensures too_large { OnErr result (102 < line_ends self) }
    {
        if self.progress.lines() > MOST_LINES {
            return Err(MessageFault::Bytes(Fault::HeadTooLarge));
        }
        Ok(self.bytes)
    }
}

// The rest of a head behind its first bytes, of which this was kept.
#[cold]
#[inline(never)]
fn read_rest<R: BufRead>(
    reader: &mut Counted<R>,
    limit: u64,
    bytes: Vec<u8>,
    progress: Progress,
) -> Result<Vec<u8>, MessageFault>
    requires fits { length bytes.items ≤ 65536 }
    requires progress { IsProgress bytes.items progress }
    ensures head { Reads R.remaining reader.old reader.new (λ head. head.items)
        (By (head_behind bytes.items)) result }
    ensures lines { IfOk result (λ head. line_ends head.items ≤ 102) }
    ensures within { ReadsWithin limit result reader.old reader.new }
    ensures goes_on { calls_of reader.old ≤ calls_of reader.new }
{
    let mut seen = Seen::new(bytes, progress);
    while !seen.ends() {
        if seen.len() == MOST_HEAD {
            return Err(MessageFault::Bytes(Fault::HeadTooLarge));
        }
        seen.read_on(reader, limit)?;
    }
    seen.into_head()
}

/// The bytes of a head through its empty line, those of empty lines before it included, with its
/// parts where the reader shows all of it at first.
///
/// At most 65,536 bytes and, between the first line and the empty one, 100 lines; more is
/// `HeadTooLarge`.
pub(crate) fn read_head<R: BufRead, P: HeadParts>(
    alloc: Global,
    reader: &mut Counted<R>,
    limit: u64,
    first: &mut FirstCut<P>,
) -> Result<Vec<u8>, MessageFault>
    ensures head { Reads R.remaining reader.old reader.new (λ head. head.items)
        (By head_of) result }
    ensures lines { IfOk result (λ head. line_ends head.items ≤ 102) }
    ensures parts { IfOk result (λ head.
        AreParts P.are_of (kept_of first.new) (spans_of first.new) head.items) }
    ensures within { ReadsWithin limit result reader.old reader.new }
    ensures reads { once_more limit (calls_of reader.old) ≤ calls_of reader.new }
{
    let mut bytes = Vec::new(alloc);
    read_wanted(reader, limit, first, &mut bytes)?;
    match first.kept {
        Kept::Whole(_) => Ok(bytes),
        Kept::Begun(progress) => read_rest(reader, limit, bytes, progress),
    }
}
