// Bodies of a known length, and bodies that run to the reader's end.
ghost use Rattle.std.specs.Prelude.{◌≡◌, ◌<◌, ◌≤◌, ◌+◌, ◌⊎◌, ◌++◌, ℕ, List, [], length, drop};
ghost use Rattle.std.specs.Prelude.{IfErr, IfOk, OnErr, OnOk};
ghost use Rattle.counted_io.specs.Counted.{calls_of};
ghost use Rattle.counted_io.specs.Effects.{Gave, IfLeft};
ghost use Rattle.message_reading.specs.PlainBody.{all_of, sized_of};
ghost use Rattle.message_reading.specs.Holding.{Holds, Refuses};
ghost use Rattle.message_reading.specs.Reading.{By, Reads, ReadsBy};

use crate::byte::read_some;
use crate::fault::{Fault, MessageFault};
use body_memory::BodyMemory;
use counted_io::Counted;
use message_fields::MOST_BODY;
use std::io::BufRead;

/// Puts some of the next bytes behind those of `into`, at most `most` of them, and holds them: how
/// many, 0 where the reader is at its end. What was read is counted, at most what the reader shows
/// at once, and not what is announced.
///
/// The faults are those of `read_some`, and `Bodies`, where the memory refuses what was read; after
/// each of them `into` is as it was.
fn read_held<R: BufRead, M: BodyMemory>(
    memory: &mut M,
    reader: &mut Counted<R>,
    limit: u64,
    most: usize,
    into: &mut Vec<u8>,
) -> Result<usize, MessageFault>
    requires { 0 < most }
    ensures gave { IfOk result (λ n. (part : List ℕ) × (length part ≡ n)
        × (into.new.items ≡ into.old.items ++ part)
        × Gave R.remaining reader.old reader.new part) }
    ensures end { IfOk result (λ n. n ≡ 0
        → IfLeft R.remaining reader.old (λ left. left ≡ [])) }
    ensures fits { IfOk result (λ n. n ≤ most) }
    ensures unchanged { OnErr result (into.new.items ≡ into.old.items) }
    ensures faults { IfErr result (λ fault. (fault ≡ MessageFault.TurnLimit)
        ⊎ (fault ≡ MessageFault.Read) ⊎ (fault ≡ MessageFault.Memory)
        ⊎ (fault ≡ MessageFault.Bodies)) }
    ensures within { ReadsBy (Refuses (M.refused memory.old) (M.refused memory.new))
        limit result reader.old reader.new }
    ensures held { Holds (λ n. n) result (M.held memory.old) (M.held memory.new)
        (M.refused memory.old) (M.refused memory.new) }
    ensures goes_on { calls_of reader.old ≤ calls_of reader.new }
{
    let before = into.len();
    let count = read_some(reader, limit, most, into)?;
    if memory.hold(count).is_err() {
        into.truncate(before);
        return Err(MessageFault::Bodies);
    }
    Ok(count)
}

/// Puts the next `size` bytes behind `body`.
///
/// They are copied once, out of what the reader shows. After a fault nothing is said of how many of
/// them were put there.
pub(crate) fn fill<R: BufRead, M: BodyMemory>(
    memory: &mut M,
    reader: &mut Counted<R>,
    limit: u64,
    body: &mut Vec<u8>,
    size: usize,
) -> Result<(), MessageFault>
    ensures bytes { Reads R.remaining reader.old reader.new
        (λ _. drop (length body.old.items) body.new.items) (By (sized_of size)) result }
    ensures kept { body.new.items
        ≡ body.old.items ++ drop (length body.old.items) body.new.items }
    ensures length { OnOk result (length body.new.items ≡ length body.old.items + size) }
    ensures within { ReadsBy (Refuses (M.refused memory.old) (M.refused memory.new))
        limit result reader.old reader.new }
    ensures held { Holds (λ _. size) result (M.held memory.old) (M.held memory.new)
        (M.refused memory.old) (M.refused memory.new) }
    ensures goes_on { calls_of reader.old ≤ calls_of reader.new }
{
    let mut left = size;
    while left > 0 {
        let count = read_held(memory, reader, limit, left, body)?;
        if count == 0 {
            return Err(MessageFault::Bytes(Fault::Early));
        }
        left -= count;
    }
    Ok(())
}

/// A body of `size` bytes.
pub(crate) fn read_sized<R: BufRead, M: BodyMemory>(
    memory: &mut M,
    reader: &mut Counted<R>,
    limit: u64,
    size: usize,
) -> Result<Vec<u8>, MessageFault>
    ensures body { Reads R.remaining reader.old reader.new (λ body. body.items)
        (By (sized_of size)) result }
    ensures within { ReadsBy (Refuses (M.refused memory.old) (M.refused memory.new))
        limit result reader.old reader.new }
    ensures held { Holds (λ body. length body.items) result (M.held memory.old) (M.held memory.new)
        (M.refused memory.old) (M.refused memory.new) }
    ensures goes_on { calls_of reader.old ≤ calls_of reader.new }
{
    let mut body = Vec::new(memory.alloc());
    fill(memory, reader, limit, &mut body, size)?;
    Ok(body)
}

/// A body that runs to the reader's end, of at most 8,388,608 bytes.
pub(crate) fn read_to_end<R: BufRead, M: BodyMemory>(
    memory: &mut M,
    reader: &mut Counted<R>,
    limit: u64,
) -> Result<Vec<u8>, MessageFault>
    ensures body { Reads R.remaining reader.old reader.new (λ body. body.items)
        (By all_of) result }
    ensures within { ReadsBy (Refuses (M.refused memory.old) (M.refused memory.new))
        limit result reader.old reader.new }
    ensures held { Holds (λ body. length body.items) result (M.held memory.old) (M.held memory.new)
        (M.refused memory.old) (M.refused memory.new) }
    ensures goes_on { calls_of reader.old ≤ calls_of reader.new }
{
    let mut body = Vec::new(memory.alloc());
    loop {
        let room = MOST_BODY as usize - body.len();
        let count = read_held(memory, reader, limit, room + 1, &mut body)?;
        if count == 0 {
            return Ok(body);
        }
        if count > room {
            return Err(MessageFault::Bytes(Fault::BodyTooLarge));
        }
    }
}
