// What a client sends behind its answer.
use crate::connection::{Connection, Lent};
use crate::ends::Inlet;
use crate::reading::TimedReader;
use crate::uninterrupted::Uninterrupted;
use clocks::Clock;
use std::io::Read;
use std::time::Duration;

/// How long a client may go on sending behind its answer, in nanoseconds.
const LONGEST_NS: u64 = 2_000_000_000;

/// How many reads that may take.
const MOST_READS: u32 = 65_536;

/// An answer of so many bytes is on its way with the first window: nobody waits for it to be taken.
const ON_ITS_WAY: u64 = 8_192;

/// Where a client was answered and has sent more than was read, which `is_unread` may tell already,
/// or may still, or hasn't taken its answer: ends what is written to it, and then reads and drops
/// what it still sends, up to its end or for so many nanoseconds, two seconds at most. A connection
/// that is closed with bytes unread, or before what comes is read, is reset, and the client may
/// lose the answer with it (RFC 9112, section 9.6). Until it has taken its answer is waited for as
/// long at most, where more than some kilobytes were `sent`. The end comes back as its last read
/// left it.
pub fn linger<T: Connection, I: Inlet<T>, C: Clock>(
    stream: &T,
    from: I,
    clock: &C,
    most_ns: u64,
    is_unread: bool,
    sent: u64,
) -> I {
    let most_ns = most_ns.min(LONGEST_NS);
    if (is_unread || has_more(stream, most_ns, sent)) && stream.finish().is_ok() {
        return drop_rest(stream, from, clock, most_ns);
    }
    from
}

/// Whether the client hasn't taken its answer after so many nanoseconds, or sends more before it
/// has.
fn has_more<T: Connection>(stream: &T, most_ns: u64, sent: u64) -> bool {
    sent > ON_ITS_WAY && stream.is_behind(Duration::from_nanos(most_ns)) || stream.has_unread()
}

/// Reads and drops what comes, up to its end or for so many nanoseconds.
fn drop_rest<T: Connection, I: Inlet<T>, C: Clock>(
    stream: &T,
    from: I,
    clock: &C,
    most_ns: u64,
) -> I {
    let timed = TimedReader::new(Lent::new(stream, from), clock, most_ns);
    let mut reader = Uninterrupted::new(timed);
    let mut dropped = [0u8; 4096];
    for _ in 0..MOST_READS {
        match reader.read(&mut dropped) {
            Ok(0) | Err(_) => break,
            Ok(_) => {}
        }
    }
    reader.into_inner().into_inner().into_end()
}
