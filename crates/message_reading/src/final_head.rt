// The head of a response, behind the interim ones.
ghost use Rattle.std.specs.Prelude.{◌≡◌, ◌≤◌, IfOk};
ghost use Rattle.counted_io.specs.Counted.{calls_of};
ghost use Rattle.message_reading.specs.Reading.{Reads, ReadsWithin, once_more};
ghost use Rattle.message_reading.specs.Heads.{IsFinalHead, IsResponseHead, behind, is_final, is_interim};

use crate::fault::{Fault, MessageFault};
use crate::head_bytes::read_head;
use crate::head_cut::{FirstCut, Kept};
use crate::response_head::{ResponseHead, head_at, parse_response};
use counted_io::Counted;
use std::alloc::Global;
use std::io::BufRead;

/// How many interim responses may come before the final one.
const MOST_INTERIM: u8 = 16;

// The head of a response, be it interim or final, and nothing behind it.
#[tactic(auto, using(crate::proofs::JoinedPhases::response_steps))]
fn read_response_head<R: BufRead>(
    alloc: Global,
    reader: &mut Counted<R>,
    limit: u64,
) -> Result<ResponseHead, MessageFault>
    ensures head { Reads R.remaining reader.old reader.new (λ head. head) IsResponseHead result }
    ensures digits { IfOk result (λ head. head.status ≤ 999) }
    ensures within { ReadsWithin limit result reader.old reader.new }
    ensures reads { once_more limit (calls_of reader.old) ≤ calls_of reader.new }
{
    let mut first = FirstCut::new();
    let text = read_head(alloc, reader, limit, &mut first)?;
    match first.kept {
        Kept::Whole(found) => Ok(head_at(alloc, text, found, &first.spans)?),
        Kept::Begun(_) => parse_response(alloc, text, &mut first.spans),
    }
}

// The status is of a response that others follow.
fn is_interim(status: u16) -> bool
    ensures { result ≡ is_interim status }
{
    status == 100 || (status >= 102 && status < 200)
}

// The status is of a response that no other follows.
fn is_final(status: u16) -> bool
    ensures { result ≡ is_final status }
{
    status >= 200
}

// The head, behind so many interim ones.
fn behind(head: ResponseHead, interim: u8) -> ResponseHead
    ensures { result ≡ behind interim head }
{
    let ResponseHead {
        status,
        minor,
        interim: _,
        lines,
    } = head;
    ResponseHead {
        status,
        minor,
        interim,
        lines,
    }
}

/// The head of the final response, behind at most 16 interim ones, which are counted and dropped.
///
/// The 17th interim head is `Malformed`, and so is one with the status 101 or one below 100.
#[tactic(auto, using(crate::proofs::Finals::final_steps))]
pub fn read_final_head<R: BufRead>(
    alloc: Global,
    reader: &mut Counted<R>,
    limit: u64,
) -> Result<ResponseHead, MessageFault>
    ensures head { Reads R.remaining reader.old reader.new (λ head. head) (IsFinalHead 16) result }
    ensures status { IfOk result (λ head. (200 ≤ head.status) × (head.status ≤ 999)) }
    ensures within { ReadsWithin limit result reader.old reader.new }
    ensures reads { once_more limit (calls_of reader.old) ≤ calls_of reader.new }
{
    let mut left = MOST_INTERIM;
    loop {
        let head = read_response_head(alloc, reader, limit)?;
        if is_final(head.status) {
            return Ok(behind(head, MOST_INTERIM - left));
        }
        if left == 0 || !is_interim(head.status) {
            return Err(MessageFault::Bytes(Fault::Malformed));
        }
        left -= 1;
    }
}
