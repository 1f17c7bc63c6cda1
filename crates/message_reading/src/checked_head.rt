// The head of a request, read and checked.
ghost use Rattle.std.specs.Prelude.{◌≤◌};
ghost use Rattle.counted_io.specs.Counted.{calls_of};
ghost use Rattle.message_reading.specs.Reading.{Reads, ReadsWithin, once_more};
ghost use Rattle.message_reading.specs.Heads.{IsCheckedHead, IsRequestHead};

use crate::fault::MessageFault;
use crate::framing::{Framing, frame_request};
use crate::head_bytes::read_head;
use crate::head_cut::{FirstCut, Kept};
use crate::request_head::{RequestHead, head_at, parse_request};
use counted_io::Counted;
use message_fields::MOST_BODY;
use std::alloc::Global;
use std::io::BufRead;

// The head of a request, and nothing behind it.
#[tactic(auto, using(crate::proofs::JoinedPhases::request_steps))]
fn read_request_head<R: BufRead>(
    alloc: Global,
    reader: &mut Counted<R>,
    limit: u64,
) -> Result<RequestHead, MessageFault>
    ensures head { Reads R.remaining reader.old reader.new (λ head. head) IsRequestHead result }
    ensures within { ReadsWithin limit result reader.old reader.new }
    ensures reads { once_more limit (calls_of reader.old) ≤ calls_of reader.new }
{
    let mut first = FirstCut::new();
    let text = read_head(alloc, reader, limit, &mut first)?;
    match first.kept {
        Kept::Whole(found) => Ok(head_at(alloc, text, found, &first.spans)?),
        Kept::Begun(_) => parse_request(alloc, text, &mut first.spans),
    }
}

/// The head of a request, and how its body is delimited, once all checks passed.
#[tactic(auto, using(crate::proofs::JoinedPhases::check_steps))]
pub fn read_checked_head<R: BufRead>(
    alloc: Global,
    reader: &mut Counted<R>,
    limit: u64,
) -> Result<(RequestHead, Framing), MessageFault>
    ensures head { Reads R.remaining reader.old reader.new (λ head. head) IsCheckedHead result }
    ensures within { ReadsWithin limit result reader.old reader.new }
    ensures reads { once_more limit (calls_of reader.old) ≤ calls_of reader.new }
{
    let head = read_request_head(alloc, reader, limit)?;
    match frame_request(&head, MOST_BODY) {
        Ok(framing) => Ok((head, framing)),
        Err(fault) => Err(MessageFault::Bytes(fault)),
    }
}
