// The laws of reading. The functions do nothing: each is there for its contract.
ghost use Rattle.message_reading.specs.Chunks.{IsChunks};
ghost use Rattle.message_reading.specs.Laws.{IsOne, RequestsAreOne, ResponsesAreOne};

/// Bytes are one head at most, or else no head: they have one reading.
#[tactic(auto, using(crate::proofs::OneHead::readings))]
pub fn heads_have_one_reading()
    ensures requests { RequestsAreOne }
    ensures responses { ResponsesAreOne }
{}

/// Bytes are one chunked body at most, or else have one fault: they have one reading.
#[tactic(auto, using(crate::proofs::OneChunkedBody::chunks_one))]
pub fn chunks_have_one_reading()
    ensures { IsOne (IsChunks 0) }
{}
