// The laws of reading in pieces. The functions do nothing: each is there for its contract.
ghost use Rattle.message_reading.specs.Laws.{IsOne};
ghost use Rattle.body_pieces.specs.declared.rest.Rest.{Rest};
ghost use Rattle.body_pieces.specs.Laws.{AreFoundCut, AreReadBack, AsWhole};
ghost use Rattle.body_pieces.specs.Rests.{IsRest};

/// The rest of a body has one reading: its payload, its fault and what it leaves unread are
/// determined by the bytes.
#[tactic(auto, using(crate::proofs::OneRest::rest_one))]
pub fn rests_have_one_reading()
    ensures { (rest : Rest) → IsOne (IsRest rest) }
{}

/// A body that is read in pieces gives what it gives read whole, if that isn't `BodyTooLarge`.
#[tactic(auto, using(crate::proofs::AsWhole::as_whole))]
pub fn pieces_are_the_whole()
    ensures { AsWhole }
{}

/// Chunks give back the payload that they were written of. Without the last chunk they are found to
/// be cut, so nobody takes a part for the whole.
#[tactic(auto, using(crate::proofs::ReadBack::found_cut, crate::proofs::ReadBack::read_back))]
pub fn chunks_are_read_back()
    ensures whole { AreReadBack }
    ensures cut { AreFoundCut }
{}
