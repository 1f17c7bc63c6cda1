// The laws of the texts. These functions do nothing: each is there for its contract.
ghost use Rattle.message_text.specs.Forwarded.{ForwardedValue};
ghost use Rattle.message_text.specs.Answer.{AnswerValue};
ghost use Rattle.message_text.specs.Laws.{AnswersItsLength, AnswersNoCoding, BeginsWithItsFront};
ghost use Rattle.message_text.specs.Laws.{TellsItsLength, TellsNoCoding, TellsOneHost};

/// A request is forwarded with one Host line, where at most one came; with one Content-Length,
/// which is that of its body, or none without a body; and with no Transfer-Encoding. So a backend
/// can read it in one way alone.
pub fn forwarded_in_one_way()
    ensures host { (request : ForwardedValue) → TellsOneHost request }
    ensures length { (request : ForwardedValue) → TellsItsLength request }
    ensures coding { (request : ForwardedValue) → TellsNoCoding request }
{}

/// An answer has at most one Content-Length, the one that is told, and no Transfer-Encoding.
pub fn answered_in_one_way()
    ensures length { (answer : AnswerValue) → AnswersItsLength answer }
    ensures coding { (answer : AnswerValue) → AnswersNoCoding answer }
{}

/// An answer is its front, the lines that tell its length and whether the connection ends, and its
/// body.
#[tactic(auto, using(crate::proofs::Texts::begins_with_front))]
pub fn answers_begin_with_their_front()
    ensures { (answer : AnswerValue) → BeginsWithItsFront answer }
{}
