// The phrases of statuses.
ghost use Rattle.std.specs.Prelude.{◌≡◌, ◌≤◌};
ghost use Rattle.message_text.specs.Answer.{phrase_of};

use http::StatusCode;

/// The phrase of a status; empty where it has none.
#[tactic(auto, unfolding(crate::specs::Answer::phrase_of))]
pub fn phrase_of(status: u16) -> &'static str
    requires three_digits { (100 ≤ status) × (status ≤ 999) }
    ensures { result.now ≡ phrase_of status }
{
    match StatusCode::from_u16(status) {
        Ok(code) => code.canonical_reason().unwrap_or(""),
        Err(_) => "",
    }
}
