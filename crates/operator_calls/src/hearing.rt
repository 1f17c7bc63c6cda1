// A call whose caller may have left.
ghost use Rattle.std.specs.Prelude.{◌≡◌};
ghost use Rattle.operator_calls.specs.Calls.{heard};

use crate::call::Call;
use crate::refusal::Refusal;

/// What is heard of a call, or of a refusal, by whether its caller has left: a change that nobody
/// waits for any more is none.
pub fn heard(has_left: bool, call: Result<Call, Refusal>) -> Result<Call, Refusal>
    ensures { result ≡ heard has_left call }
{
    match call {
        Ok(Call::Change(_)) if has_left => Err(Refusal::CallerLeft),
        _ => call,
    }
}
