// How operators' clients are left.

use crate::attending::Attended;
use handling::{ClientWatch, Protocol};
use std::io::Error;

/// The protocol of operators' calls: no client is kept.
pub enum OperatorCalls {}

impl Protocol<Attended> for OperatorCalls {
    ghost use Rattle.std.specs.Prelude.{false};
    ghost use Rattle.operator_serving.specs.Attended.{with_sent};

    ghost keeps_some = { false };

    ghost kept = { λ _. false };

    ghost told_sent = { with_sent };

    fn keeps_clients() -> bool {
        false
    }

    fn is_kept(_told: &Attended) -> bool {
        false
    }

    fn with_sent(told: Attended, is_sent: bool) -> Attended {
        told.with_sent(is_sent)
    }

    fn is_answered(told: &Attended) -> bool {
        told.is_answered()
    }

    fn is_read(told: &Attended) -> bool {
        told.is_read()
    }
}

/// Notes nothing of operators' clients.
#[derive(Drop)]
pub struct Unwatched {}

impl ClientWatch for Unwatched {
    type Told = Attended;

    type Protocol = OperatorCalls;

    fn accepted(&self) -> u64 {
        0
    }

    fn unaccepted(&self, _error: &Error) {}

    fn ended(&self, told: Attended, _since: u64) {
        told.end();
    }
}
