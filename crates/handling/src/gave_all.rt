// Whether a listener's tokens account for all clients that it gave.
ghost use Rattle.std.specs.Prelude.{◌≡◌, ◌⊎◌, None, Some, IfNone, IfSome};
ghost use Rattle.client_tokens.specs.Roll.{Roll};

use listening::Listener;

/// Returns what is given as the last word, if all clients that a listener gave came by this token
/// and were left, and otherwise nothing.
pub fn if_gave_all<L: Listener, T: Drop>(
    listener: &L,
    token: L::Token,
    told: Option<T>,
) -> Option<T>
    ensures told { IfSome result (λ it. told ≡ Some it) }
    ensures gave { IfSome result (λ _. (rolled : Roll)
        × (L.roll listener.now token ≡ Some rolled) × L.gave listener.now rolled) }
    ensures none { IfNone result ((told ≡ None) ⊎ L.lost listener.now) }
{
    if listener.gave_all(token) { told } else { None }
}
