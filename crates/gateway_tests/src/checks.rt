// What tests look at.
ghost use Rattle.std.specs.Prelude.{◌≡◌, true};

use std::process::Abort;

/// A fact holds. Each `assert!` costs its function as much proof as ten calls of this.
pub(crate) fn check<R: Abort>(rt: &R, holds: bool)
    ensures { holds ≡ true }
{
    assert!(rt; holds);
}
