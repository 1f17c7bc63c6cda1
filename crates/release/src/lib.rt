//! Which release of the product this is: the one place of its version.
#![tactic(auto)]

ghost use Rattle.std.specs.Prelude.{◌≡◌};
ghost use Rattle.release.specs.Release.{version};

/// The version, as Semantic Versioning 2.0.0 has it. `--version` and the metrics tell it, and the
/// name of a Debian package is made of it.
pub fn version() -> &'static str
    ensures { result.now ≡ version }
{
    "2.0.0-dev"
}
