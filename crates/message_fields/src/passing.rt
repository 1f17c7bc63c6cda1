// The header lines of a message, some of which are passed on.
ghost use Rattle.std.specs.Prelude.{◌≡◌, ◌<◌, ℕ, List, false, length};
ghost use Rattle.message_fields.specs.Passed.{is_connection_option};

use message_parts::Header;

/// The header lines of a message, some of which are passed on.
#[derive(Drop)]
pub struct Passing<'a> {
    pub(crate) lines: &'a [Header],
    // No Connection line names a field of a shorter name, nor one of a longer name.
    pub(crate) shortest: usize,
    pub(crate) longest: usize,
    ghost none_shorter: { (name : List ℕ) → length name < shortest
        → is_connection_option lines.now name ≡ false },
    ghost none_longer: { (name : List ℕ) → longest < length name
        → is_connection_option lines.now name ≡ false },
}
