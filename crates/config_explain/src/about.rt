// What is said of a key.
ghost use Rattle.std.specs.Prelude.{◌≡◌};
ghost use Rattle.config_explain.specs.Explained.{hangs_on_others};

use config_words::{key_rows, range_hangs};
use gate_config::Key;

/// The words of the key's row.
macro_rules! words_of {
    (
        [$of:ident]
        $(
            $key:ident $start:literal $held:literal $([$($range:tt)*])?
                $(help $help:literal)? $(explained $explained:literal)?;
        )*
    ) => {
        match $of {
            $(Key::$key => concat!($held, $(stringify!($($range)*),)? $($explained)?)),*
        }
    };
}

/// What a key holds: its unit, its range and its default.
pub(crate) fn about(key: Key) -> &'static str {
    key_rows!(words_of, key)
}

/// Whether the key's row has an end that is no number.
macro_rules! hanging {
    (
        [$of:ident]
        $(
            $key:ident $start:literal $held:literal $([$($range:tt)*])?
                $(help $help:literal)? $(explained $explained:literal)?;
        )*
    ) => {
        match $of {
            $(Key::$key => range_hangs!($([$($range)*])?)),*
        }
    };
}

/// Whether the range of a key's numbers hangs on other keys.
pub(crate) fn hangs_on_others(key: Key) -> bool
    ensures { result ≡ hangs_on_others key }
{
    key_rows!(hanging, key)
}
