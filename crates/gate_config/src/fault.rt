// Why a configuration is refused.
ghost use Rattle.std.specs.Prelude.{◌≡◌, ◌++◌, Some};
ghost use Rattle.gate_config.specs.Fault.{fault_placed, fault_text, placed, plain, ranged};

use crate::key::Key;
use crate::number::Range;
use crate::unknown::UnknownAtFault;
use matchit::InsertError;
use std::alloc::AllocError;
use std::error::Error;
use std::fmt;

/// A key at fault, and what it was judged by.
#[derive(Clone, Copy)]
pub struct KeyAtFault {
    pub key: Key,
    /// The numbers that it may hold here, where it is to hold one.
    pub range: Option<Range>,
    /// Which table of its array has it, counted from 0; none outside arrays.
    pub member: Option<usize>,
}

impl KeyAtFault {
    /// A key outside arrays, which holds no number.
    pub fn plain(key: Key) -> KeyAtFault
        ensures { result ≡ plain key }
    {
        KeyAtFault {
            key,
            range: None,
            member: None,
        }
    }

    /// A key outside arrays, which is to hold a number of this range.
    pub(crate) fn ranged(key: Key, range: Range) -> KeyAtFault
        ensures { result ≡ ranged key range.low range.high range.default }
    {
        KeyAtFault {
            key,
            range: Some(range),
            member: None,
        }
    }

    /// The key in this table of an array.
    fn placed(self, place: usize) -> KeyAtFault
        ensures { result ≡ placed place self }
    {
        KeyAtFault {
            member: Some(place),
            ..self
        }
    }
}

/// Why a configuration was refused. Of several faults the first in this order is reported, and of
/// several keys the first in the order of the keys; of unknown keys the one with the least path in
/// byte order.
///
/// Its text is one line of the fault's word and the key's dotted path.
#[derive(Drop)]
pub enum ConfigFault {
    /// Out of memory.
    Memory,
    /// The text isn't TOML, or isn't UTF-8.
    Toml,
    /// `version` isn't the whole number 1 or 2.
    Version,
    /// A required key is absent.
    Missing(KeyAtFault),
    /// A key holds a value of another kind of TOML.
    Kind(KeyAtFault),
    /// A key's value is out of its range.
    Value(KeyAtFault),
    /// The dotted path of a key that isn't allowed where it stands. A name that isn't bare in TOML
    /// (one or more letters, digits, dashes and underscores) is quoted and escaped as a basic
    /// string, as in `limit."x\ny"`.
    Unknown(UnknownAtFault),
    /// Two patterns can't stand together, or one can't be read.
    Route,
}

impl From<AllocError> for ConfigFault {
    ghost use Rattle.std.specs.Prelude.{◌≡◌};
    ghost use Rattle.gate_config.specs.declared.fault.ConfigFault.TheVariants.{Memory};

    ghost from_gives = { λ _ fault. fault ≡ Memory };

    fn from(_: AllocError) -> ConfigFault {
        ConfigFault::Memory
    }
}

impl From<InsertError> for ConfigFault {
    ghost use Rattle.std.specs.Prelude.{◌≡◌};
    ghost use Rattle.gate_config.specs.Fault.{insert_fault};

    ghost from_gives = { λ error fault. fault ≡ insert_fault error };

    fn from(error: InsertError) -> ConfigFault {
        match error {
            InsertError::OutOfMemory => ConfigFault::Memory,
            _ => ConfigFault::Route,
        }
    }
}

impl ConfigFault {
    /// The fault of a key as that of this table of an array, and any other fault as it is.
    pub fn of_member(self, place: usize) -> ConfigFault
        ensures { result ≡ fault_placed place self }
    {
        match self {
            ConfigFault::Missing(at) => ConfigFault::Missing(at.placed(place)),
            ConfigFault::Kind(at) => ConfigFault::Kind(at.placed(place)),
            ConfigFault::Value(at) => ConfigFault::Value(at.placed(place)),
            fault => fault,
        }
    }

    /// The fault's text in pieces that follow one another, of which the last two may be empty.
    /// Takes no memory.
    pub fn pieces(&self) -> (&str, &str, &str)
        ensures { result.0.now ++ (result.1.now ++ result.2.now) ≡ fault_text self.now }
    {
        match self {
            ConfigFault::Memory => ("memory", "", ""),
            ConfigFault::Toml => ("toml", "", ""),
            ConfigFault::Version => ("version", "", ""),
            ConfigFault::Missing(at) => ("missing ", at.key.section().prefix(), at.key.name()),
            ConfigFault::Kind(at) => ("kind ", at.key.section().prefix(), at.key.name()),
            ConfigFault::Value(at) => ("value ", at.key.section().prefix(), at.key.name()),
            ConfigFault::Unknown(at) => ("unknown ", at.path(), ""),
            ConfigFault::Route => ("route", "", ""),
        }
    }
}

impl fmt::Display for ConfigFault {
    ghost output = { λ fault. Some (fault_text fault) };

    fn fmt<W: fmt::Write>(&self, f: &mut fmt::Formatter<W>) -> fmt::Result {
        let (word, prefix, name) = self.pieces();
        write!(f, "{word}{prefix}{name}")
    }
}

// The same text: what a derive would write out, of each key too, is long to prove.
impl fmt::Debug for ConfigFault {
    fn fmt<W: fmt::Write>(&self, f: &mut fmt::Formatter<W>) -> fmt::Result {
        fmt::Display::fmt(self, f)
    }
}

impl Error for ConfigFault {}
