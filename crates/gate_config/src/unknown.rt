// A table's unknown keys, and the least of them.
ghost use Rattle.std.specs.Cmp.Lexicographic.{slice_cmp};
ghost use Rattle.std.specs.Ordering.{is_lt, nat_cmp};
ghost use Rattle.std.specs.Prelude.{◌≡◌, IfOk, fold, map, option_map};
ghost use Rattle.toml.specs.View.{table_view};
ghost use Rattle.gate_config.specs.Allowed.{allowed_keys};
ghost use Rattle.gate_config.specs.Rows.{name_of};
ghost use Rattle.gate_config.specs.Unknown.{lesser, unknown_key_of, unknown_key_path, unknown_key_text, unknown_keys_in};

use crate::AllowedKeys;
use crate::key::Section;
use crate::key_text::key_text;
use message_parts::Text;
use std::alloc::{AllocError, Global};
use std::marker::Model;
use toml::Table;

/// A key that isn't allowed where it stands.
#[derive(Clone, Copy)]
pub struct UnknownKey<'a> {
    pub section: Section,
    /// Which table of its array has it, counted from 0; none outside arrays.
    pub member: Option<usize>,
    pub name: &'a str,
    /// The keys that are allowed there.
    pub keys: AllowedKeys,
}

impl UnknownKey<'_> {
    /// The key as a fault has it. Fails where it is out of memory.
    pub fn at_fault(&self, alloc: Global) -> Result<UnknownAtFault, AllocError>
        ensures { IfOk result (λ at. at ≡ unknown_key_text (unknown_key_of self.now)) }
    {
        let prefix = self.section.prefix();
        let text = key_text(alloc, self.name)?;
        let path = Text::new(format!(in alloc; "{prefix}{text}")?);
        let name = Text::copy_of(alloc, self.name)?;
        Ok(UnknownAtFault {
            path,
            name,
            section: self.section,
            member: self.member,
            keys: self.keys,
        })
    }

    /// Whether this key's path is less than the other's in byte order.
    fn is_before(&self, other: &UnknownKey) -> bool
        ensures { result ≡ is_lt (slice_cmp nat_cmp
            (unknown_key_path (unknown_key_of self.now))
            (unknown_key_path (unknown_key_of other.now))) }
    {
        let path = self.section.prefix().bytes().chain(self.name.bytes());
        let others = other.section.prefix().bytes().chain(other.name.bytes());
        path.cmp(others).is_lt()
    }
}

/// A key that isn't allowed where it stands, as a fault has it. A contract sees its dotted path.
#[derive(Drop)]
pub struct UnknownAtFault {
    path: Text,
    name: Text,
    section: Section,
    member: Option<usize>,
    keys: AllowedKeys,
}

impl Model for UnknownAtFault {
    ghost use Rattle.std.specs.Prelude.{ℕ, List};

    ghost Value = { List ℕ };

    ghost view = { λ at. at.path };
}

impl UnknownAtFault {
    /// Its dotted path. A name that isn't bare in TOML is quoted and escaped.
    pub fn path(&self) -> &str
        ensures { result.now ≡ self.now }
    {
        self.path.as_str()
    }

    /// Its name as it stands in the text.
    pub fn name(&self) -> &str {
        self.name.as_str()
    }

    /// The section that it stands in.
    pub fn section(&self) -> Section {
        self.section
    }

    /// Which table of its array has it, counted from 0; none outside arrays.
    pub fn member(&self) -> Option<usize> {
        self.member
    }

    /// The keys that are allowed there.
    pub fn keys(&self) -> AllowedKeys {
        self.keys
    }
}

/// Of a key and a table's keys that its section doesn't have, the one with the least path.
pub fn least_unknown<'a>(
    least: Option<UnknownKey<'a>>,
    section: Section,
    member: Option<usize>,
    keys: AllowedKeys,
    table: &'a Table,
) -> Option<UnknownKey<'a>>
    ensures { option_map unknown_key_of result
        ≡ fold lesser (option_map unknown_key_of least.entry)
        (unknown_keys_in section (map name_of (allowed_keys keys)) (table_view table.now)) }
{
    let mut least = least;
    for name in table.keys() {
        if !keys.has_name(name.as_str()) {
            least = lesser(
                least,
                UnknownKey {
                    section,
                    member,
                    name: name.as_str(),
                    keys,
                },
            );
        }
    }
    least
}

/// The one with the lesser path, where the first may be none.
fn lesser<'a>(least: Option<UnknownKey<'a>>, key: UnknownKey<'a>) -> Option<UnknownKey<'a>>
    ensures { option_map unknown_key_of result
        ≡ lesser (option_map unknown_key_of least.entry) (unknown_key_of key.entry) }
{
    match least {
        None => Some(key),
        Some(best) => {
            if key.is_before(&best) {
                Some(key)
            } else {
                Some(best)
            }
        }
    }
}
