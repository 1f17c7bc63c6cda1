// The keys that may stand in a section.
ghost use Rattle.std.specs.List.{list_any};
ghost use Rattle.std.specs.Prelude.{◌≡◌, ◌&&◌, bytes_eq, map};
ghost use Rattle.gate_config.specs.Allowed.{allowed_keys, allows, is_top_key, listed_keys};
ghost use Rattle.gate_config.specs.Rows.{name_of};
ghost use Rattle.gate_config.specs.Text.{is_among};

use crate::{Key, TOP_KEYS, Version};

/// The keys that may stand in a section.
#[derive(Clone, Copy)]
pub enum AllowedKeys {
    /// Those of a list.
    Listed(&'static [Key]),
    /// Those outside all tables in a version, beside a limit that may have a table of windows or
    /// not.
    Top { version: Version, windows: bool },
}

impl AllowedKeys {
    /// All keys of the list; [`AllowedKeys::allows`] says which of them are allowed.
    pub fn listed(self) -> &'static [Key]
        ensures { result.now ≡ listed_keys self }
    {
        match self {
            AllowedKeys::Listed(keys) => keys,
            AllowedKeys::Top { .. } => &TOP_KEYS,
        }
    }

    /// Whether a key of [`AllowedKeys::listed`] is allowed.
    pub fn allows(self, key: Key) -> bool
        ensures { result ≡ allows self key }
    {
        match self {
            AllowedKeys::Listed(_) => true,
            AllowedKeys::Top { version, windows } => is_top_key(version, windows, key),
        }
    }

    /// Whether a key of this name is allowed.
    pub fn has_name(self, name: &str) -> bool
        ensures { result ≡ is_among (map name_of (allowed_keys self)) name.now }
    {
        is_allowed(self, self.listed(), name)
    }
}

/// Whether a key outside all tables is allowed in a version, where a table of windows is or isn't.
fn is_top_key(version: Version, windows: bool, key: Key) -> bool
    ensures { result ≡ is_top_key version windows key }
{
    match key {
        Key::Window => windows,
        Key::Clients | Key::ClientIdleMs | Key::Backends | Key::BackendIdleMs | Key::BodiesMib =>
            matches!(version, Version::Two),
        _ => true,
    }
}

/// Whether one of the listed keys that are allowed is called so.
fn is_allowed(keys: AllowedKeys, listed: &[Key], name: &str) -> bool
    ensures { result
        ≡ list_any (λ key. allows keys key && bytes_eq name.now (name_of key)) listed.now }
{
    listed
        .iter()
        .any(|key| keys.allows(*key) && is_called(*key, name))
}

/// Whether the key is called so in its section.
fn is_called(key: Key, name: &str) -> bool
    ensures { result ≡ bytes_eq name.now (name_of key) }
{
    name == key.name()
}
