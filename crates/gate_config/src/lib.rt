//! The gateway's settings, read from TOML text.
//!
//! [`read`] is the crate's call for the layers above. Its contract, in `specs/Settings.antt`, is by
//! the list of keys in `specs/Rows.antt`, which holds every key's place in the order of faults, its
//! name, its range and its default, and by the settings that the values at them make.
//!
//! - A key and the value at it: `specs/Key.antt` says where a key stands and what it is called,
//!   `specs/Number.antt`, `specs/Text.antt` and `specs/Table.antt` what a value of each kind is.
//!   Each reader answers the value, or the key's fault.
//! - A section reads its keys from a table, in their order: `specs/Section.antt`, by the rows.
//! - `specs/Unknown.antt` says which of the keys that aren't allowed is told.
#![tactic(auto)]

mod address;
mod allowed;
mod build;
mod bypass;
mod class;
mod document;
mod entry;
mod fault;
mod key;
mod key_text;
mod limit;
mod number;
mod promote;
mod reading;
mod resolver;
mod table;
mod text;
mod top;
mod unknown;
mod unknown_keys;
mod version;
mod window;

pub use address::read_address;
pub use allowed::AllowedKeys;
pub use bypass::{BypassKeys, check_bypasses, read_bypasses};
pub use class::{ClassKeys, class_keys, read_classes};
pub use entry::value_at;
pub use fault::{ConfigFault, KeyAtFault};
pub use gateway_settings::Settings;
pub use key::{Key, Section};
pub use limit::{limit_keys, read_limit};
pub use limit_kinds::{AnyLimit, BaseLimit};
pub use number::{Range, read_flag, read_number};
pub use promote::PromoteRule;
pub use reading::{read, settings_in, version_of};
pub use resolver::{ResolverKeys, check_resolvers, read_resolvers};
pub use table::{read_optional_table, read_table, read_tables};
pub use text::{read_prefix, read_text, read_token, string_of};
pub use top::{FrontKeys, GateKeys, KeptKeys, TOP_KEYS, TopKeys, read_top};
pub use unknown::{UnknownAtFault, UnknownKey, least_unknown};
pub use version::Version;
pub use window::{WINDOW_KEYS, read_window};

/// The nanoseconds of a microsecond.
const MICRO: u64 = 1_000;
