// The tables of arrays.
ghost use Rattle.std.specs.Prelude.{◌≡◌, option_map};

use gate_config::{Key, Section, value_at};
use toml::{Table, Value};

/// A member of an array, counted from 0, and how many there are.
#[derive(Clone, Copy)]
pub(crate) struct Member {
    pub(crate) place: usize,
    pub(crate) count: usize,
}

/// The member of a section's array at a place, where there is one.
pub(crate) fn member_of(table: &Table, section: Section, place: Option<usize>) -> Option<Member>
    ensures { option_map (λ m. m.place) result ≡ place }
{
    let count = match array_of(section) {
        Some(key) => items_at(table, key).len(),
        None => 0,
    };
    match place {
        Some(place) => Some(Member { place, count }),
        None => None,
    }
}

/// The key of the array that a section's tables stand in.
fn array_of(section: Section) -> Option<Key> {
    match section {
        Section::Top | Section::Limit | Section::Window => None,
        Section::Class => Some(Key::Class),
        Section::Resolver => Some(Key::Resolver),
        Section::Bypass => Some(Key::Bypass),
    }
}

/// The items of the array at a key; none where there is no array.
pub(crate) fn items_at(table: &Table, key: Key) -> &[Value] {
    match value_at(table, key) {
        Some(value) => match value.as_array() {
            Some(array) => array.as_slice(),
            None => &[],
        },
        None => &[],
    }
}
