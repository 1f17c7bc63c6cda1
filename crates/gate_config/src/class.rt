// The keys of classes.
ghost use Rattle.std.specs.List.{list_any};
ghost use Rattle.std.specs.Prelude.{◌≡◌, ◌+◌, ◌≤◌, ℕ, None, IfOk, bytes_eq, length, map};
ghost use Rattle.toml.specs.Data.{get_member};
ghost use Rattle.toml.specs.View.{table_view};
ghost use Rattle.partitions.specs.Table.{is_name, placed};
ghost use Rattle.gate_config.specs.Rows.{class_rows, name_of};
ghost use Rattle.gate_config.specs.Number.{number_from};
ghost use Rattle.gate_config.specs.Outcomes.{result_map};
ghost use Rattle.gate_config.specs.Table.{tables_among};
ghost use Rattle.gate_config.specs.Text.{text_from};
ghost use Rattle.gate_config.specs.declared.version.Version.TheVariants.{One, Two};
ghost use Rattle.gate_config.specs.Class.{class_after, class_from, classes_of};
ghost use Rattle.gate_config.specs.ClassRows.{class_row, is_class, is_new_name, left_by, places_left};

use crate::version::Version;
use crate::{ConfigFault, Key, KeyAtFault, Range, read_number, read_text};
use arrayvec::ArrayVec;
use config_words::range_of;
use partitions::{from_percent, is_name};
use toml::{Table, Value};

/// The most places of a backlog, everybody's and the classes' own.
const MOST_PLACES: u32 = 10_000;

/// The keys that a class has in a version.
pub fn class_keys(version: Version) -> &'static [Key]
    ensures { map name_of result.now ≡ map (λ row. name_of row.key) (class_rows version) }
{
    match version {
        Version::One => &[Key::ClassName, Key::ClassPercent],
        Version::Two => &[Key::ClassName, Key::ClassShare, Key::ClassPlaces],
    }
}

/// What the keys of a class hold: its name as it stands in the text, its share in thousandths, and
/// how many places of the backlog are its own.
#[derive(Clone, Copy, Default)]
pub struct ClassKeys<'a> {
    pub name: &'a str,
    pub thousandths: u32,
    pub places: u32,
}

/// The keys of the classes in a version, each read after those before it. Where everybody has so
/// many places of the backlog, these and the classes' own are at most 10,000.
pub fn read_classes<'a>(
    version: Version,
    backlog: u32,
    items: &'a [Value],
) -> Result<ArrayVec<ClassKeys<'a>, 4>, ConfigFault>
    requires few { length items.now ≤ 4 }
    requires backlog { backlog ≤ 10000 }
    ensures value { result_map (λ classes. map class_row classes.items) result
        ≡ classes_of version backlog (tables_among items.now) }
    ensures within { IfOk result (λ classes.
        backlog + placed (map class_row classes.items) ≤ 10000) }
{
    let mut classes = ArrayVec::new();
    for item in items {
        if let Some(table) = item.as_table() {
            let class = read_class(version, backlog, &classes, table)?;
            classes.push(class);
        }
    }
    Ok(classes)
}

/// A class behind the classes before it, and of a fault which class it is.
fn read_class<'a>(
    version: Version,
    backlog: u32,
    before: &[ClassKeys],
    table: &'a Table,
) -> Result<ClassKeys<'a>, ConfigFault>
    ensures value { result_map class_row result
        ≡ class_after version backlog (map class_row before.now) (table_view table.now) }
    ensures within { IfOk result (λ class.
        class.places ≤ places_left backlog (map class_row before.now)) }
{
    match read_keys(version, backlog, before, table) {
        Ok(class) => Ok(class),
        Err(fault) => Err(fault.of_member(before.len())),
    }
}

/// The keys of a class behind the classes before it.
fn read_keys<'a>(
    version: Version,
    backlog: u32,
    before: &[ClassKeys],
    table: &'a Table,
) -> Result<ClassKeys<'a>, ConfigFault>
    ensures value { result_map class_row result
        ≡ class_from version backlog (map class_row before.now) (table_view table.now) }
    ensures within { IfOk result (λ class.
        class.places ≤ places_left backlog (map class_row before.now)) }
{
    match version {
        Version::One => read_by_percent(before, table),
        Version::Two => read_by_share(backlog, before, table),
    }
}

/// The keys of a class whose share is written in percent.
fn read_by_percent<'a>(before: &[ClassKeys], table: &'a Table) -> Result<ClassKeys<'a>, ConfigFault>
    ensures value { (backlog : ℕ) → result_map class_row result
        ≡ class_from One backlog (map class_row before.now) (table_view table.now) }
    ensures places { IfOk result (λ class. class.places ≡ 0) }
{
    let name = new_name(before, table, Key::ClassName)?;
    let left = left_by(before) / 10;
    let percent = read_number(table, Key::ClassPercent, range_of!(ClassPercent, left))?;
    let thousandths = from_percent(u64::from(percent)) as u32;
    Ok(ClassKeys {
        name,
        thousandths,
        places: 0,
    })
}

/// The keys of a class whose share is written in thousandths, and which may have places of its own.
fn read_by_share<'a>(
    backlog: u32,
    before: &[ClassKeys],
    table: &'a Table,
) -> Result<ClassKeys<'a>, ConfigFault>
    ensures value { result_map class_row result
        ≡ class_from Two backlog (map class_row before.now) (table_view table.now) }
    ensures within { IfOk result (λ class.
        class.places ≤ places_left backlog (map class_row before.now)) }
{
    let name = new_name(before, table, Key::ClassName)?;
    let thousandths = read_share(before, table)?;
    let left = places_left(backlog, before);
    let places = read_number(table, Key::ClassPlaces, range_of!(ClassPlaces, left))?;
    Ok(ClassKeys {
        name,
        thousandths,
        places,
    })
}

/// The share of a class in thousandths.
fn read_share(before: &[ClassKeys], table: &Table) -> Result<u32, ConfigFault>
    ensures { result ≡ number_from Key.ClassShare 1 (left_by (map class_row before.now)) None
        (get_member (name_of Key.ClassShare) (table_view table.now)) }
{
    let left = left_by(before);
    read_number(table, Key::ClassShare, range_of!(ClassShare, left))
}

/// The name of a partition that none of the classes has.
fn new_name<'a>(classes: &[ClassKeys], table: &'a Table, key: Key) -> Result<&'a str, ConfigFault>
    ensures { result_map (λ s. s.now) result
        ≡ text_from key (is_new_name (map class_row classes.now))
        (get_member (name_of key) (table_view table.now)) }
{
    let text = read_text(table, key)?;
    if is_name(text.as_bytes()) && !is_class(classes, text) {
        Ok(text)
    } else {
        Err(ConfigFault::Value(KeyAtFault::plain(key)))
    }
}

/// The name of one of the classes.
pub fn class_name<'a>(
    classes: &[ClassKeys],
    table: &'a Table,
    key: Key,
) -> Result<&'a str, ConfigFault>
    ensures { result_map (λ s. s.now) result
        ≡ text_from key (is_class (map class_row classes.now))
        (get_member (name_of key) (table_view table.now)) }
{
    let text = read_text(table, key)?;
    if is_class(classes, text) {
        Ok(text)
    } else {
        Err(ConfigFault::Value(KeyAtFault::plain(key)))
    }
}

/// Whether one of the classes has this name.
pub fn is_class(classes: &[ClassKeys], name: &str) -> bool
    ensures { result ≡ is_class (map class_row classes.now) name.now }
{
    has_name(classes, name)
}

/// Whether one of the keys has this name.
fn has_name(classes: &[ClassKeys], name: &str) -> bool
    ensures { result ≡ list_any (λ class. bytes_eq class.name.now name.now) classes.now }
{
    classes.iter().any(|class| class.name == name)
}

/// What the classes leave of a thousand thousandths.
fn left_by(classes: &[ClassKeys]) -> u32
    ensures value { result ≡ left_by (map class_row classes.now) }
    ensures most { result ≤ 1000 }
{
    let mut left = 1000u32;
    for class in classes {
        left = left.saturating_sub(class.thousandths);
    }
    left
}

/// What everybody's places of the backlog and those of the classes leave of the most that there
/// may be.
fn places_left(backlog: u32, classes: &[ClassKeys]) -> u32
    ensures value { result ≡ places_left backlog (map class_row classes.now) }
    ensures most { result ≤ 10000 }
{
    let mut left = MOST_PLACES.saturating_sub(backlog);
    for class in classes {
        left = left.saturating_sub(class.places);
    }
    left
}
