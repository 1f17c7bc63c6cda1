// The keys that aren't allowed where they stand.
ghost use Rattle.std.specs.Prelude.{◌≡◌, flat_map, fold, map, option_map};
ghost use Rattle.toml.specs.View.{table_view};
ghost use Rattle.gate_config.specs.Allowed.{allowed_keys};
ghost use Rattle.gate_config.specs.Rows.{name_of};
ghost use Rattle.gate_config.specs.Table.{tables_among};
ghost use Rattle.gate_config.specs.Unknown.{least, lesser, unknown_key_of};
ghost use Rattle.gate_config.specs.Bypass.{bypass_member};
ghost use Rattle.gate_config.specs.Resolver.{resolver_member};
ghost use Rattle.gate_config.specs.Document.{document_values};
ghost use Rattle.gate_config.specs.UnknownKeys.{bypass_unknown_keys, class_unknown_keys, resolver_unknown_keys, top_names, unknown_keys_of};

use crate::document::Document;
use crate::{
    AllowedKeys, BypassKeys, ResolverKeys, Section, UnknownKey, Version, WINDOW_KEYS, class_keys,
    least_unknown, limit_keys,
};
use limit_kinds::LimitSpec;
use toml::{Table, Value};

/// The key that isn't allowed where it stands in a version, of several the one with the least path.
pub fn least_unknown_key<'a>(
    version: Version,
    table: &'a Table,
    document: &Document<'a>,
) -> Option<UnknownKey<'a>>
    ensures { option_map unknown_key_of result
        ≡ least (unknown_keys_of version (table_view table.now) (document_values document.now)) }
{
    let (limit, spec) = &document.limit;
    let mut least = least_unknown(None, Section::Top, None, top_keys(version, spec), table);
    let limit_keys = AllowedKeys::Listed(limit_keys(spec));
    least = least_unknown(least, Section::Limit, None, limit_keys, limit);
    if let Some((window, _)) = &document.window {
        let window_keys = AllowedKeys::Listed(&WINDOW_KEYS);
        least = least_unknown(least, Section::Window, None, window_keys, window);
    }
    least = least_of_classes(version, least, document.rules.classes.0);
    least = least_of_resolvers(least, &document.rules.resolvers);
    least_of_bypasses(least, &document.rules.bypasses)
}

/// The keys outside all tables that may stand beside a limit, in a version. A limit without numbers
/// has windows of its own.
fn top_keys(version: Version, spec: &LimitSpec) -> AllowedKeys
    ensures { map name_of (allowed_keys result) ≡ top_names version spec.now }
{
    let windows = !matches!(spec, LimitSpec::Auto(_));
    AllowedKeys::Top { version, windows }
}

/// The least of these classes' and one more.
fn least_of_classes<'a>(
    version: Version,
    least: Option<UnknownKey<'a>>,
    items: &'a [Value],
) -> Option<UnknownKey<'a>>
    ensures { option_map unknown_key_of result
        ≡ fold lesser (option_map unknown_key_of least.entry)
        (flat_map (class_unknown_keys version) (tables_among items.now)) }
{
    let mut least = least;
    let mut place = 0usize;
    for item in items {
        if let Some(table) = item.as_table() {
            let keys = AllowedKeys::Listed(class_keys(version));
            least = least_unknown(least, Section::Class, Some(place), keys, table);
            place = place.saturating_add(1);
        }
    }
    least
}

/// The least of these resolvers' and one more.
fn least_of_resolvers<'a>(
    least: Option<UnknownKey<'a>>,
    resolvers: &[(&'a Table, ResolverKeys)],
) -> Option<UnknownKey<'a>>
    ensures { option_map unknown_key_of result
        ≡ fold lesser (option_map unknown_key_of least.entry)
        (flat_map resolver_unknown_keys (map resolver_member resolvers.now)) }
{
    let mut least = least;
    let mut place = 0usize;
    for (table, keys) in resolvers {
        let keys = AllowedKeys::Listed(keys.keys());
        least = least_unknown(least, Section::Resolver, Some(place), keys, table);
        place = place.saturating_add(1);
    }
    least
}

/// The least of these bypass rules' and one more.
fn least_of_bypasses<'a>(
    least: Option<UnknownKey<'a>>,
    rules: &[(&'a Table, BypassKeys)],
) -> Option<UnknownKey<'a>>
    ensures { option_map unknown_key_of result
        ≡ fold lesser (option_map unknown_key_of least.entry)
        (flat_map bypass_unknown_keys (map bypass_member rules.now)) }
{
    let mut least = least;
    let mut place = 0usize;
    for (table, keys) in rules {
        let keys = AllowedKeys::Listed(keys.keys());
        least = least_unknown(least, Section::Bypass, Some(place), keys, table);
        place = place.saturating_add(1);
    }
    least
}
