// Routes that don't match what they seem to.
use crate::members::items_at;
use crate::routes::routes_of;
use gate_config::Key;
use std::alloc::{AllocError, Global};
use toml::Table;

/// Why a route doesn't match what it seems to.
#[derive(Clone, Copy)]
pub enum RouteFlaw {
    /// It doesn't begin with a slash, as each path does.
    WithoutSlash,
    /// It has a `*`, or a segment that begins with `:`. Both stand for themselves alone.
    Literal,
}

impl RouteFlaw {
    /// What the route matches instead, in words that follow on the route.
    pub fn words(self) -> &'static str {
        match self {
            RouteFlaw::WithoutSlash => "matches no path: each path begins with /",
            RouteFlaw::Literal => {
                "matches this path alone: {name} stands for one segment, and {*rest} for the rest"
            }
        }
    }
}

/// A route that doesn't match what it seems to.
#[derive(Drop)]
pub struct OddRoute {
    /// The number of its resolver, from 1 on.
    pub resolver: usize,
    /// Its pattern.
    pub pattern: String,
    /// What is wrong with it.
    pub flaw: RouteFlaw,
}

/// Returns the routes of a configuration that don't match what they seem to, in the order of their
/// resolvers; none of a text that isn't TOML. It fails only out of memory.
pub fn odd_routes(alloc: Global, bytes: &[u8]) -> Result<Vec<OddRoute>, AllocError> {
    match toml::table_from_slice(alloc, bytes) {
        Ok(table) => odd_routes_in(alloc, &table),
        Err(error) if error.is_memory() => Err(AllocError),
        Err(_) => Ok(Vec::new(alloc)),
    }
}

/// Those of the table of a configuration. It fails only out of memory.
pub(crate) fn odd_routes_in(alloc: Global, table: &Table) -> Result<Vec<OddRoute>, AllocError> {
    let mut found = Vec::new(alloc);
    for (place, resolver) in items_at(table, Key::Resolver).iter().enumerate() {
        if let Some(routes) = routes_of(resolver) {
            add_odd(alloc, &mut found, place.saturating_add(1), routes)?;
        }
    }
    Ok(found)
}

/// Adds those of one resolver, which has this number. It fails only out of memory.
fn add_odd(
    alloc: Global,
    found: &mut Vec<OddRoute>,
    resolver: usize,
    routes: &Table,
) -> Result<(), AllocError> {
    for pattern in routes.keys() {
        if let Some(flaw) = flaw_of(pattern.as_str()) {
            let pattern = format!(in alloc; "{pattern}")?;
            found.push(OddRoute {
                resolver,
                pattern,
                flaw,
            })?;
        }
    }
    Ok(())
}

/// Why a pattern doesn't match what it seems to, if it doesn't. `*` is the path of OPTIONS for the
/// whole server, and `{*rest}` takes the slash too.
fn flaw_of(pattern: &str) -> Option<RouteFlaw> {
    let is_path = pattern.starts_with('/') || pattern == "*" || pattern.starts_with("{*");
    if !is_path {
        Some(RouteFlaw::WithoutSlash)
    } else if pattern.split('/').any(|segment| is_foreign(segment)) {
        Some(RouteFlaw::Literal)
    } else {
        None
    }
}

/// Whether a segment has a sign by which other programs name what varies, and none of the braces
/// that do so here.
fn is_foreign(segment: &str) -> bool {
    let names_one = segment.starts_with(':') && segment.len() > 1;
    !segment.contains('{') && (names_one || segment.contains('*'))
}
