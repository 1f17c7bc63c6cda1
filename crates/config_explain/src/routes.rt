// Which pattern can't be read or can't stand beside those before it.
use crate::faults::{Source, show_place};
use crate::members::{Member, items_at};
use gate_config::{Key, Section, value_at};
use matchit::{InsertError, Router};
use std::alloc::{AllocError, Global};
use toml::{Table, Value};

/// Says which pattern can't be read or can't stand beside those before it.
pub(crate) fn explain_route(out: &mut String, source: Source<'_>) -> Result<(), AllocError> {
    let alloc = *out.allocator();
    let resolvers = items_at(source.table, Key::Resolver);
    let count = resolvers.len();
    for (place, resolver) in resolvers.iter().enumerate() {
        if let Some(routes) = routes_of(resolver) {
            if let Some((pattern, error)) = refused_in(alloc, routes) {
                let member = Member { place, count };
                return say_refused(out, source.text, member, pattern, &error);
            }
        }
    }
    Ok(())
}

/// The patterns of a resolver that has some.
pub(crate) fn routes_of(resolver: &Value) -> Option<&Table> {
    value_at(resolver.as_table()?, Key::ResolverRoutes)?.as_table()
}

/// The first pattern that can't be added, and why.
fn refused_in<'a>(alloc: Global, routes: &'a Table) -> Option<(&'a str, InsertError)> {
    let mut router: Router<()> = Router::new(alloc);
    for pattern in routes.keys() {
        if let Err(error) = router.insert(pattern.as_str(), ()) {
            return Some((pattern.as_str(), error));
        }
    }
    None
}

/// Says where a pattern stands, and why it can't be added. Out of memory it says nothing.
fn say_refused(
    out: &mut String,
    text: &str,
    member: Member,
    pattern: &str,
    error: &InsertError,
) -> Result<(), AllocError> {
    if let InsertError::OutOfMemory = error {
        return Err(AllocError);
    }
    let name = Key::ResolverRoutes.name();
    show_place(out, text, Section::Resolver, Some(member), name)?;
    write!(out, "the pattern {pattern:?}: {error}\n")
}
