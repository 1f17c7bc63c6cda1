// What is worth knowing of the addresses, and of how callers are told apart.
use crate::members::items_at;
use crate::route_flaws::odd_routes_in;
use gate_config::{Key, read_text};
use gateway_settings::{Address, Settings};
use std::alloc::AllocError;
use toml::{Table, Value};

/// Says where requests come back to the gateway, and which rules find nobody.
pub(crate) fn explain_callers(
    out: &mut String,
    table: &Table,
    settings: &Settings,
) -> Result<(), AllocError> {
    if is_same(&settings.listen, &settings.backend) {
        out.push_str("backend is listen: each request comes back to this gateway\n")?;
    }
    let has_classes = !items_at(table, Key::Class).is_empty();
    let resolvers = items_at(table, Key::Resolver);
    for (place, rule) in resolvers.iter().enumerate() {
        explain_rule(out, "resolver", place, rule)?;
        if !has_classes && is_of_header(rule) {
            let number = place.saturating_add(1);
            write!(
                out,
                "resolver {number} tells a class by a header, and there is no class\n"
            )?;
        }
    }
    explain_routes(out, table)?;
    let bypasses = items_at(table, Key::Bypass);
    for (place, rule) in bypasses.iter().enumerate() {
        explain_rule(out, "bypass", place, rule)?;
    }
    Ok(())
}

/// Says which routes don't match what they seem to.
fn explain_routes(out: &mut String, table: &Table) -> Result<(), AllocError> {
    let odd = odd_routes_in(*out.allocator(), table)?;
    for route in &odd {
        let (resolver, pattern) = (route.resolver, route.pattern.as_str());
        let words = route.flaw.words();
        write!(
            out,
            "resolver {resolver} has the route {pattern:?}: it {words}\n"
        )?;
    }
    Ok(())
}

/// Whether two addresses are one.
fn is_same(one: &Address, other: &Address) -> bool {
    one.socket() == other.socket()
}

/// Whether a resolver reads a header.
fn is_of_header(rule: &Value) -> bool {
    match rule.as_table() {
        Some(rule) => read_text(rule, Key::ResolverKind).is_ok_and(|kind| kind == "header"),
        None => false,
    }
}

/// Says of a rule that its method has small letters, which no client sends.
fn explain_rule(
    out: &mut String,
    array: &str,
    place: usize,
    rule: &Value,
) -> Result<(), AllocError> {
    let Some(rule) = rule.as_table() else {
        return Ok(());
    };
    let Ok(method) = read_text(rule, Key::ResolverMethod) else {
        return Ok(());
    };
    if !method.bytes().any(|byte| byte.is_ascii_lowercase()) {
        return Ok(());
    }
    let number = place.saturating_add(1);
    write!(
        out,
        "{array} {number} has the method \"{method}\" with small letters: methods are compared \
         byte for byte, and clients send capitals\n"
    )
}
