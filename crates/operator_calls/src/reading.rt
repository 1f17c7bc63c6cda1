// The call of a request.
ghost use Rattle.std.specs.Prelude.{◌≡◌, codes, IfOk};
ghost use Rattle.operator_calls.specs.Calls.{asked_at, call_at, call_of, changing, endpoint_for};
ghost use Rattle.operator_calls.specs.Calls.{IsLook, is_marked, is_named, names_authority};
ghost use Rattle.operator_calls.specs.Calls.{names_host, set_to, told_number};
ghost use Rattle.operator_calls.specs.declared.audience.Audience.TheVariants.{Anyone};

use crate::audience::Audience;
use crate::call::{Call, Change, Look};
use crate::endpoint::{Endpoint, Verb};
use crate::number::number_in;
use crate::query::{drain_by, health_by};
use crate::refusal::Refusal;
use message_fields::{authority, first_value};
use message_parts::{Header, Request};

/// The call of a request to an address for this audience; or why it is none. For anyone it only
/// looks. It takes no memory.
pub fn read_call(request: &Request, audience: Audience<'_>) -> Result<Call, Refusal>
    ensures value { result ≡ call_of audience.entry request.now }
    ensures looks { audience.entry ≡ Anyone → IfOk result IsLook }
{
    if !is_named(request, audience) {
        return Err(Refusal::ForeignHost);
    }
    match endpoint_for(request.path.as_str(), audience) {
        Some(endpoint) => asked_at(endpoint, request),
        None => Err(Refusal::UnknownPath),
    }
}

/// Whether the request names the address as its audience has to.
fn is_named(request: &Request, audience: Audience<'_>) -> bool
    ensures { result ≡ is_named audience.entry request.now }
{
    match audience {
        Audience::Operator(host) => {
            let host = host.as_bytes();
            names_host(request.headers.as_slice(), host)
                && names_authority(request.target.as_bytes(), host)
        }
        Audience::Anyone => true,
    }
}

/// What lies at a path for this audience.
fn endpoint_for(path: &str, audience: Audience<'_>) -> Option<Endpoint>
    ensures { result ≡ endpoint_for audience.entry path.now }
{
    let endpoint = Endpoint::at(path)?;
    match audience {
        Audience::Anyone if !endpoint.is_open() => None,
        _ => Some(endpoint),
    }
}

/// Whether the line of Host is this text.
fn names_host(lines: &[Header], host: &[u8]) -> bool
    ensures { result ≡ names_host host.now lines.now }
{
    match first_value(lines, b"host") {
        Some(value) => value == host,
        None => false,
    }
}

/// Whether the target, where it is absolute, has this authority.
fn names_authority(target: &[u8], host: &[u8]) -> bool
    ensures { result ≡ names_authority host.now target.now }
{
    match authority(target) {
        Some(authority) => authority == host,
        None => true,
    }
}

/// Whether a line is `X-Admission: yes`, the first one of its name.
fn is_marked(lines: &[Header]) -> bool
    ensures { result ≡ is_marked lines.now }
{
    match first_value(lines, b"x-admission") {
        Some(value) => value == b"yes".as_slice(),
        None => false,
    }
}

/// The call that a request makes of what lies at its path.
fn asked_at(endpoint: Endpoint, request: &Request) -> Result<Call, Refusal>
    ensures { result ≡ asked_at endpoint request.now }
{
    let verb = endpoint.verb();
    if !verb.takes(request.method.as_slice()) {
        return Err(Refusal::OtherMethod(verb));
    }
    match verb {
        Verb::Post if !is_marked(request.headers.as_slice()) => Err(Refusal::WithoutMark),
        _ => call_at(endpoint, request),
    }
}

/// The call that is made by what lies at a path, with what its request tells.
fn call_at(endpoint: Endpoint, request: &Request) -> Result<Call, Refusal>
    ensures { result ≡ call_at endpoint request.now }
{
    match endpoint {
        Endpoint::Page => Ok(Call::Look(Look::Page)),
        Endpoint::Metrics => Ok(Call::Look(Look::Metrics)),
        Endpoint::Health => Ok(Call::Look(health_by(request.target.as_str()))),
        Endpoint::Limit => changing(limit_by(request)),
        Endpoint::Reset => Ok(Call::Change(Change::Reset)),
        Endpoint::Drain => changing(drain_by(request.target.as_str())),
    }
}

/// The call of a change, where one is asked for.
fn changing(change: Result<Change, Refusal>) -> Result<Call, Refusal>
    ensures { result ≡ changing change }
{
    match change {
        Ok(change) => Ok(Call::Change(change)),
        Err(refusal) => Err(refusal),
    }
}

/// The limit that a request asks for.
fn limit_by(request: &Request) -> Result<Change, Refusal>
    ensures { result ≡ set_to (told_number request.now.body) }
{
    match told_number(request) {
        Some(n) => Ok(Change::SetLimit(n)),
        None => Err(Refusal::NoNumber),
    }
}

/// The number that the body of a request tells.
fn told_number(request: &Request) -> Option<u32>
    ensures { result ≡ told_number request.now.body }
{
    number_in(request.body.as_ref()?.as_slice())
}
