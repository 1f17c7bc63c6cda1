// What the log says as a gateway begins to serve: where it listens, what is too few of its workers
// or descriptors, and why a configuration can't be read or an address can't be bound. No contract
// speaks of it; but what `log_listening` compares with the workers is pinned (`specs/Inside.antt`).
ghost use Rattle.std.specs.Prelude.{◌≡◌};
ghost use Rattle.gateway_settings.specs.Settings.{AreSound};
ghost use Rattle.serve_command.specs.Inside.{most_inside};

use crate::descriptors::wanted_by;
use crate::limits::{FILES, limit_on};
use commands::ServeOptions;
use config_explain::odd_routes;
use config_file::{Opener, why_unread};
use gateway_settings::Settings;
use limit_kinds::LimitKind;
use limit_laws::Limit;
use log::{Log, error, info, warn};
use std::alloc::Global;
use std::io::Error;
use std::net::SocketAddrV4;

/// The most workers.
const MOST_WORKERS: u64 = 64;

/// The most exchanges at once.
const MOST_EXCHANGES: u64 = 4_096;

/// Logs where clients are listened for, by how many workers or exchanges at once, and the kind of
/// limit.
///
/// Three warnings may stand before it: where as many as may be in flight or wait exceed the
/// workers, since who comes while all workers are taken waits unseen in the system's accept queue
/// and isn't refused; where the workers may want more descriptors than the system gives; and where
/// the backend is this gateway itself, since each request would then take one worker after the
/// other.
pub(crate) fn log_listening<R: Log, F: Opener>(
    rt: &R,
    files: &F,
    alloc: Global,
    settings: &Settings,
    service: &ServeOptions<'_>,
)
    requires { AreSound settings.now }
{
    let workers = service.threads();
    let inside = most_inside(settings, workers);
    if inside > u64::from(workers) {
        log_crowd(rt, inside, workers);
    }
    log_descriptors(rt, files, alloc, workers, settings.backends);
    let address = settings.listen.socket();
    let backend = settings.backend.socket();
    if leads_back(address, backend) {
        warn!(rt; target: "admission", backend:%;
            "the backend is this gateway itself: each request comes back to it");
    }
    match service.exchanges {
        Some(exchanges) => log_exchanges(rt, settings, exchanges),
        None => log_workers(rt, settings, workers),
    }
}

/// Logs that as many as may be in flight or wait exceed the workers, and what is enough for them:
/// so many workers, or exchanges at once where so many workers can't be.
fn log_crowd<R: Log>(rt: &R, inside: u64, workers: u32) {
    let wanted = inside.saturating_add(1);
    if wanted <= MOST_WORKERS {
        warn!(rt; target: "admission", inside, workers, wanted;
            "limit, shares and backlog exceed the workers: past these nobody is served or refused");
    } else if wanted <= MOST_EXCHANGES {
        let exchanges = wanted;
        warn!(rt; target: "admission", inside, workers, exchanges;
            "limit, shares and backlog exceed the workers: past these nobody is served or refused");
    } else {
        let most = MOST_EXCHANGES;
        warn!(rt; target: "admission", inside, workers, most;
            "limit, shares and backlog exceed the workers: past these nobody is served or refused");
    }
}

/// Logs each route of a configuration that doesn't match what it seems to, by the text and the
/// settings that it holds, unless it is out of memory for them.
pub(crate) fn log_odd_routes<R: Log>(rt: &R, alloc: Global, settings: &Settings, text: &[u8]) {
    if settings.rules.resolvers().is_empty() {
        return;
    }
    let Ok(routes) = odd_routes(alloc, text) else {
        return;
    };
    for route in &routes {
        let (resolver, pattern) = (route.resolver, route.pattern.as_str());
        let why = route.flaw.words();
        warn!(rt; target: "admission", resolver, route = pattern, why;
            "a route doesn't match what it seems to");
    }
}

/// Logs where clients are listened for, by how many exchanges at once, and what follows from their
/// number: the greatest limit and the backlog.
fn log_exchanges<R: Log>(rt: &R, settings: &Settings, exchanges: u32) {
    let address = settings.listen.socket();
    let limit = settings.limit.kind().word();
    let max = settings.limit.hi();
    let backlog = settings.waiting();
    let keepalive = settings.keepalive().word();
    info!(rt; target: "admission", address:%, exchanges, limit, max, backlog, keepalive;
        "listening");
}

/// Logs where clients are listened for, by how many workers, which connections are kept, and of a
/// limit without numbers how far it goes up.
fn log_workers<R: Log>(rt: &R, settings: &Settings, workers: u32)
    requires { AreSound settings.now }
{
    let address = settings.listen.socket();
    let kind = settings.limit.kind();
    let limit = kind.word();
    let keepalive = settings.keepalive().word();
    match kind {
        LimitKind::Auto => {
            let max = settings.limit_for(workers).hi();
            info!(rt; target: "admission", address:%, workers, limit, max, keepalive; "listening");
        }
        _ => info!(rt; target: "admission", address:%, workers, limit, keepalive; "listening"),
    }
}

/// Logs why the file of the configuration can't be read, unless it is out of memory for the words.
pub(crate) fn log_unread<R: Log, F: Opener>(rt: &R, files: &F, alloc: Global, path: &str) {
    if let Ok(reason) = why_unread(files, alloc, path) {
        let error = reason.as_str();
        error!(rt; target: "admission", path:%, error:%; "the configuration can't be read");
    }
}

/// Logs where an operator is listened for.
pub(crate) fn log_admin<R: Log>(rt: &R, address: SocketAddrV4) {
    info!(rt; target: "admission", address:%; "listening for the operator");
}

/// Logs where whoever looks at the state is listened for.
pub(crate) fn log_status<R: Log>(rt: &R, address: SocketAddrV4) {
    info!(rt; target: "admission", address:%; "listening for looks at the state");
}

/// Logs why an address can't be bound.
pub(crate) fn log_unbound<R: Log>(rt: &R, address: SocketAddrV4, error: &Error) {
    error!(rt; target: "admission", address:%, error:%; "the address can't be bound");
}

/// Logs a warning where each worker with a client and a backend, and so many connections to the
/// backend that are kept, would want more descriptors than the system gives, with some for the
/// program itself.
fn log_descriptors<R: Log, F: Opener>(
    rt: &R,
    files: &F,
    alloc: Global,
    workers: u32,
    backends: u32,
) {
    let wanted = wanted_by(workers, backends);
    let Some(descriptors) = limit_on(files, alloc, FILES) else {
        return;
    };
    if descriptors < wanted {
        warn!(rt; target: "admission", descriptors, wanted;
            "too few descriptors for the workers: requests are answered 502, or not at all");
    }
}

/// How many callers the gate before so many workers lets be in flight at the greatest limit, by it
/// or by their shares, or wait.
fn most_inside(settings: &Settings, workers: u32) -> u64
    requires { AreSound settings.now }
    ensures { result ≡ most_inside workers settings.now }
{
    let limit = settings.limit_for(workers);
    settings.table.most(limit.hi()) + u64::from(settings.waiting())
}

/// Whether who connects to the backend arrives where clients are listened for: at the same port of
/// the same address, or of a loopback address where all of this host's are listened at.
fn leads_back(listen: SocketAddrV4, backend: SocketAddrV4) -> bool {
    let (here, there) = (listen.ip(), backend.ip());
    let is_here = here == there || here.is_unspecified() && there.is_loopback();
    listen.port() == backend.port() && is_here
}
