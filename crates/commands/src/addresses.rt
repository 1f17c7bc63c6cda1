// Addresses that options give.
ghost use Rattle.std.specs.Prelude.{IfSome, IsNone};
ghost use Rattle.std.specs.declared.net.socket_addr.SocketAddrV4.{SocketAddrV4 as Socket};
ghost use Rattle.clap.specs.Words.{found_of, rows_of};
ghost use Rattle.commands.specs.Options.{address as any_address, loopback as any_loopback};
ghost use Rattle.commands.specs.Values.{HasAddress, HasLoopback, Lacks, MayHaveAddress};
ghost use Rattle.commands.specs.Values.{MayHaveLoopback};

use clap::ArgMatches;
use std::net::SocketAddrV4;

/// The address of an option, where it has a port from 1 up.
fn address(matches: &ArgMatches<'_>, id: &str) -> Option<SocketAddrV4>
    ensures value { IfSome result (HasAddress (rows_of (found_of matches.now)) id.now) }
    ensures none { IsNone result → (a : Socket)
        → HasAddress (rows_of (found_of matches.now)) id.now a → ⊥ }
{
    match matches.get_one::<SocketAddrV4>(id) {
        Some(address) if address.port() == 0 => None,
        found => found,
    }
}

/// That of an option, where it is a loopback address too.
fn loopback(matches: &ArgMatches<'_>, id: &str) -> Option<SocketAddrV4>
    ensures value { IfSome result (HasLoopback (rows_of (found_of matches.now)) id.now) }
    ensures none { IsNone result → (a : Socket)
        → HasLoopback (rows_of (found_of matches.now)) id.now a → ⊥ }
{
    match address(matches, id) {
        Some(address) if !address.ip().is_loopback() => None,
        found => found,
    }
}

/// The address of an option that may be left out.
pub(crate) fn optional_address(matches: &ArgMatches<'_>, id: &str) -> Option<Option<SocketAddrV4>>
    ensures value { IfSome result (MayHaveAddress (rows_of (found_of matches.now)) id.now) }
    ensures none { IsNone result → Lacks (rows_of (found_of matches.now)) id.now any_address }
{
    match matches.get_str(id) {
        None => Some(None),
        Some(_) => Some(Some(address(matches, id)?)),
    }
}

/// That of one that may be left out, and else is a loopback address.
pub(crate) fn optional_loopback(matches: &ArgMatches<'_>, id: &str) -> Option<Option<SocketAddrV4>>
    ensures value { IfSome result (MayHaveLoopback (rows_of (found_of matches.now)) id.now) }
    ensures none { IsNone result → Lacks (rows_of (found_of matches.now)) id.now any_loopback }
{
    match matches.get_str(id) {
        None => Some(None),
        Some(_) => Some(Some(loopback(matches, id)?)),
    }
}
