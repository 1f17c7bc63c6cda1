// How a client names an address.
ghost use Rattle.std.specs.Prelude.{◌≡◌, IfOk, string_bytes};
ghost use Rattle.operator_calls.specs.Host.{host_of};

use std::alloc::{AllocError, Global};
use std::net::SocketAddrV4;

/// The port of HTTP, which a client doesn't name (RFC 9110, section 4.2.3).
const HTTP_PORT: u16 = 80;

/// How a client names this address, such as `127.0.0.1:9901`: its text, without the port where that
/// is 80. It fails only out of memory.
pub fn host_name(alloc: Global, address: SocketAddrV4) -> Result<String, AllocError>
    ensures { IfOk result (λ host. string_bytes host ≡ host_of address) }
{
    if address.port() == HTTP_PORT {
        return format!(in alloc; "{}", address.ip());
    }
    format!(in alloc; "{}", address)
}
