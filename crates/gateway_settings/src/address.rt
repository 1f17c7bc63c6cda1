// Where a gateway listens, and where it forwards to.
ghost use Rattle.std.specs.Net.Socket.{v4_port};
ghost use Rattle.std.specs.Net.Text.{socket_v4_text};
ghost use Rattle.std.specs.Prelude.{◌≡◌, ◌≤◌, ◌&&◌, bytes_eq, nat_le, IsTrue, Some, None, if◌then◌else◌};
ghost use Rattle.gateway_settings.specs.Address.{is_address};

use arrayvec::ArrayString;
use itoa::Buffer;
use std::marker::Model;
use std::net::SocketAddrV4;

/// An IPv4 address and a port from 1 up. A contract sees its text, as in `127.0.0.1:8080`.
#[derive(Drop)]
pub struct Address {
    socket: SocketAddrV4,
}

impl Model for Address {
    ghost use Rattle.std.specs.Prelude.{ℕ, List, ◌≤◌};
    ghost use Rattle.std.specs.Net.Socket.{v4_port};
    ghost use Rattle.std.specs.Net.Text.{socket_v4_text};

    ghost Value = { List ℕ };

    ghost view = { λ a. socket_v4_text a.socket };

    ghost invariant = { λ a. 1 ≤ v4_port a.socket };
}

impl Address {
    /// The address that this is the text of: four numbers up to 255 with dots between them, a colon
    /// and a port from 1 to 65535, all in decimal without leading zeros.
    pub fn parse(text: &str) -> Option<Address>
        ensures { result ≡ if is_address text.now then Some text.now else None }
    {
        let Ok(socket) = text.parse::<SocketAddrV4>() else {
            return None;
        };
        if is_written(socket, printed(socket).as_str(), text) {
            Some(Address { socket })
        } else {
            None
        }
    }

    /// The address and port themselves.
    pub fn socket(&self) -> SocketAddrV4
        ensures text { socket_v4_text result ≡ self.now }
        ensures port { 1 ≤ v4_port result }
    {
        self.socket
    }
}

/// The address as it is printed.
fn printed(socket: SocketAddrV4) -> ArrayString<21>
    ensures { result.bytes ≡ socket_v4_text socket }
{
    let [first, second, third, fourth] = socket.ip().octets();
    let mut number = Buffer::new();
    let mut text = ArrayString::new();
    text.push_str(number.format(first));
    text.push_str(".");
    text.push_str(number.format(second));
    text.push_str(".");
    text.push_str(number.format(third));
    text.push_str(".");
    text.push_str(number.format(fourth));
    text.push_str(":");
    text.push_str(number.format(socket.port()));
    text
}

/// Whether the text is the address as it is printed, with a port from 1 up.
fn is_written(socket: SocketAddrV4, printed: &str, text: &str) -> bool
    ensures test { result ≡ (bytes_eq printed.now text.now && nat_le 1 (v4_port socket)) }
    ensures same { IsTrue result → printed.now ≡ text.now }
    ensures port { IsTrue result → 1 ≤ v4_port socket }
{
    printed == text && 1 <= socket.port()
}
