// The ends of a socket.
use std::io::{Read, Result, Write};
use std::net::TcpStream;
use std::time::Duration;
use timed_io::{Inlet, Outlet, read_ready, write_ready};

/// An end of a socket: it keeps nothing, takes no room, and tells no bytes. A listener alone makes
/// one, and nobody can copy it.
#[derive(Drop)]
pub struct OpaqueEnd {
    _made: (),
}

impl OpaqueEnd {
    // An end of a new connection.
    pub(crate) fn new() -> OpaqueEnd {
        OpaqueEnd { _made: () }
    }
}

impl Inlet<TcpStream> for OpaqueEnd {
    ghost use Rattle.std.specs.Prelude.{⊤, None};

    ghost remaining = { λ _. None };

    ghost limited = { λ _ _. ⊤ };

    ghost allowed = { λ _. 0 };

    fn limit_reads(&self, stream: &TcpStream, most: Duration) -> Result<()> {
        stream.set_read_timeout(Some(most))
    }

    fn receive(&mut self, stream: &TcpStream, _most: Duration, buf: &mut [u8]) -> Result<usize> {
        let mut stream = stream;
        Read::read(&mut stream, buf)
    }

    fn receive_ready(&mut self, stream: &TcpStream, buf: &mut [u8]) -> Result<usize> {
        read_ready(stream, buf)
    }
}

impl Outlet<TcpStream> for OpaqueEnd {
    ghost use Rattle.std.specs.Prelude.{⊤, None};

    ghost contents = { λ _. None };

    ghost limited = { λ _ _. ⊤ };

    ghost allowed = { λ _. 0 };

    fn limit_writes(&self, stream: &TcpStream, most: Duration) -> Result<()> {
        stream.set_write_timeout(Some(most))
    }

    fn send(&mut self, stream: &TcpStream, _most: Duration, buf: &[u8]) -> Result<usize> {
        let mut stream = stream;
        Write::write(&mut stream, buf)
    }

    fn send_ready(&mut self, stream: &TcpStream, buf: &[u8]) -> Result<usize> {
        write_ready(stream, buf)
    }
}
