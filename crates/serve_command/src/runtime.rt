// What else the program does through where it logs to: all of it is the system's own.
use crate::system_log::SystemLog;
use std::io::Result;
use std::net::{Net, SocketAddr};
use std::sync::Wait;
use std::thread::Threads;
use std::time::{Clock, Duration};

impl<R: Wait> Wait for SystemLog<R> {}

impl<R: Threads> Threads for SystemLog<R> {}

impl<R: Clock> Clock for SystemLog<R> {
    fn monotonic(&self) -> Result<Duration> {
        self.system().monotonic()
    }

    fn since_1970(&self) -> Result<Duration> {
        self.system().since_1970()
    }

    fn sleep(&self, duration: Duration) {
        self.system().sleep(duration)
    }
}

// `log::Handle` passes all of this on but `connect_timeout`.
impl<R: Net> Net for SystemLog<R> {
    type Stream = R::Stream;

    type Listener = R::Listener;

    fn bind(&self, addr: SocketAddr) -> Result<R::Listener> {
        self.system().bind(addr)
    }

    fn connect(&self, addr: SocketAddr) -> Result<R::Stream> {
        self.system().connect(addr)
    }

    fn connect_timeout(&self, addr: SocketAddr, timeout: Duration) -> Result<R::Stream> {
        self.system().connect_timeout(addr, timeout)
    }
}
