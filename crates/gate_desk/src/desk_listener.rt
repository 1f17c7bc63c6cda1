// A listener as a desk has it.
ghost use Rattle.std.specs.Prelude.{◌≡◌, true, false};
ghost use Rattle.gate_desk.specs.Listeners.{is_shut, listener_in};

use listening::{Closable, Listener};
use seats::ClientConnections;
use std::time::{Clock as SystemClock, Duration};

/// A listener as a desk has it, which may ask whether connections still come, and close it for good
/// only where it may change itself.
#[derive(Drop)]
pub struct DeskListener<'a, L> {
    listener: &'a L,
    is_shut: bool,
}

impl<'a, L> DeskListener<'a, L> {
    /// A listener that wasn't closed here.
    pub fn new(listener: &'a L) -> DeskListener<'a, L>
        ensures listener { listener_in result ≡ listener.now }
        ensures open { is_shut result ≡ false }
    {
        DeskListener {
            listener,
            is_shut: false,
        }
    }
}

impl<'a, L: Listener> DeskListener<'a, L> {
    // Whether connections still come: nobody has closed it, here or elsewhere.
    pub(crate) fn is_open(&self) -> bool
        ensures { is_shut self.now ≡ true → result ≡ false }
    {
        !self.is_shut && self.listener.is_open()
    }

    // How many connections of clients wait there, and what became of those that there were.
    pub(crate) fn connections(&self) -> ClientConnections {
        self.listener.connections()
    }
}

impl<'a, L: Closable> DeskListener<'a, L> {
    // Lets no further client come; those who wait still do, for so long at most.
    pub(crate) fn close<R: SystemClock>(&mut self, rt: &R, most: Duration)
        ensures listener { listener_in self.new ≡ listener_in self.old }
        ensures shut { is_shut self.new ≡ true }
        ensures closed { L.closed (listener_in self.old) }
    {
        self.is_shut = true;
        self.listener.close(rt, most);
    }
}
