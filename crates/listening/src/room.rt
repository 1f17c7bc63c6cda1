// Where clients wait until they send something.
use libc::net::{
    EPOLL_CTL_ADD, EPOLL_CTL_MOD, EPOLLET, EPOLLHUP, EPOLLIN, EPOLLONESHOT, EPOLLRDHUP,
};
use os::{EpollEvent, epoll_ctl, epoll_wait};
use seats::{ClientConnections, ClientCounts, ClientEvent, Places, Seats};
use std::alloc::{AllocError, Global};
use std::io::{Error, Result};
use std::net::{Net, TcpStream};
use std::os::fd::{AsRawFd, RawFd};
use std::sync::{Mutex, Wait};
use std::time::{Clock, Duration};
use timed_io::Connection;

/// The number of the listener among the events: no seat has it.
const LISTENER: u64 = u64::MAX;

/// What is told of the listener: whenever another connection comes, to one of those who wait.
const OF_LISTENER: u32 = EPOLLIN | EPOLLET;

/// What is told of a client: that something comes of it, or its end, once.
const OF_CLIENTS: u32 = EPOLLIN | EPOLLRDHUP | EPOLLONESHOT;

/// How long a wait is at most, in milliseconds: so often whoever waits looks for those whose time
/// is over.
const LONGEST_WAIT_MS: i32 = 1_000;

/// How many of those are let go before the next look at who comes.
const MOST_AT_ONCE: u32 = 64;

/// What came of a wait.
pub(crate) enum Came {
    /// Nothing yet.
    Nothing,
    /// Connections lie at the listener, or that was closed.
    Connection,
    /// Someone who waited has sent something, or has ended what it sends.
    New(TcpStream),
    /// Someone who is kept has sent something.
    Kept(TcpStream),
}

/// Where clients wait until they send something: a set of the system's (`epoll(7)`) that all who
/// serve them wait at, and their seats. Each event is told to one of these alone, once.
#[derive(Drop)]
pub(crate) struct Room<'r, R> {
    rt: &'r R,
    set: mio::Poll,
    // None until places are offered, and once it is closed.
    seats: Mutex<Option<Seats<TcpStream>>>,
    counts: ClientCounts,
}

impl<'r, R: Net + Wait + Clock> Room<'r, R> {
    /// A room without places, before a listener.
    pub(crate) fn new<L: AsRawFd>(rt: &'r R, listener: &L) -> Result<Room<'r, R>> {
        let set = mio::Poll::new(rt)?;
        let room = Room {
            rt,
            set,
            seats: Mutex::new(None),
            counts: ClientCounts::new(),
        };
        room.watch(EPOLL_CTL_ADD, listener.as_raw_fd(), OF_LISTENER, LISTENER)?;
        Ok(room)
    }

    /// From now on there are these places. It fails only out of memory, of which who comes later
    /// takes none.
    pub(crate) fn offer(
        &self,
        alloc: Global,
        places: Places,
    ) -> std::result::Result<(), AllocError> {
        let seats = Seats::new(alloc, places)?;
        *self.seats.lock(self.rt) = Some(seats);
        Ok(())
    }

    /// Nobody waits any more: who does is let go, and there are no places.
    pub(crate) fn close(&self) {
        let _gone = self.seats.lock(self.rt).take();
    }

    /// Lets those go whose time is over, and waits for the next event, or for a second.
    pub(crate) fn wait(&self) -> Came {
        let mut events = [EpollEvent { events: 0, data: 0 }];
        let most = self.let_late_go();
        if epoll_wait(self.set.as_raw_fd(), &mut events, most) == 0 {
            return Came::Nothing;
        }
        match events[0].data {
            LISTENER => Came::Connection,
            number => self.called(number, events[0].events),
        }
    }

    /// Has those be told of who lie at the listener still.
    pub(crate) fn watch_listener<L: AsRawFd>(&self, listener: &L) -> Result<()> {
        self.watch(EPOLL_CTL_MOD, listener.as_raw_fd(), OF_LISTENER, LISTENER)
    }

    /// How many wait, and what became of those who came.
    pub(crate) fn connections(&self) -> ClientConnections {
        let (silent, idle) = match &*self.seats.lock(self.rt) {
            Some(seats) => seats.lens(),
            None => (0, 0),
        };
        self.counts.beside(silent, idle)
    }

    /// Who came just now is handed back where it is wanted and has sent something, or can't wait;
    /// else it waits. Who has sent something already is told of at once.
    pub(crate) fn admit(&self, client: TcpStream, is_wanted: bool) -> Option<TcpStream> {
        self.counts.count(ClientEvent::Opened);
        if is_wanted && client.has_unread() {
            return Some(client);
        }
        self.seat(client, false)
    }

    /// Whether a place is free, so that one more may wait and nobody has to go for it.
    pub(crate) fn has_place(&self) -> bool {
        match &*self.seats.lock(self.rt) {
            Some(seats) => !seats.is_full(),
            None => false,
        }
    }

    /// Who was served waits for its next request; it is handed back where it can't.
    pub(crate) fn keep(&self, client: TcpStream) -> Option<TcpStream> {
        self.seat(client, true)
    }

    /// The set's descriptor, which can be read where there is an event.
    pub(crate) fn as_raw_fd(&self) -> RawFd {
        self.set.as_raw_fd()
    }

    /// Whether somebody new waits who came less than so long ago.
    pub(crate) fn has_newcomer(&self, newest: Duration) -> bool {
        let Ok(now) = self.rt.monotonic() else {
            return false;
        };
        match &*self.seats.lock(self.rt) {
            Some(seats) => seats.last_waited(now).is_some_and(|waited| waited < newest),
            None => false,
        }
    }

    // Has the client wait. It is seated and watched under one lock: who is told of it finds it
    // there, and nobody lets it go in between.
    fn seat(&self, client: TcpStream, is_kept: bool) -> Option<TcpStream> {
        let Ok(now) = self.rt.monotonic() else {
            return Some(client);
        };
        let file = client.as_raw_fd();
        let mut places = self.seats.lock(self.rt);
        let Some(seats) = &mut *places else {
            return Some(client);
        };
        match seats.seat(client, now, is_kept) {
            Ok(seat) => {
                if seat.displaced.is_some() {
                    self.counts.count(ClientEvent::Displaced);
                }
                match self.watch_client(file, seat.number, is_kept) {
                    Ok(()) => None,
                    Err(_) => take(seats, seat.number, is_kept),
                }
            }
            Err(client) => Some(client),
        }
    }

    // Who waits by this number, of whom the system tells this. Who has left is let go: one who is
    // kept with its end, and another one, who may wait for an answer still, where its connection is
    // broken.
    fn called(&self, number: u64, told: u32) -> Came {
        let Some((client, is_kept)) = self.take(number) else {
            return Came::Nothing;
        };
        let end = if is_kept { EPOLLRDHUP } else { EPOLLHUP };
        if told & end != 0 && client.has_left() {
            return Came::Nothing;
        }
        if !is_kept {
            return Came::New(client);
        }
        self.counts.count(ClientEvent::Reused);
        Came::Kept(client)
    }

    // Takes the one of this number, and tells whether it is kept.
    fn take(&self, number: u64) -> Option<(TcpStream, bool)> {
        let mut places = self.seats.lock(self.rt);
        let Some(seats) = &mut *places else {
            return None;
        };
        if let Some(client) = seats.take_silent(number) {
            return Some((client, false));
        }
        match seats.take_kept(number) {
            Some(client) => Some((client, true)),
            None => None,
        }
    }

    // Lets some of those go whose time is over, and tells for how many milliseconds to wait: until
    // the next one's is, or for a second; without places for as long as it takes.
    fn let_late_go(&self) -> i32 {
        let Ok(now) = self.rt.monotonic() else {
            return LONGEST_WAIT_MS;
        };
        for _ in 0..MOST_AT_ONCE {
            if let Err(most) = self.take_late(now) {
                return most;
            }
            self.counts.count(ClientEvent::Late);
        }
        0
    }

    // Takes one whose time is over, or tells for how many milliseconds there is none.
    fn take_late(&self, now: Duration) -> std::result::Result<TcpStream, i32> {
        let mut places = self.seats.lock(self.rt);
        let Some(seats) = &mut *places else {
            return Err(-1);
        };
        match seats.take_late(now) {
            Some(client) => Ok(client),
            None => Err(until_next(seats, now)),
        }
    }

    // Has the system tell of a client, by this number. Who is kept is mostly watched already, since
    // it waited before its first request.
    fn watch_client(&self, file: RawFd, number: u64, is_kept: bool) -> Result<()> {
        if is_kept && self.watch(EPOLL_CTL_MOD, file, OF_CLIENTS, number).is_ok() {
            return Ok(());
        }
        self.watch(EPOLL_CTL_ADD, file, OF_CLIENTS, number)
    }

    // Has the system tell of what is wanted of this descriptor, by this number.
    fn watch(&self, how: i32, file: RawFd, wanted: u32, number: u64) -> Result<()> {
        if epoll_ctl(self.set.as_raw_fd(), how, file, wanted, number) < 0 {
            return Err(Error::from_raw_os_error(os::errno()));
        }
        Ok(())
    }
}

/// For how many milliseconds nobody's time is over, up to a second.
fn until_next(seats: &Seats<TcpStream>, now: Duration) -> i32 {
    match seats.left(now) {
        Some(left) => i32::try_from(left.as_millis())
            .unwrap_or(i32::MAX)
            .saturating_add(1)
            .min(LONGEST_WAIT_MS),
        None => LONGEST_WAIT_MS,
    }
}

/// Takes the one of this number out of its row.
fn take(seats: &mut Seats<TcpStream>, number: u64, is_kept: bool) -> Option<TcpStream> {
    if is_kept {
        seats.take_kept(number)
    } else {
        seats.take_silent(number)
    }
}
