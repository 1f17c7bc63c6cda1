// Whether the backend is reached, as far as tries to connect tell.
ghost use Rattle.std.specs.Prelude.{◌≡◌};
ghost use Rattle.serve_reports.specs.Reaching.{is_unreached, noted, unnoted};

use tcp_backend::ConnectionEvent;

/// For how long no connection is made before the backend counts as unreached, in nanoseconds: ten
/// seconds. What was tried longer ago isn't tried any more.
const LENGTH_NS: u64 = 10_000_000_000;

/// What is known of tries to connect to the backend.
#[derive(Clone, Copy)]
pub struct Reaching {
    // When the first try began since a connection was made.
    first: Option<u64>,
    // When the last try began or failed since then.
    last: u64,
    // How many tries there are at this moment.
    pending: u64,
}

impl Reaching {
    /// Nothing was tried yet.
    pub fn new() -> Reaching
        ensures { result ≡ unnoted }
    {
        Reaching {
            first: None,
            last: 0,
            pending: 0,
        }
    }

    /// Notes what became of a connection at this moment in nanoseconds.
    pub fn note(&mut self, event: ConnectionEvent, now: u64)
        ensures { self.new ≡ noted self.old event now }
    {
        match event {
            ConnectionEvent::Dialing => {
                self.first = Some(self.first.unwrap_or(now));
                self.last = now;
                self.pending = self.pending.saturating_add(1);
            }
            ConnectionEvent::Unreached => {
                self.last = now;
                self.pending = self.pending.saturating_sub(1);
            }
            ConnectionEvent::Opened => {
                self.first = None;
                self.pending = self.pending.saturating_sub(1);
            }
            _ => {}
        }
    }

    /// Returns whether no connection was made in the ten seconds before this moment, although one
    /// was tried at their beginning, and one since or still.
    pub fn is_unreached(&self, now: u64) -> bool
        ensures { result ≡ is_unreached self.now now }
    {
        let Some(first) = self.first else {
            return false;
        };
        let is_tried = self.pending > 0 || now.saturating_sub(self.last) < LENGTH_NS;
        is_tried && LENGTH_NS <= now.saturating_sub(first)
    }
}

/// Whether an event is the beginning or the end of a try to connect.
pub(crate) fn is_try(event: &ConnectionEvent) -> bool {
    matches!(
        event,
        ConnectionEvent::Dialing | ConnectionEvent::Unreached | ConnectionEvent::Opened
    )
}
