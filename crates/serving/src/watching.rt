// What a door is told of exchanges.

use handling::{ClientWatch, Protocol};
use proxy::{Exchange, Watch};
use std::io::Error;

/// The protocol of clients that are served by exchanges: an exchange tells whether its client is
/// kept.
pub enum Exchanges {}

impl Protocol<Exchange> for Exchanges {
    ghost use Rattle.std.specs.Prelude.{true};
    ghost use Rattle.proxy.specs.Made.{is_kept, with_sent};

    ghost keeps_some = { true };

    ghost kept = { is_kept };

    ghost told_sent = { with_sent };

    fn keeps_clients() -> bool {
        true
    }

    fn is_kept(told: &Exchange) -> bool {
        told.is_kept()
    }

    fn with_sent(told: Exchange, is_sent: bool) -> Exchange {
        told.with_sent(is_sent)
    }

    // Without a fault of writing all was sent, by a flush; but that a flush sends all is in no
    // clause of std's.
    fn is_answered(told: &Exchange) -> bool {
        let summary = told.summary();
        told.is_sent() && summary.answer.is_some() && summary.written_fault.is_none()
    }

    fn is_read(told: &Exchange) -> bool {
        told.summary().class.is_some()
    }
}

/// Reports the clients of a door, and their exchanges, to the watch of a gateway.
#[derive(Drop)]
pub struct ExchangeWatch<'a, W> {
    pub(crate) watch: &'a W,
}

impl<'a, W: Watch> ClientWatch for ExchangeWatch<'a, W> {
    type Told = Exchange;

    type Protocol = Exchanges;

    fn accepted(&self) -> u64 {
        self.watch.accepted()
    }

    fn unaccepted(&self, error: &Error) {
        self.watch.unaccepted(error);
    }

    fn ended(&self, told: Exchange, since: u64) {
        self.watch.ended(&told.end(), since);
    }
}
