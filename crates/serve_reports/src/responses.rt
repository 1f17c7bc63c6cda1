// How many exchanges ended in which kind of status.
ghost use Rattle.std.specs.Prelude.{◌≡◌};
ghost use Rattle.counted_io.specs.Count.{raised};
ghost use Rattle.serve_reports.specs.Responses.{responded, responded_at};

use proxy::ExchangeSummary;

/// How many exchanges ended in which kind of status, be the answer the backend's or the gateway's
/// own. A count stays at `u64::MAX`.
#[derive(Clone, Copy, Default)]
pub struct ResponseTally {
    /// 200 to 299.
    pub successful: u64,
    /// 300 to 399.
    pub redirection: u64,
    /// 400 to 499.
    pub client_error: u64,
    /// 500 to 599.
    pub server_error: u64,
    /// Another status, which RFC 9110 doesn't have.
    pub other: u64,
    /// Nothing was to be written to the client.
    pub unanswered: u64,
}

impl ResponseTally {
    /// Counts an exchange, unless its client sent nothing.
    pub fn count(&mut self, exchange: &ExchangeSummary)
        ensures { self.new ≡ responded exchange.now self.old }
    {
        if exchange.is_empty {
            return;
        }
        match exchange.answer {
            Some(status) => self.count_at(status),
            None => raise(&mut self.unanswered),
        }
    }

    /// Counts an answer of this status.
    fn count_at(&mut self, status: u16)
        ensures { self.new ≡ responded_at status self.old }
    {
        match status {
            200..=299 => raise(&mut self.successful),
            300..=399 => raise(&mut self.redirection),
            400..=499 => raise(&mut self.client_error),
            500..=599 => raise(&mut self.server_error),
            _ => raise(&mut self.other),
        }
    }
}

/// One more.
fn raise(count: &mut u64)
    ensures { count.new ≡ raised count.old }
{
    *count = count.saturating_add(1);
}
