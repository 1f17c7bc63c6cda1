// How many exchanges ended in each of the gateway's own answers.
ghost use Rattle.std.specs.Prelude.{◌≡◌};
ghost use Rattle.counted_io.specs.Count.{raised};
ghost use Rattle.serve_reports.specs.Tally.{counted, counted_at};

use proxy::ExchangeSummary;

/// How many exchanges ended in each of the gateway's own answers, by its status. A count stays at
/// `u64::MAX`.
#[derive(Clone, Copy, Default)]
pub struct AnswerTally {
    /// 400: malformed, cut off, or with two lengths.
    pub bad_request: u64,
    /// 413: a body above 8 MiB.
    pub too_large: u64,
    /// 429: no permit.
    pub refused: u64,
    /// 431: a head above 64 KiB or 100 lines.
    pub head_too_large: u64,
    /// 500: out of memory.
    pub out_of_memory: u64,
    /// 501: a method or a coding that isn't taken.
    pub not_taken: u64,
    /// 502: the backend can't be reached, or its answer can't be passed on.
    pub bad_gateway: u64,
    /// 503: all bodies that are held have as many bytes as they may.
    pub bodies: u64,
    /// 504: the backend's answer wasn't there in time.
    pub timed_out: u64,
    /// No answer is counted: a client ended what it sends before a byte of a request, and 400 was
    /// written to nobody.
    pub empty: u64,
}

impl AnswerTally {
    /// Counts an exchange, where its answer is the gateway's own, or its client sent nothing.
    pub fn count(&mut self, exchange: &ExchangeSummary)
        ensures { self.new ≡ counted exchange.now self.old }
    {
        if exchange.is_empty {
            raise(&mut self.empty);
        } else if exchange.is_own {
            if let Some(status) = exchange.answer {
                self.count_at(status);
            }
        }
    }

    /// Counts an answer of this status.
    fn count_at(&mut self, status: u16)
        ensures { self.new ≡ counted_at status self.old }
    {
        match status {
            400 => raise(&mut self.bad_request),
            413 => raise(&mut self.too_large),
            429 => raise(&mut self.refused),
            431 => raise(&mut self.head_too_large),
            500 => raise(&mut self.out_of_memory),
            501 => raise(&mut self.not_taken),
            502 => raise(&mut self.bad_gateway),
            503 => raise(&mut self.bodies),
            504 => raise(&mut self.timed_out),
            _ => {}
        }
    }
}

/// One more.
fn raise(count: &mut u64)
    ensures { count.new ≡ raised count.old }
{
    *count = count.saturating_add(1);
}
