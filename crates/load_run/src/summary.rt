// What is written of an audited run.
use limiter_core::Counters;
use std::fmt;

/// How many calls a history has, and how many replies, promotions and outcomes of each kind.
#[derive(Clone, Copy)]
pub struct Summary {
    /// The calls.
    pub calls: u64,
    /// The replies, promotions and outcomes.
    pub counters: Counters,
}

/// The line of the counters.
#[derive(Clone, Copy)]
struct CountersLine(Counters);

impl fmt::Display for CountersLine {
    ghost use Rattle.std.specs.Prelude.{Some};
    ghost use Rattle.load_run.specs.Summary.{counters_line};

    ghost output = { λ line. Some (counters_line line.0) };

    fn fmt<W: fmt::Write>(&self, f: &mut fmt::Formatter<W>) -> fmt::Result {
        let Counters {
            admitted,
            bypassed,
            full,
            backlog_full,
            waiting,
            promoted,
            timed_out,
            success,
            ignored,
            dropped,
        } = self.0;
        write!(
            f,
            "admitted {admitted} bypassed {bypassed} full {full} backlog {backlog_full} \
             waiting {waiting} promoted {promoted} timed-out {timed_out} \
             success {success} ignored {ignored} dropped {dropped}\n"
        )
    }
}

impl fmt::Display for Summary {
    ghost use Rattle.std.specs.Prelude.{Some};
    ghost use Rattle.load_run.specs.Summary.{summary_text};

    ghost output = { λ summary. Some (summary_text summary) };

    fn fmt<W: fmt::Write>(&self, f: &mut fmt::Formatter<W>) -> fmt::Result {
        let calls = self.calls;
        let counters = CountersLine(self.counters);
        write!(f, "audit ok calls {calls}\n{counters}")
    }
}
