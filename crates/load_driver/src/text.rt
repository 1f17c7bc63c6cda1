// The line that is written of an entry.
ghost use Rattle.std.specs.Prelude.{◌≡◌, ◌++◌, Some, OnOk, string_bytes};
ghost use Rattle.load_driver.specs.Text.{part_about, entry_text};

use limit_laws::SetFault;
use limiter_core::{Entry, Event, Reply};
use partitions::{Part, PartitionTable};
use std::alloc::AllocError;
use std::fmt;

/// A reply, and the name of the class that its event is about.
#[derive(Clone, Copy)]
struct ReplyText<'a> {
    class: &'a str,
    reply: Reply,
}

impl fmt::Display for ReplyText<'_> {
    ghost use Rattle.load_driver.specs.Text.{reply_text};

    ghost output = { λ line. Some (reply_text line.class.now line.reply) };

    fn fmt<W: fmt::Write>(&self, f: &mut fmt::Formatter<W>) -> fmt::Result {
        let class = self.class;
        match self.reply {
            Reply::Admitted { inflight } => write!(f, "admitted {class} inflight {inflight}"),
            Reply::Bypassed => f.write_str("bypassed"),
            Reply::Full => f.write_str("refused full"),
            Reply::BacklogFull => f.write_str("refused backlog"),
            Reply::Waiting => f.write_str("waiting"),
            Reply::Ended { promoted } => write!(f, "ended promoted {promoted}"),
            Reply::Granted { inflight, .. } => write!(f, "granted inflight {inflight}"),
            Reply::StillWaiting => f.write_str("still waiting"),
            Reply::TimedOut => f.write_str("timed out"),
            Reply::Lost => f.write_str("lost"),
            Reply::LimitSet => f.write_str("limit set"),
            Reply::Refused(SetFault::NotSettable) => f.write_str("refused not settable"),
            Reply::Refused(SetFault::OutOfRange) => f.write_str("refused out of range"),
            Reply::ResetDone => f.write_str("reset"),
            Reply::Seen {
                limit,
                total,
                waiting,
                granted,
                inflight,
                share,
            } => {
                write!(f, "seen limit {limit} total {total} waiting {waiting}")?;
                write!(f, " granted {granted} inflight {inflight} share {share}")
            }
        }
    }
}

/// The part that an event is about: the unknown one where it is about none.
fn part_about(event: Event) -> Part
    ensures { result ≡ part_about event }
{
    match event {
        Event::Acquire { part, .. } => part,
        Event::End { permit, .. } => permit.part,
        Event::Claim { .. } | Event::GiveUp { .. } | Event::SetLimit { .. } | Event::Reset { .. } =>
            Part::Unknown,
        Event::Look { part } => part,
    }
}

/// Adds the line of an entry.
pub(crate) fn push_entry(
    text: &mut String,
    table: &PartitionTable,
    number: u64,
    entry: Entry,
) -> Result<(), AllocError>
    ensures { OnOk result (string_bytes text.new
        ≡ string_bytes text.old ++ entry_text table.now number entry) }
{
    match entry {
        Entry::Call { event, reply } => {
            let line = ReplyText {
                class: table.name(part_about(event)),
                reply,
            };
            writeln!(text, "{number} {line}")
        }
        Entry::Promotion {
            waiter,
            inflight,
            ..
        } => writeln!(text, "{number} promoted {waiter} inflight {inflight}"),
    }
}
