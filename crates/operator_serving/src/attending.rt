// One exchange with an operator.
ghost use Rattle.std.specs.Prelude.{◌≡◌, ◌⊎◌, None, false, true};
ghost use Rattle.counted_io.specs.Causes.{IsWriteCause};
ghost use Rattle.counted_io.specs.Effects.{Wrote};
ghost use Rattle.message_text.specs.declared.persistence.Persistence.TheVariants.{Close};
ghost use Rattle.proxy.specs.Exchanges.{told_by};
ghost use Rattle.proxy.specs.Made.{counts_of};
ghost use Rattle.proxy.specs.Table.{fault_status, own_or_nothing};
ghost use Rattle.operator_calls.specs.declared.audience.Audience.TheVariants.{Anyone};
ghost use Rattle.operator_serving.specs.Attended.{is_all_sent, reads_of, was_answered, was_read};
ghost use Rattle.operator_serving.specs.Attended.{was_written, with_sent, writes_of};
ghost use Rattle.operator_serving.specs.Attending.{IsAttended};
ghost use Rattle.operator_serving.specs.Desk.{HasLooked};
ghost use Rattle.operator_serving.specs.Memory.{refused_of};

use crate::answering::{answer, write_local};
use crate::caller::Caller;
use crate::desk::Desk;
use crate::memory::AnswerMemory;
use counted_io::Counted;
use operator_calls::{Audience, heard, read_call};
use proxy::{CallCounts, fault_status};
use std::io::{BufRead, Write};
use wire::WireFault;

/// What became of an operator's request, with the counts that its reader and its writer had at its
/// end. [`attend`] alone makes one, and nobody can copy it or let it go: so who has to hand one
/// over for each client has attended to as many.
pub struct Attended {
    pub(crate) is_read: bool,
    pub(crate) answer: Option<u16>,
    pub(crate) is_written: bool,
    pub(crate) reads: CallCounts,
    pub(crate) writes: CallCounts,
    pub(crate) is_sent: bool,
}

impl Attended {
    /// Whether a request was read whole.
    pub fn is_read(&self) -> bool
        ensures { result ≡ was_read self.now }
    {
        self.is_read
    }

    /// Whether its client was answered: with a status, and all of it was written and flushed.
    pub fn is_answered(&self) -> bool
        ensures { result ≡ was_answered self.now }
    {
        self.answer.is_some() && self.is_written
    }

    /// The same, of which its caller tells whether all was sent.
    pub fn with_sent(self, is_sent: bool) -> Attended
        ensures { result ≡ with_sent is_sent self }
    {
        let Attended {
            is_read,
            answer,
            is_written,
            reads,
            writes,
            is_sent: _,
        } = self;
        Attended {
            is_read,
            answer,
            is_written,
            reads,
            writes,
            is_sent,
        }
    }

    /// Ends it.
    pub fn end(self) {
        let Attended {
            is_read: _,
            answer: _,
            is_written: _,
            reads: _,
            writes: _,
            is_sent: _,
        } = self;
    }
}

/// Serves one connection to an address for this audience: reads a request, carries its call out at
/// the desk, and answers with a status and a text. `page` is the page that draws the state.
///
/// After a fault of reading, or where the request is no call, the desk isn't changed; the client is
/// answered with the fault's own status, after a fault of the reader, the writer or too many reads
/// not at all. A change whose caller has left once its request was read isn't carried out. Where
/// memory is refused, 500 answers, and then nothing was changed either. At an address for anyone
/// nothing is ever changed.
pub fn attend<D: Desk, K: Caller, R: BufRead, W: Write>(
    memory: &mut AnswerMemory,
    audience: Audience<'_>,
    page: &str,
    desk: &mut D,
    caller: &K,
    reader: &mut Counted<R>,
    writer: &mut Counted<W>,
) -> Attended
    ensures attended { IsAttended D.rows D.shows D.does (K.tells caller.now) audience.entry page.now
        desk.old desk.new (told_by R.remaining reader.old) (told_by R.remaining reader.new)
        (told_by W.contents writer.old) (told_by W.contents writer.new)
        (refused_of memory.old) (refused_of memory.new) result }
    ensures looks { audience.entry ≡ Anyone → HasLooked D.does desk.old desk.new }
    ensures reads { reads_of result ≡ counts_of reader.new }
    ensures writes { writes_of result ≡ counts_of writer.new }
    ensures unsent { is_all_sent result ≡ false }
    ensures broken { was_written result ≡ false → IsWriteCause writer.old writer.new }
{
    let request = match memory.request(reader, writer) {
        Ok(request) => request,
        Err(fault) => {
            let (answer, is_written) = unread(fault, writer);
            return Attended {
                is_read: false,
                answer,
                is_written,
                reads: counts_of(reader),
                writes: counts_of(writer),
                is_sent: false,
            };
        }
    };
    let call = heard(caller.has_left(), read_call(&request, audience));
    let (status, is_written) = answer(memory, page, desk, &call, &request.method, writer);
    Attended {
        is_read: true,
        answer: Some(status),
        is_written,
        reads: counts_of(reader),
        writes: counts_of(writer),
        is_sent: false,
    }
}

/// How a reader or a writer has been called.
fn counts_of<T>(counted: &Counted<T>) -> CallCounts
    ensures { result ≡ counts_of counted.now }
{
    CallCounts {
        calls: counted.calls(),
        flushes: counted.flushes(),
        failures: counted.failures(),
        is_flushed: counted.is_flushed(),
    }
}

/// Answers a request that was not read: with a status, or not at all. Tells too whether all that
/// was to be written was.
fn unread<W: Write>(fault: WireFault, writer: &mut Counted<W>) -> (Option<u16>, bool)
    ensures answer { result.0 ≡ fault_status fault }
    ensures text { result.1 ≡ true → Wrote W.contents writer.old writer.new
        (own_or_nothing Close None (fault_status fault)) }
    ensures untouched { fault ≡ WireFault.Write → writer.new ≡ writer.old }
    ensures broken { result.1 ≡ false →
        (fault ≡ WireFault.Write) ⊎ IsWriteCause writer.old writer.new }
{
    let answer = fault_status(fault);
    let is_written = match answer {
        Some(status) => write_local(writer, status),
        None => !matches!(fault, WireFault::Write),
    };
    (answer, is_written)
}
