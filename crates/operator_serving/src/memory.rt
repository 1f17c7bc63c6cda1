// Where the memory of answers comes from.
ghost use Rattle.std.specs.Prelude.{◌≡◌, IfErr, IfOk, IsErrOf, OnOk, string_bytes};
ghost use Rattle.counted_io.specs.Causes.{HasRead, IsWriteCause};
ghost use Rattle.counted_io.specs.Count.{raised_by_err};
ghost use Rattle.counted_io.specs.Counted.{failures_of, inner_of};
ghost use Rattle.message_reading.specs.Reading.{HasFailed};
ghost use Rattle.metrics.specs.Metrics.{metrics_text};
ghost use Rattle.operator_serving.specs.Memory.{refused_by, refused_of};
ghost use Rattle.operator_serving.specs.Telling.{lines_of};
ghost use Rattle.wire.specs.Fault.{IsUsedUp, Reads};
ghost use Rattle.wire.specs.Messages.{IsRequest, Said, SaidFront};

use crate::lines::make_lines;
use counted_io::Counted;
use gate_port::Report;
use message_parts::{Headers, Request};
use metrics::metrics_text;
use operator_calls::{Call, Refusal};
use partitions::PartitionTable;
use serve_reports::GatewayStats;
use std::alloc::{AllocError, Global};
use std::io::{BufRead, Write};
use wire::{WireFault, read_request};

/// What requests are read into and answers are made in, with how often that was refused, up to the
/// greatest u64. Only a request, a text or its lines that can't be had raise it.
#[derive(Drop)]
pub struct AnswerMemory {
    alloc: Global,
    refused: u64,
}

impl AnswerMemory {
    /// Nothing was refused yet.
    pub fn new(alloc: Global) -> AnswerMemory
        ensures { refused_of result ≡ 0 }
    {
        AnswerMemory { alloc, refused: 0 }
    }

    /// The request that comes next, as [`read_request`] tells it.
    pub(crate) fn request<R: BufRead, W: Write>(
        &mut self,
        reader: &mut Counted<R>,
        writer: &mut Counted<W>,
    ) -> Result<Request, WireFault>
        ensures request { Reads R.remaining reader.old reader.new (λ request. request)
            IsRequest result }
        ensures said { ¬ (IsErrOf result WireFault.Write) → Said
            (R.remaining (inner_of reader.old)) (W.contents (inner_of writer.old))
            (W.contents (inner_of writer.new)) result }
        ensures reads_well { OnOk result (failures_of reader.new ≡ failures_of reader.old) }
        ensures unfailing { ¬ (IsErrOf result WireFault.Write) →
            failures_of writer.new ≡ failures_of writer.old }
        ensures read { IsErrOf result WireFault.Read → HasFailed reader.old reader.new }
        ensures write { IsErrOf result WireFault.Write → IsWriteCause writer.old writer.new }
        ensures front { IsErrOf result WireFault.Write → SaidFront
            (R.remaining (inner_of reader.old)) (W.contents (inner_of writer.old))
            (W.contents (inner_of writer.new)) }
        ensures turns { IsErrOf result WireFault.TurnLimit → IsUsedUp reader.old reader.new }
        ensures reads { HasRead reader.old reader.new }
        ensures refused { IfErr result (λ fault.
            refused_of self.new ≡ refused_by fault (refused_of self.old)) }
        ensures unrefused { OnOk result (refused_of self.new ≡ refused_of self.old) }
    {
        let read = read_request(&mut self.alloc, reader, writer);
        if let Err(WireFault::Memory) = &read {
            self.refused = self.refused.saturating_add(1);
        }
        read
    }

    /// The header lines of what is told of a call or a refusal, and of a text's length where that
    /// is to be told by a line of its own.
    pub(crate) fn lines(
        &mut self,
        call: &Result<Call, Refusal>,
        length: Option<usize>,
    ) -> Result<Headers, AllocError>
        ensures lines { IfOk result (λ lines. lines ≡ lines_of call.now length) }
        ensures refused { refused_of self.new ≡ raised_by_err result (refused_of self.old) }
    {
        let made = make_lines(self.alloc, call, length);
        if made.is_err() {
            self.refused = self.refused.saturating_add(1);
        }
        made
    }

    /// The text of the metrics.
    pub(crate) fn metrics(
        &mut self,
        report: &Report,
        table: &PartitionTable,
        noted: &GatewayStats,
    ) -> Result<String, AllocError>
        ensures text { IfOk result (λ text.
            string_bytes text ≡ metrics_text report.now table.now noted.now) }
        ensures refused { refused_of self.new ≡ raised_by_err result (refused_of self.old) }
    {
        let made = metrics_text(self.alloc, report, table, noted);
        if made.is_err() {
            self.refused = self.refused.saturating_add(1);
        }
        made
    }
}
