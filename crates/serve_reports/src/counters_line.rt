// The line of a gate's counters.
ghost use Rattle.std.specs.Prelude.{◌≡◌, true, OnErr, OnOk};
ghost use Rattle.counted_io.specs.Counted.{failures_of, is_flushed};
ghost use Rattle.counted_io.specs.Effects.{Wrote};
ghost use Rattle.counted_io.specs.Causes.{IsWriteCause};
ghost use Rattle.serve_reports.specs.CountersLine.{counters_line};

use counted_io::{Counted, WriteFault};
use fault_lines::write_line;
use itoa::Buffer;
use limiter_core::Counters;
use std::io::Write;

/// Writes the line of the counters, and flushes. It takes no memory.
pub fn write_counters<W: Write>(
    writer: &mut Counted<W>,
    counters: &Counters,
) -> Result<(), WriteFault>
    ensures all { OnOk result
        (Wrote W.contents writer.old writer.new (counters_line counters.now)) }
    ensures unfailing { OnOk result (failures_of writer.new ≡ failures_of writer.old) }
    ensures flushed { OnOk result (is_flushed writer.new ≡ true) }
    ensures failed { OnErr result (IsWriteCause writer.old writer.new) }
{
    let mut admitted = Buffer::new();
    let mut bypassed = Buffer::new();
    let mut full = Buffer::new();
    let mut backlog = Buffer::new();
    let mut waiting = Buffer::new();
    let mut promoted = Buffer::new();
    let mut timed_out = Buffer::new();
    let mut success = Buffer::new();
    let mut ignored = Buffer::new();
    let mut dropped = Buffer::new();
    let pieces = [
        "admitted ",
        admitted.format(counters.admitted),
        " bypassed ",
        bypassed.format(counters.bypassed),
        " full ",
        full.format(counters.full),
        " backlog ",
        backlog.format(counters.backlog_full),
        " waiting ",
        waiting.format(counters.waiting),
        " promoted ",
        promoted.format(counters.promoted),
        " timed-out ",
        timed_out.format(counters.timed_out),
        " success ",
        success.format(counters.success),
        " ignored ",
        ignored.format(counters.ignored),
        " dropped ",
        dropped.format(counters.dropped),
    ];
    write_line(writer, &pieces)
}
