// A flush reaches the writer inside, which no contract of a writer tells.
use crate::checks::check;
use counted_io::Counted;
use lent_io::{BufferedWrite, WriteBuffer};
use std::alloc::Global;
use std::io::{Error, ErrorKind, Result, Write};

// Takes all that is written; a flush is answered by `outcome`, where there is one, and counted.
#[derive(Drop)]
struct Valve {
    taken: usize,
    flushed: u64,
    outcome: Option<ErrorKind>,
}

impl Write for Valve {
    fn write(&mut self, buf: &[u8]) -> Result<usize> {
        self.taken = self.taken.saturating_add(buf.len());
        Ok(buf.len())
    }

    fn flush(&mut self) -> Result<()> {
        self.flushed = self.flushed.saturating_add(1);
        match self.outcome {
            None => Ok(()),
            Some(kind) => Err(Error::from(kind)),
        }
    }
}

/// A valve that answers a flush so.
fn valve_of(outcome: Option<ErrorKind>) -> Valve {
    Valve {
        taken: 0,
        flushed: 0,
        outcome,
    }
}

/// Why a flush fails, where it does.
fn fault_of_flush<W: Write>(writer: &mut Counted<W>) -> Option<ErrorKind> {
    match writer.flush() {
        Ok(()) => None,
        Err(error) => Some(error.kind()),
    }
}

/// A flush is answered so, and reaches the writer inside once.
fn is_flushed_so(outcome: Option<ErrorKind>) -> bool {
    let mut valve = valve_of(outcome);
    fault_of_flush(&mut Counted::new(&mut valve)) == outcome && valve.flushed == 1
}

#[test]
fn a_flush_reaches_the_writer_inside_and_its_failure_comes_back(rt: HostRuntime) {
    check(&rt, is_flushed_so(None));
    check(&rt, is_flushed_so(Some(ErrorKind::BrokenPipe)));
}

/// How many bytes and flushes come through a buffer, by a write and a flush.
fn through_a_buffer(alloc: Global) -> (usize, u64) {
    let Ok(buffer) = WriteBuffer::new(alloc, 8) else {
        return (0, 0);
    };
    let mut writer = BufferedWrite::new(valve_of(None), buffer);
    let is_well = writer.write(b"four").is_ok() && writer.flush().is_ok();
    let (valve, _buffer) = writer.into_parts();
    if is_well {
        (valve.taken, valve.flushed)
    } else {
        (0, 0)
    }
}

#[test]
fn a_flush_goes_through_a_buffer(rt: HostRuntime) {
    check(&rt, through_a_buffer(rt.alloc()) == (4, 1));
}
