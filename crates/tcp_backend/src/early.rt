// What a connection has whose request wasn't written whole.
use crate::answer_read::AnswerRead;
use clocks::Clock;
use std::io::{Error, ErrorKind, Read, Result};
use std::net::OpenStream;
use std::os::fd::AsRawFd;
use std::time::Duration;

/// How long nothing may come before the backend is told that the request ends, in milliseconds.
const SILENCE_MILLIS: u64 = 2_000;

/// A connection to which no more of a request is written. What comes is read as ever, but its end
/// is a fault: nobody knows whether more was to come. A backend that stops in its answer, to wait
/// for what it won't get, is told after a while that nothing more is written.
#[derive(Drop)]
pub(crate) struct EarlyRead<'c, S, C> {
    reader: AnswerRead<'c, S, C>,
    is_told: bool,
}

impl<'c, S: Read + OpenStream + AsRawFd, C: Clock> EarlyRead<'c, S, C> {
    // A connection whose reads can't be given a limit is read as ever.
    pub(crate) fn new(mut reader: AnswerRead<'c, S, C>) -> EarlyRead<'c, S, C> {
        let _ = reader.pause_after(Some(Duration::from_millis(SILENCE_MILLIS)));
        EarlyRead {
            reader,
            is_told: false,
        }
    }

    // The reader inside, by value.
    pub(crate) fn into_inner(self) -> AnswerRead<'c, S, C> {
        let EarlyRead { reader, is_told: _ } = self;
        reader
    }

    // Ends the request, and from now on waits for as long as the backend takes, and the call may.
    fn tell(&mut self) -> Result<()> {
        self.is_told = true;
        self.reader.pause_after(None)?;
        self.reader.end_request()
    }
}

impl<'c, S: Read + OpenStream + AsRawFd, C: Clock> Read for EarlyRead<'c, S, C> {
    fn read(&mut self, buf: &mut [u8]) -> Result<usize> {
        let mut outcome = self.reader.read(buf);
        if !self.is_told && is_pause(&outcome) {
            self.tell()?;
            outcome = self.reader.read(buf);
        }
        match outcome {
            Ok(0) => Err(Error::new(ErrorKind::ConnectionReset, "the connection broke")),
            outcome => outcome,
        }
    }
}

// Whether nothing came for a while.
fn is_pause(outcome: &Result<usize>) -> bool {
    match outcome {
        Ok(_) => false,
        Err(fault) => fault.kind() == ErrorKind::WouldBlock,
    }
}
