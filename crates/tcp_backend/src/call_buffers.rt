// The buffers of a call.
use counted_io::PIECE;
use lent_io::{ReadBuffer, WriteBuffer};
use std::alloc::{AllocError, Global};

/// The buffers of a call, which takes them by value and gives them back.
#[derive(Drop)]
pub(crate) struct CallBuffers {
    pub(crate) ahead: ReadBuffer,
    pub(crate) behind: WriteBuffer,
}

impl CallBuffers {
    // New buffers. It fails only out of memory.
    pub(crate) fn new(alloc: Global) -> Result<CallBuffers, AllocError> {
        Ok(CallBuffers {
            ahead: ReadBuffer::new(alloc, PIECE)?,
            behind: WriteBuffer::new(alloc, PIECE)?,
        })
    }
}
