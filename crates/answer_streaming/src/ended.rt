// How a body that is passed on ends.
use message_reading::MessageFault;

/// How a body that was passed on ended.
#[derive(Clone, Copy, Drop)]
pub enum End {
    /// It was read to its end, and all of it was written.
    Whole,
    /// It was read to its end, and then the writer failed.
    Unwritten,
    /// It couldn't be read to its end, by this fault.
    Broken(MessageFault),
    /// The writer failed before it was read to its end.
    Left,
}

/// What became of an answer that was to be passed on.
#[derive(Drop)]
pub enum Passed {
    /// The whole body was read before anything had to be written. Nothing was.
    Read(Vec<u8>),
    /// The body couldn't be read, by this fault, before anything had to be written. Nothing was.
    Unread(MessageFault),
    /// It was streamed.
    Streamed(End),
}
