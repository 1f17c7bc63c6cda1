// Where the pieces of a body are read into.
use body_pieces::Rest;
use std::alloc::Global;

/// What is still to be read of a body, and the memory that its pieces are read into.
#[derive(Drop)]
pub struct Source {
    /// Where memory for a chunk's size is taken from.
    pub alloc: Global,
    pub rest: Rest,
    /// How many bytes a piece has at most.
    pub room: usize,
    /// The memory of the pieces. What is in it is dropped.
    pub bytes: Vec<u8>,
}
