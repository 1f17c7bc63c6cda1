// What is still to be read of a body.
ghost use Rattle.std.specs.Prelude.{◌≡◌};
ghost use Rattle.body_pieces.specs.Rests.{is_ended, rest_of};

use message_reading::Framing;

/// What is still to be read of a body.
#[derive(Clone, Copy, Drop, PartialEq, Eq)]
pub enum Rest {
    /// So many bytes. After the last chunk it is 0.
    Sized(u64),
    /// All bytes up to the reader's end.
    ToEnd,
    /// Chunks; the line with a size comes next.
    Size,
    /// So many bytes of a chunk and its CR LF, and then more chunks.
    Chunk(u64),
}

impl Rest {
    /// Returns what is to be read of a body that is delimited so, or nothing if there is no body.
    pub fn of(framing: Framing) -> Option<Rest>
        ensures { result ≡ rest_of framing }
    {
        match framing {
            Framing::Bodiless => None,
            Framing::Sized(size) => Some(Rest::Sized(size as u64)),
            Framing::Chunked => Some(Rest::Size),
            Framing::ToEnd => Some(Rest::ToEnd),
        }
    }

    /// Returns whether nothing is left to be read.
    pub fn is_ended(&self) -> bool
        ensures { result ≡ is_ended self.now }
    {
        match self {
            Rest::Sized(left) => *left == 0,
            Rest::ToEnd | Rest::Size | Rest::Chunk(_) => false,
        }
    }
}
