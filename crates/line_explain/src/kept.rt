// A reader that keeps what it hands on.
use std::alloc::Global;
use std::io::{Read, Result};

/// A reader that keeps a copy of what it hands on, where that is wanted.
///
/// Its bytes are those of the reader inside. Where it is out of memory for the copy, it drops it,
/// and hands the bytes on all the same.
#[derive(Drop)]
pub struct Kept<R> {
    inner: R,
    bytes: Option<Vec<u8>>,
}

impl<R> Kept<R> {
    ghost use Rattle.std.specs.Prelude.{◌≡◌, [], Some, None, option_map, if◌then◌else◌};
    ghost use Rattle.line_explain.specs.Kept.{KeepsMore, kept_of, reader_in};

    /// A reader that has handed nothing on; it keeps nothing where that isn't wanted.
    pub fn new(alloc: Global, inner: R, is_wanted: bool) -> Kept<R>
        ensures reader { reader_in result ≡ inner }
        ensures kept { kept_of result ≡ if is_wanted then Some [] else None }
    {
        let bytes = if is_wanted {
            Some(Vec::new(alloc))
        } else {
            None
        };
        Kept { inner, bytes }
    }

    /// What was handed on, if it was kept.
    pub fn bytes(&self) -> Option<&[u8]>
        ensures { option_map (λ bytes. bytes.now) result ≡ kept_of self.now }
    {
        match &self.bytes {
            Some(bytes) => Some(bytes),
            None => None,
        }
    }

    /// Keeps what is handed on.
    fn keep(&mut self, part: &[u8])
        ensures reader { reader_in self.new ≡ reader_in self.old }
        ensures kept { KeepsMore self.old self.new part.now }
    {
        let is_full = match &mut self.bytes {
            Some(bytes) => bytes.extend_from_slice(part).is_err(),
            None => false,
        };
        if is_full {
            self.bytes = None;
        }
    }
}

impl<R: Read> Read for Kept<R> {
    ghost use Rattle.std.specs.Prelude.{IfOk, take};
    ghost use Rattle.std.specs.Io.{ReadsAtMost};
    ghost use Rattle.std.specs.Io.KnownBytes.{ReadConsumes};
    ghost use Rattle.line_explain.specs.Kept.{KeepsMore, reader_in, remaining_of};

    ghost remaining = { remaining_of R.remaining };

    fn read(&mut self, buf: &mut [u8]) -> Result<usize>
        ensures bound { ReadsAtMost result buf.new }
        ensures bytes { ReadConsumes (R.remaining (reader_in self.old))
            (R.remaining (reader_in self.new)) result buf.new }
        ensures kept { IfOk result (λ count. KeepsMore self.old self.new (take count buf.new)) }
    {
        let count = self.inner.read(buf)?;
        self.keep(&buf[..count]);
        Ok(count)
    }
}
