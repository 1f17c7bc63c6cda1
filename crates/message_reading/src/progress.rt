// What of the bytes of a head decides on the next one.
ghost use Rattle.std.specs.Prelude.{◌≡◌, ◌<◌, ◌≤◌, ◌+◌, ◌++◌, ◌∷◌, [], ℕ, List, ◌&&◌, length, take};
ghost use Rattle.std.specs.Io.{StopsAt};
ghost use Rattle.message_reading.specs.HeadBytes.{ended_by, ends_head, stays_blank};
ghost use Rattle.message_reading.specs.Progress.{IsCut, IsProgress, lines_of};

use crate::ending::ends_empty;
use crate::line_len::line_len;

/// How long the line may be that ends a head: CR LF.
const EMPTY_LINE: usize = 2;

/// What is kept beside the bytes of a head so far.
#[derive(Clone, Copy, Drop)]
pub(crate) struct Progress {
    // There are only empty lines, and perhaps a CR.
    blank: bool,
    // The last three bytes; in front of the first one stands the end of a line.
    third: u8,
    second: u8,
    last: u8,
    // How many lines ended, but for the empty ones in front.
    lines: usize,
}

impl Progress {
    /// No byte was seen.
    #[tactic(auto, using(crate::proofs::HeadProgress::progress_none))]
    pub(crate) fn new() -> Progress
        ensures { IsProgress [] result }
    {
        Progress {
            blank: true,
            third: 0,
            second: 0,
            last: b'\n',
            lines: 0,
        }
    }

    // What is kept after this byte.
    fn after(self, byte: u8) -> Progress
        requires { lines_of self < 18446744073709551615 }
        ensures is { (text : List ℕ) → IsProgress text self
            → IsProgress (text ++ byte ∷ []) result }
        ensures few { lines_of result ≤ lines_of self + 1 }
    {
        let blank = goes_on_blank(self.blank, self.last, byte);
        Progress {
            blank,
            third: self.second,
            second: self.last,
            last: byte,
            lines: self.lines + ended(blank, byte),
        }
    }

    // What is kept after these bytes, one after the other.
    fn by_bytes(self, piece: &[u8]) -> Progress
        requires { lines_of self + length piece.now ≤ 18446744073709551615 }
        ensures is { (text : List ℕ) → IsProgress text self
            → IsProgress (text ++ piece.now) result }
        ensures few { lines_of result ≤ lines_of self + length piece.now }
    {
        let mut progress = self;
        for byte in piece {
            progress = progress.after(*byte);
        }
        progress
    }

    // The same of bytes with an LF at their end at most. Behind the empty lines in front the last
    // three of them decide.
    fn past(self, piece: &[u8]) -> Progress
        requires room { lines_of self + length piece.now ≤ 18446744073709551615 }
        requires stops { StopsAt piece.now 10 }
        ensures is { (text : List ℕ) → IsProgress text self
            → IsProgress (text ++ piece.now) result }
        ensures few { lines_of result ≤ lines_of self + length piece.now }
    {
        let len = piece.len();
        if self.blank || len < 3 {
            return self.by_bytes(piece);
        }
        let last = piece[len - 1];
        Progress {
            blank: false,
            third: piece[len - 3],
            second: piece[len - 2],
            last,
            lines: self.lines + ended(false, last),
        }
    }

    /// What is kept after these bytes, which have an LF at their end at most.
    pub(crate) fn through(self, piece: &[u8]) -> Progress
        requires room { lines_of self + length piece.now ≤ 18446744073709551615 }
        requires stops { StopsAt piece.now 10 }
        ensures is { (text : List ℕ) → IsProgress text self
            → IsProgress (text ++ piece.now) result }
        ensures few { lines_of result ≤ lines_of self + length piece.now }
    {
        let mut progress = self;
        let mut at = 0;
        while at < piece.len() && progress.blank {
            progress = progress.after(piece[at]);
            at += 1;
        }
        progress.past(&piece[at..])
    }

    /// What is kept after these bytes up to the end of a head among them, or after all of them, and
    /// how many it is.
    pub(crate) fn until_end(self, bytes: &[u8]) -> (Progress, usize)
        requires room { lines_of self + length bytes.now ≤ 65536 }
        ensures bound { result.1 ≤ length bytes.now }
        ensures some { 0 < length bytes.now → 0 < result.1 }
        ensures few { lines_of result.0 ≤ lines_of self + result.1 }
        ensures cut { IsCut self result.0 (take result.1 bytes.now) }
    {
        let mut progress = self;
        let mut at = 0;
        while at < bytes.len() {
            let len = line_len(&bytes[at..]);
            progress = progress.through(&bytes[at..at + len]);
            at += len;
            if len <= EMPTY_LINE && progress.ends() {
                return (progress, at);
            }
        }
        (progress, at)
    }

    /// The bytes are a head, or more.
    pub(crate) fn ends(&self) -> bool
        ensures { (text : List ℕ) → IsProgress text self.now → result ≡ ends_head text }
    {
        !self.blank && ends_empty(self.third, self.second, self.last)
    }

    /// How many lines ended, but for the empty ones in front.
    pub(crate) fn lines(&self) -> usize
        ensures { result ≡ lines_of self.now }
    {
        self.lines
    }
}

// After this byte there are still only empty lines, and perhaps a CR.
fn goes_on_blank(blank: bool, last: u8, byte: u8) -> bool
    ensures { result ≡ (blank && stays_blank last byte) }
{
    blank && (byte == b'\n' || (byte == b'\r' && last != b'\r'))
}

// 1 where the byte ends a line that isn't one of the empty ones in front.
fn ended(blank: bool, byte: u8) -> usize
    ensures value { result ≡ ended_by blank byte }
    ensures most { result ≤ 1 }
{
    if byte == b'\n' && !blank { 1 } else { 0 }
}
