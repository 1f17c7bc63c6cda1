// What is kept while a reader shows the bytes of a head.
ghost use Rattle.std.specs.Prelude.{◌≤◌, ◌+◌};

use crate::head_lines::FEW_LINES;
use crate::progress::Progress;
use httparse::spans::HeaderSpan;

/// The greatest number of bytes of a head.
pub(crate) const MOST_HEAD: usize = 65_536;

/// What is kept beside the bytes of a head so far, and how many more it may have.
#[derive(Drop)]
pub(crate) struct HeadCut {
    pub(crate) progress: Progress,
    pub(crate) room: usize,
    ghost bounded: { progress.lines + room ≤ 65536 },
}

/// What is kept of the first bytes of a head.
#[derive(Clone, Copy)]
pub(crate) enum Kept<P> {
    /// They are the whole head, and these are its parts.
    Whole(P),
    /// They were looked at line by line, and this is kept of them.
    Begun(Progress),
}

/// What is kept of the bytes that a reader shows first, where a head may lie whole in them.
#[derive(Drop)]
pub(crate) struct FirstCut<P> {
    pub(crate) spans: [HeaderSpan; FEW_LINES],
    pub(crate) kept: Kept<P>,
}
