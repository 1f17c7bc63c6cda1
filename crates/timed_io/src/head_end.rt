// Where the head of a request ends.

/// Whether the bytes that have passed hold the whole head of a request: an empty line behind one
/// that isn't (RFC 9112, section 2.1). Empty lines before the first one are none of it. It decides
/// how long is waited, and nothing else: what the head says is read elsewhere.
#[derive(Drop)]
pub(crate) struct HeadEnd {
    has_begun: bool,
    // Nothing but a CR has come behind the last LF.
    is_line_empty: bool,
    is_whole: bool,
}

impl HeadEnd {
    /// Nothing has passed.
    pub(crate) fn new() -> HeadEnd {
        HeadEnd {
            has_begun: false,
            is_line_empty: true,
            is_whole: false,
        }
    }

    /// Whether the whole head has passed.
    pub(crate) fn is_whole(&self) -> bool {
        self.is_whole
    }

    /// More bytes pass. Returns how many of them follow the head.
    pub(crate) fn pass(&mut self, bytes: &[u8]) -> usize {
        if self.is_whole {
            return bytes.len();
        }
        for (index, byte) in bytes.iter().enumerate() {
            match byte {
                b'\n' if self.is_line_empty && self.has_begun => {
                    self.is_whole = true;
                    return bytes.len() - index - 1;
                }
                b'\n' => self.is_line_empty = true,
                b'\r' => {}
                _ => {
                    self.is_line_empty = false;
                    self.has_begun = true;
                }
            }
        }
        0
    }
}
