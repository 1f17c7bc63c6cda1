// Text that lies in the text of a head.
ghost use Rattle.std.specs.Prelude.{◌≡◌, ◌≤◌, IfOk, IsUtf8, length, slice_range};

use crate::piece::{HeadText, Piece};
use std::alloc::{AllocError, Global};
use std::marker::Model;

/// Text of a head, such as a request's target, which lies in its text. A contract sees the list of
/// its bytes.
#[derive(Drop)]
pub struct TextPiece {
    piece: Piece,
}

impl Model for TextPiece {
    ghost use Rattle.std.specs.Prelude.{ℕ, List, IsUtf8};

    ghost Value = { List ℕ };

    ghost view = { λ t. t.piece };

    ghost invariant = { λ t. IsUtf8 t.piece };
}

impl TextPiece {
    /// The text that this piece of a head is. Takes no memory.
    pub fn new(piece: Piece) -> TextPiece
        requires text { IsUtf8 piece }
        ensures { result ≡ piece }
    {
        TextPiece { piece }
    }

    /// These bytes, in a text of their own. Fails out of memory for their owners' count.
    pub fn from_bytes(alloc: Global, bytes: Vec<u8>) -> Result<TextPiece, AllocError>
        requires text { IsUtf8 bytes.items }
        ensures { IfOk result (λ text. text ≡ bytes.items) }
    {
        let end = bytes.len();
        let text = HeadText::new(alloc, bytes)?;
        Ok(TextPiece::new(text.piece(0, end)?))
    }

    /// The text from the place `start` to the one before `end`. Takes no memory; fails where
    /// 2^64 - 1 pieces of the head are there.
    pub fn part(&self, start: usize, end: usize) -> Result<TextPiece, AllocError>
        requires inside { (start ≤ end) × (end ≤ length self.now) }
        requires text { IsUtf8 (slice_range self.now start end) }
        ensures { IfOk result (λ part. part ≡ slice_range self.now start end) }
    {
        Ok(TextPiece::new(self.piece.part(start, end)?))
    }

    /// The bytes in place.
    pub fn as_bytes(&self) -> &[u8]
        ensures value { result.now ≡ self.now }
        ensures text { IsUtf8 self.now }
    {
        self.piece.as_slice()
    }

    /// The text in place. It costs a look at each byte.
    pub fn as_str(&self) -> &str
        ensures { result.now ≡ self.now }
    {
        str::from_utf8(self.piece.as_slice()).unwrap()
    }
}
