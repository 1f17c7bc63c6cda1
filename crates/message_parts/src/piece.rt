// Bytes that lie in the text of a head.
ghost use Rattle.std.specs.Prelude.{◌≡◌, ◌≤◌, ◌∷◌, [], IfOk, IfSome, codes, length, slice_range};
ghost use Rattle.std.specs.List.{concat};

use crate::field::field_of;
use crate::headers::Header;
use crate::names::is_word;
use std::alloc::{AllocError, Global};
use std::marker::Model;
use std::ops::Range;
use std::rc::Rc;

/// The text of a head, in which its lines have their names and values. A contract sees the list of
/// its bytes.
#[derive(Drop)]
pub struct HeadText {
    bytes: Rc<Vec<u8>>,
}

impl Model for HeadText {
    ghost use Rattle.std.specs.Prelude.{ℕ, List};

    ghost Value = { List ℕ };

    ghost view = { λ t. t.bytes.value.items };
}

impl HeadText {
    /// These bytes, which stay where they are. Fails out of memory for their owners' count.
    pub fn new(alloc: Global, bytes: Vec<u8>) -> Result<HeadText, AllocError>
        ensures { IfOk result (λ text. text ≡ bytes.items) }
    {
        Ok(HeadText {
            bytes: Rc::new(alloc, bytes)?,
        })
    }

    /// The bytes from the place `start` to the one before `end`. Takes no memory; fails where
    /// 2^64 - 1 pieces of the text are there.
    pub fn piece(&self, start: usize, end: usize) -> Result<Piece, AllocError>
        requires inside { (start ≤ end) × (end ≤ length self.now) }
        ensures { IfOk result (λ piece. piece ≡ slice_range self.now start end) }
    {
        Ok(Piece {
            text: self.bytes.clone()?,
            start,
            end,
        })
    }

    /// The line whose name and value lie at these places. Takes no memory; fails where 2^64 - 1
    /// pieces of the text are there.
    #[inline(always)]
    pub fn line(&self, name: Range<usize>, value: Range<usize>) -> Result<Header, AllocError>
        requires name { (name.start ≤ name.end) × (name.end ≤ length self.now) }
        requires value { (value.start ≤ value.end) × (value.end ≤ length self.now) }
        ensures { IfOk result (λ line. line ≡ record {
          name = slice_range self.now name.start name.end;
          value = slice_range self.now value.start value.end;
        }) }
    {
        let field = field_of(&self.bytes[name.start..name.end]);
        Ok(Header {
            text: self.bytes.clone()?,
            name,
            value,
            field,
        })
    }
}

/// Bytes of a head, such as a line's value, which lie in its text. A contract sees their list.
#[derive(Drop)]
pub struct Piece {
    text: Rc<Vec<u8>>,
    start: usize,
    end: usize,
}

impl Model for Piece {
    ghost use Rattle.std.specs.Prelude.{◌≤◌, ℕ, List, length, slice_range};

    ghost Value = { List ℕ };

    ghost view = { λ p. slice_range p.text.value.items p.start p.end };

    ghost invariant = { λ p. (p.start ≤ p.end) × (p.end ≤ length p.text.value.items) };
}

impl Piece {
    /// The bytes in place.
    pub fn as_slice(&self) -> &[u8]
        ensures { result.now ≡ self.now }
    {
        &self.text[self.start..self.end]
    }

    /// The bytes of this piece from the place `start` to the one before `end`. Takes no memory;
    /// fails where 2^64 - 1 pieces of the text are there.
    pub fn part(&self, start: usize, end: usize) -> Result<Piece, AllocError>
        requires inside { (start ≤ end) × (end ≤ length self.now) }
        ensures { IfOk result (λ part. part ≡ slice_range self.now start end) }
    {
        Ok(Piece {
            text: self.text.clone()?,
            start: self.start + start,
            end: self.start + end,
        })
    }

    /// The first line of a request with this piece as its method, from it through CR LF, where its
    /// head has it so: `method target HTTP/1.1`, with this target and one space between each two.
    /// None elsewhere.
    pub(crate) fn first_line(&self, target: &[u8]) -> Option<&[u8]>
        ensures { IfSome result (λ line. line.now
            ≡ concat (self.now ∷ codes " " ∷ target.now ∷ codes " HTTP/1.1\r\n" ∷ [])) }
    {
        let text = self.text.as_slice();
        let left = text.len() - self.end;
        if left < 12 || left - 12 < target.len() {
            return None;
        }
        let start = self.end + 1;
        let end = start + target.len();
        let behind = end + 11;
        if &text[self.end..start] != b" ".as_slice() {
            return None;
        }
        if &text[start..end] != target {
            return None;
        }
        if !is_word(&text[end..behind], b" HTTP/1.1\r\n") {
            return None;
        }
        Some(&text[self.start..behind])
    }
}
