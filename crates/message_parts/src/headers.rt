// The header lines of a message, in their order.
ghost use Rattle.std.specs.Prelude.{◌≡◌, ◌↔◌, ◌∷◌, [], codes, length, IfOk, IfSome, IsTrue};
ghost use Rattle.std.specs.List.{concat};
ghost use Rattle.message_parts.specs.Field.{IsFieldOf};

use crate::field::Field;
use crate::piece::HeadText;
use std::alloc::{AllocError, Global};
use std::marker::Model;
use std::ops::Range;
use std::rc::Rc;

/// A header line: its name as it was written, and its value without the blanks around it. Both lie
/// in the text of one head. A contract sees them as two lists of bytes.
#[derive(Drop)]
pub struct Header {
    pub(crate) text: Rc<Vec<u8>>,
    pub(crate) name: Range<usize>,
    pub(crate) value: Range<usize>,
    pub(crate) field: Field,
}

impl Model for Header {
    ghost use Rattle.std.specs.Prelude.{◌≤◌, length, slice_range};
    ghost use Rattle.message_parts.specs.Field.{IsFieldOf};
    ghost use Rattle.message_parts.specs.Header.{Header as Line};

    ghost Value = { Line };

    ghost view = { λ h. record {
      name = slice_range h.text.value.items h.name.start h.name.end;
      value = slice_range h.text.value.items h.value.start h.value.end;
    } };

    ghost invariant = { λ h. (h.name.start ≤ h.name.end) × (h.name.end ≤ length h.text.value.items)
        × (h.value.start ≤ h.value.end) × (h.value.end ≤ length h.text.value.items)
        × IsFieldOf h.field (slice_range h.text.value.items h.name.start h.name.end) };
}

impl Header {
    /// A line of this name and value, in a text of its own. Fails out of memory.
    pub fn new(alloc: Global, name: &[u8], value: &[u8]) -> Result<Header, AllocError>
        ensures { IfOk result
            (λ line. line ≡ record { name = name.now; value = value.now }) }
    {
        let (end, whole) = (name.len(), name.len() + value.len());
        let mut bytes = Vec::with_capacity(alloc, whole)?;
        bytes.extend_from_slice(name)?;
        bytes.extend_from_slice(value)?;
        HeadText::new(alloc, bytes)?.line(0..end, end..whole)
    }

    /// Its name in place, as it was written.
    pub fn name(&self) -> &[u8]
        ensures { result.now ≡ self.now.name }
    {
        &self.text[self.name.start..self.name.end]
    }

    /// The field that its name is of. It was looked at as the line was made.
    pub fn field(&self) -> Field
        ensures { IsFieldOf result self.now.name }
    {
        self.field
    }

    /// Its value in place.
    pub fn value(&self) -> &[u8]
        ensures { result.now ≡ self.now.value }
    {
        &self.text[self.value.start..self.value.end]
    }

    /// The text of the line as its head has it, from its name through CR LF, where that is
    /// `name: value` with one space alone; none elsewhere.
    pub fn line(&self) -> Option<&[u8]>
        ensures { IfSome result (λ line. line.now
            ≡ concat (self.now.name ∷ codes ": " ∷ self.now.value ∷ codes "\r\n" ∷ [])) }
    {
        let text = self.text.as_slice();
        let (colon, from, end) = (self.name.end, self.value.start, self.value.end);
        if from < 2 || from - 2 != colon || text.len() - end < 2 {
            return None;
        }
        if &text[colon..from] != b": ".as_slice() {
            return None;
        }
        if &text[end..end + 2] != b"\r\n".as_slice() {
            return None;
        }
        Some(&text[self.name.start..end + 2])
    }
}

/// The header lines of a message, in their order. A contract sees their list.
#[derive(Drop)]
pub struct Headers {
    lines: Vec<Header>,
}

impl Model for Headers {
    ghost use Rattle.std.specs.Prelude.{List};
    ghost use Rattle.message_parts.specs.Header.{Header as Line};

    ghost Value = { List Line };

    ghost view = { λ h. h.lines.items };
}

impl Headers {
    /// These lines. Takes no memory.
    pub fn new(lines: Vec<Header>) -> Headers
        ensures { result ≡ lines.items }
    {
        Headers { lines }
    }

    /// The lines in place.
    pub fn as_slice(&self) -> &[Header]
        ensures { result.now ≡ self.now }
    {
        self.lines.as_slice()
    }

    /// How many lines there are.
    pub fn len(&self) -> usize
        ensures { result ≡ length self.now }
    {
        self.lines.len()
    }

    /// Whether there is no line.
    pub fn is_empty(&self) -> bool
        ensures { IsTrue result ↔ (self.now ≡ []) }
    {
        self.lines.is_empty()
    }
}
