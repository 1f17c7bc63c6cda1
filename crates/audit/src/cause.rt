// Why an audit fails.
use std::error::Error;
use std::fmt;

/// Why an audit fails. Where several apply, the first of them is answered, and in it the least
/// list, place or number. Lists, places and numbers are counted from 0.
#[derive(Clone, Copy, Debug, PartialEq, Eq)]
pub enum Cause {
    /// Out of memory.
    Memory,
    /// The passes that were handed in count `sum` calls, and the book of all passes has `book`.
    PassesMissing { book: u64, sum: u64 },
    /// The history doesn't begin with the first entry, but with this one.
    Rolled { base: u64 },
    /// No call entry has the receipt's number, event and reply, or an earlier receipt names the
    /// same entry.
    Strange { list: usize, place: usize },
    /// The receipt's number isn't above that of the one before it in its list.
    Order { list: usize, place: usize },
    /// The call has no receipt.
    Uncovered { number: u64 },
    /// The ending names no permit that an earlier entry handed out, or one that is ended already;
    /// or the reply is that the number was lost.
    Unmatched { number: u64 },
}

impl fmt::Display for Cause {
    ghost use Rattle.std.specs.Prelude.{Some};
    ghost use Rattle.audit.specs.Text.{cause_text};

    ghost output = { λ cause. Some (cause_text cause) };

    fn fmt<W: fmt::Write>(&self, f: &mut fmt::Formatter<W>) -> fmt::Result {
        f.write_str(match self {
            Cause::Memory => "memory",
            Cause::PassesMissing { .. } => "passes missing",
            Cause::Rolled { .. } => "rolled",
            Cause::Strange { .. } => "strange",
            Cause::Order { .. } => "order",
            Cause::Uncovered { .. } => "uncovered",
            Cause::Unmatched { .. } => "unmatched",
        })
    }
}

impl Error for Cause {}

/// Where a receipt stands: its list, and its place in it, both counted from 0.
#[derive(Clone, Copy)]
pub(crate) struct ReceiptPlace {
    pub(crate) list: usize,
    pub(crate) place: usize,
}
