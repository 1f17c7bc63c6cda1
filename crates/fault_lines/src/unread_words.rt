// Words that can't be read at all.
ghost use Rattle.std.specs.Prelude.{◌≡◌};
ghost use Rattle.fault_lines.specs.FaultLine.{IsTold};
ghost use Rattle.fault_lines.specs.UnreadWords.{unread_line};

use super::status::WORDS_FAULT;
use counted_io::{Counted, write_and_flush};
use std::io::{ErrorKind, Write};

/// Tells why the list of words can't be had, in one line of clap's style, and answers the exit
/// status.
///
/// `kind` is that of the error: `OutOfMemory` when out of memory, and any other where a word
/// isn't UTF-8. Where the line can't be written itself, it is dropped.
pub fn tell_unread_words<E: Write>(kind: ErrorKind, errors: &mut Counted<E>) -> u8
    ensures status { result ≡ 2 }
    ensures told { IsTold E.contents errors.old errors.new (unread_line kind) }
{
    let _ = write_and_flush(errors, unread_line(kind).as_bytes());
    WORDS_FAULT
}

/// The line of a list of words that can't be had.
fn unread_line(kind: ErrorKind) -> &'static str
    ensures { result.now ≡ unread_line kind }
{
    match kind {
        ErrorKind::OutOfMemory => "error: out of memory\n",
        _ => "error: a word of the command line isn't UTF-8\n",
    }
}
