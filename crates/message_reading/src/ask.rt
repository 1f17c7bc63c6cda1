// The text that asks for a body.
ghost use Rattle.std.specs.Prelude.{◌≡◌, ℕ, take, OnOk, OnErr};
ghost use Rattle.counted_io.specs.Causes.{IsWriteCause};
ghost use Rattle.counted_io.specs.Counted.{failures_of};
ghost use Rattle.counted_io.specs.Effects.{Wrote};
ghost use Rattle.message_reading.specs.Continue.{IsSeen, continue_of, is_awaited, wants_body};

use crate::framing::Framing;
use crate::request_head::RequestHead;
use counted_io::{Counted, WriteFault, write_and_flush};
use message_fields::asks_continue;
use std::io::Write;

// A body is to come.
fn wants_body(framing: Framing) -> bool
    ensures { result ≡ wants_body framing }
{
    match framing {
        Framing::Sized(size) => size > 0,
        Framing::Chunked => true,
        Framing::Bodiless | Framing::ToEnd => false,
    }
}

// The client waits to be asked for the body.
fn is_awaited(head: &RequestHead, framing: Framing) -> bool
    ensures { result ≡ is_awaited head.now framing }
{
    head.minor == 1 && wants_body(framing) && asks_continue(head.lines.as_slice())
}

/// Asks for the body where the client waits for that: in HTTP/1.1, with a line
/// `Expect: 100-continue`, and with a body that isn't empty. The text is flushed, so that a client
/// which waits for it gets it. Where the writer fails, a beginning of it was written.
pub fn say_continue<W: Write>(
    writer: &mut Counted<W>,
    head: &RequestHead,
    framing: Framing,
) -> Result<(), WriteFault>
    ensures said { OnOk result
        (Wrote W.contents writer.old writer.new (continue_of head.now framing)) }
    ensures seen { OnOk result (IsSeen writer.old writer.new) }
    ensures unfailing { OnOk result (failures_of writer.new ≡ failures_of writer.old) }
    ensures front { OnErr result ((count : ℕ) ×
        Wrote W.contents writer.old writer.new (take count (continue_of head.now framing))) }
    ensures failed { OnErr result (IsWriteCause writer.old writer.new) }
{
    if is_awaited(head, framing) {
        write_and_flush(writer, b"HTTP/1.1 100 Continue\r\n\r\n")
    } else {
        Ok(())
    }
}
