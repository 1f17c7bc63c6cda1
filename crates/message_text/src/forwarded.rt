// A request as it is forwarded.
ghost use Rattle.std.specs.Prelude.{◌≡◌, ◌++◌, true, OnOk, OnErr, IfSome, codes, option_map, unwrap_or, if◌then◌else◌, []};
ghost use Rattle.counted_io.specs.Counted.{failures_of, flushes_of, is_flushed};
ghost use Rattle.counted_io.specs.Count.{raised};
ghost use Rattle.counted_io.specs.Effects.{Wrote};
ghost use Rattle.counted_io.specs.Causes.{IsWriteCause};
ghost use Rattle.message_fields.specs.Target.{authority_of, forwarded_target, turned, wants_slash};
ghost use Rattle.message_text.specs.Line.{lines_text, line_text, close_lines};
ghost use Rattle.message_text.specs.Fronts.{WroteFront};
ghost use Rattle.message_text.specs.Forwarded.{lent, seen, first_text, forwarded_lines, forwarded_text, host_lines, via_line};

use super::lines::{bytes_of, write_body_length, write_line, write_request_lines};
use super::persistence::{Persistence, forwarded_end};
use counted_io::{Counted, WriteFault, write_all, write_and_flush};
use message_fields::{authority, has_host, is_whole_server, local_part, wants_slash};
use message_parts::{Header, Method};
use std::io::Write;

/// What a request is forwarded from.
#[derive(Drop)]
pub struct Forwarded<'a> {
    pub method: &'a Method,
    /// The target as it came.
    pub target: &'a [u8],
    /// Whether it came in HTTP/1.0.
    pub is_old: bool,
    /// Its header lines as they came.
    pub headers: &'a [Header],
    /// The body, where the request has a length.
    pub body: Option<&'a [u8]>,
    /// The backend's address, for a request that names no host.
    pub backend: &'a [u8],
    /// What it says of its connection.
    pub persistence: Persistence,
}

/// The `/` that has to stand before the local part of a target, or nothing.
fn leading_slash(target: &[u8]) -> &'static [u8]
    ensures { result.now ≡ if wants_slash target.now then codes "/" else [] }
{
    if wants_slash(target) { b"/" } else { b"" }
}

/// Writes a target without scheme and authority.
fn write_turned<W: Write>(writer: &mut Counted<W>, target: &[u8]) -> Result<(), WriteFault>
    ensures all { OnOk result (Wrote W.contents writer.old writer.new (turned target.now)) }
    ensures unfailing { OnOk result (failures_of writer.new ≡ failures_of writer.old) }
    ensures front { OnErr result (WroteFront W.contents writer.old writer.new
        (turned target.now)) }
    ensures failed { OnErr result (IsWriteCause writer.old writer.new) }
    ensures flushes { flushes_of writer.new ≡ flushes_of writer.old }
{
    write_all(writer, leading_slash(target))?;
    write_all(writer, local_part(target))
}

/// Writes the target that is forwarded.
fn write_target<W: Write>(
    writer: &mut Counted<W>,
    method: &[u8],
    target: &[u8],
) -> Result<(), WriteFault>
    ensures all { OnOk result
        (Wrote W.contents writer.old writer.new (forwarded_target method.now target.now)) }
    ensures unfailing { OnOk result (failures_of writer.new ≡ failures_of writer.old) }
    ensures front { OnErr result (WroteFront W.contents writer.old writer.new
        (forwarded_target method.now target.now)) }
    ensures failed { OnErr result (IsWriteCause writer.old writer.new) }
    ensures flushes { flushes_of writer.new ≡ flushes_of writer.old }
{
    if is_whole_server(method, target) {
        write_all(writer, b"*")
    } else {
        write_turned(writer, target)
    }
}

impl Forwarded<'_> {
    /// The first line as the head has it, where that is how it is forwarded.
    #[tactic(auto, using(crate::proofs::Texts::plain_target))]
    fn line_that_came(&self, authority: Option<&[u8]>) -> Option<&[u8]>
        requires told { lent authority ≡ authority_of self.now.target.now }
        ensures { IfSome result (λ line. line.now ≡ first_text (seen self.now)) }
    {
        if authority.is_some() {
            return None;
        }
        self.method.first_line(self.target)
    }

    /// Writes the first line: in one piece, where its head has it as it is forwarded.
    fn write_first<W: Write>(
        &self,
        writer: &mut Counted<W>,
        authority: Option<&[u8]>,
    ) -> Result<(), WriteFault>
        requires told { lent authority ≡ authority_of self.now.target.now }
        ensures all { OnOk result
            (Wrote W.contents writer.old writer.new (first_text (seen self.now))) }
        ensures unfailing { OnOk result (failures_of writer.new ≡ failures_of writer.old) }
        ensures front { OnErr result (WroteFront W.contents writer.old writer.new
            (first_text (seen self.now))) }
        ensures failed { OnErr result (IsWriteCause writer.old writer.new) }
        ensures flushes { flushes_of writer.new ≡ flushes_of writer.old }
    {
        if let Some(line) = self.line_that_came(authority) {
            return write_all(writer, line);
        }
        write_all(writer, self.method.as_slice())?;
        write_all(writer, b" ")?;
        write_target(writer, self.method.as_slice(), self.target)?;
        write_all(writer, b" HTTP/1.1\r\n")
    }

    /// Writes a Host line, where the request has none.
    #[tactic(auto, using(crate::proofs::Kept::one_line), unfolding(crate::specs::Line::lines_text))]
    fn write_host<W: Write>(
        &self,
        writer: &mut Counted<W>,
        authority: Option<&[u8]>,
    ) -> Result<(), WriteFault>
        requires told { lent authority ≡ authority_of self.now.target.now }
        ensures all { OnOk result
            (Wrote W.contents writer.old writer.new (lines_text (host_lines (seen self.now)))) }
        ensures unfailing { OnOk result (failures_of writer.new ≡ failures_of writer.old) }
        ensures front { OnErr result (WroteFront W.contents writer.old writer.new
            (lines_text (host_lines (seen self.now)))) }
        ensures failed { OnErr result (IsWriteCause writer.old writer.new) }
        ensures flushes { flushes_of writer.new ≡ flushes_of writer.old }
    {
        if has_host(self.headers) {
            return Ok(());
        }
        write_line(writer, b"Host", authority.unwrap_or(self.backend))
    }

    /// Writes the line that tells of the gateway, the one that ends the connection where it ends,
    /// and the empty line behind them.
    fn write_last<W: Write>(&self, writer: &mut Counted<W>) -> Result<(), WriteFault>
        ensures all { OnOk result (Wrote W.contents writer.old writer.new
            (line_text (via_line self.now.is_old) ++ lines_text (close_lines self.now.persistence)
            ++ codes "\r\n")) }
        ensures unfailing { OnOk result (failures_of writer.new ≡ failures_of writer.old) }
        ensures front { OnErr result (WroteFront W.contents writer.old writer.new
            (line_text (via_line self.now.is_old) ++ lines_text (close_lines self.now.persistence)
            ++ codes "\r\n")) }
        ensures failed { OnErr result (IsWriteCause writer.old writer.new) }
        ensures flushes { flushes_of writer.new ≡ flushes_of writer.old }
    {
        write_all(writer, forwarded_end(self.is_old, self.persistence))
    }

    /// Writes the lines that are forwarded, and the empty line behind them.
    fn write_lines<W: Write>(
        &self,
        writer: &mut Counted<W>,
        authority: Option<&[u8]>,
    ) -> Result<(), WriteFault>
        requires told { lent authority ≡ authority_of self.now.target.now }
        ensures all { OnOk result
            (Wrote W.contents writer.old writer.new
            (lines_text (forwarded_lines (seen self.now)) ++ codes "\r\n")) }
        ensures unfailing { OnOk result (failures_of writer.new ≡ failures_of writer.old) }
        ensures front { OnErr result (WroteFront W.contents writer.old writer.new
            (lines_text (forwarded_lines (seen self.now)) ++ codes "\r\n")) }
        ensures failed { OnErr result (IsWriteCause writer.old writer.new) }
        ensures flushes { flushes_of writer.new ≡ flushes_of writer.old }
    {
        write_request_lines(writer, self.headers, authority)?;
        self.write_host(writer, authority)?;
        write_body_length(writer, self.body)?;
        self.write_last(writer)
    }

    /// Writes the request as it is forwarded, and flushes once.
    ///
    /// The one fault comes where the writer failed; then a beginning of the text was written.
    pub fn write<W: Write>(&self, writer: &mut Counted<W>) -> Result<(), WriteFault>
        ensures all { OnOk result
            (Wrote W.contents writer.old writer.new (forwarded_text (seen self.now))) }
        ensures unfailing { OnOk result (failures_of writer.new ≡ failures_of writer.old) }
        ensures flushed { OnOk result (is_flushed writer.new ≡ true) }
        ensures flushes { OnOk result (flushes_of writer.new ≡ raised (flushes_of writer.old)) }
        ensures front { OnErr result (WroteFront W.contents writer.old writer.new
            (forwarded_text (seen self.now))) }
        ensures failed { OnErr result (IsWriteCause writer.old writer.new) }
    {
        let authority = authority(self.target);
        self.write_first(writer, authority)?;
        self.write_lines(writer, authority)?;
        write_and_flush(writer, bytes_of(self.body))
    }
}
