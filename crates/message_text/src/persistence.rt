// What a message that is written says of its connection.
ghost use Rattle.std.specs.Prelude.{◌≡◌, ◌≤◌, ◌++◌, codes, length};
ghost use Rattle.message_text.specs.Line.{close_lines, line_text, lines_text};
ghost use Rattle.message_text.specs.Forwarded.{via_line};

/// What a message that is written says of its connection (RFC 9112, section 9.3).
#[derive(Clone, Copy, Drop, PartialEq, Eq)]
pub enum Persistence {
    /// It ends with the message: a line `Connection: close` says so.
    Close = 1,
    /// It goes on: in HTTP/1.1 no line has to say so.
    Keep = 2,
}

/// The line that ends the connection, where it ends, and the empty line behind the head.
#[tactic(auto, unfolding(crate::specs::Line::lines_text, crate::specs::Line::line_text))]
pub(crate) fn head_end(persistence: Persistence) -> &'static [u8]
    ensures text { result.now ≡ lines_text (close_lines persistence) ++ codes "\r\n" }
    ensures short { length result.now ≤ 26 }
{
    match persistence {
        Persistence::Close => b"Connection: close\r\n\r\n",
        Persistence::Keep => b"\r\n",
    }
}

/// The same behind the line that tells of the gateway, which got a request of HTTP/1.0 where it is
/// old.
pub(crate) fn forwarded_end(is_old: bool, persistence: Persistence) -> &'static [u8]
    ensures { result.now
        ≡ line_text (via_line is_old) ++ lines_text (close_lines persistence) ++ codes "\r\n" }
{
    match (persistence, is_old) {
        (Persistence::Close, true) => b"Via: 1.0 admission\r\nConnection: close\r\n\r\n",
        (Persistence::Close, false) => b"Via: 1.1 admission\r\nConnection: close\r\n\r\n",
        (Persistence::Keep, true) => b"Via: 1.0 admission\r\n\r\n",
        (Persistence::Keep, false) => b"Via: 1.1 admission\r\n\r\n",
    }
}
