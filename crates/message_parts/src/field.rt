// The fields by which a message is framed and passed on.
ghost use Rattle.message_parts.specs.Field.{IsFieldOf};

use crate::names::{is_connection, is_content_length, is_host, is_same_name};

/// The field of a header line, where the gateway goes by it (RFC 9110 and RFC 9112).
#[derive(Clone, Copy)]
pub enum Field {
    Host,
    Expect,
    Connection,
    ProxyConnection,
    KeepAlive,
    Upgrade,
    Te,
    Trailer,
    TransferEncoding,
    ContentLength,
    /// Any other field.
    Other,
}

// The field of the name. Its length alone tells most names from all of these.
pub(crate) fn field_of(name: &[u8]) -> Field
    ensures { IsFieldOf result name.now }
{
    match name.len() {
        2 if is_same_name(name, b"te") => Field::Te,
        4 if is_host(name) => Field::Host,
        6 if is_same_name(name, b"expect") => Field::Expect,
        7 if is_same_name(name, b"upgrade") => Field::Upgrade,
        7 if is_same_name(name, b"trailer") => Field::Trailer,
        10 if is_connection(name) => Field::Connection,
        10 if is_same_name(name, b"keep-alive") => Field::KeepAlive,
        14 if is_content_length(name) => Field::ContentLength,
        16 if is_same_name(name, b"proxy-connection") => Field::ProxyConnection,
        17 if is_same_name(name, b"transfer-encoding") => Field::TransferEncoding,
        _ => Field::Other,
    }
}
