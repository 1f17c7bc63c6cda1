// Whom an address is for.

/// Whom an address is for, which says what may be asked there.
#[derive(Clone, Copy)]
pub enum Audience<'a> {
    /// An operator, who names the address by this text, such as `127.0.0.1:9901`: every call.
    Operator(&'a str),
    /// Whoever comes, by whatever name: a look at the metrics or at the health, and nothing else.
    Anyone,
}
