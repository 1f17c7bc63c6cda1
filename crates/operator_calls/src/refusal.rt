// Why a request is no call.
ghost use Rattle.std.specs.Prelude.{◌≡◌, ◌≤◌};
ghost use Rattle.operator_calls.specs.Calls.{refusal_status};

use crate::endpoint::Verb;

/// Why a request is no call, or isn't carried out. The first that applies is reported.
#[derive(Clone, Copy)]
pub enum Refusal {
    /// 403: it names a host that isn't the address itself, or none.
    ForeignHost,
    /// 404: nothing lies at its path.
    UnknownPath,
    /// 405: its method isn't one that its path takes, which are these.
    OtherMethod(Verb),
    /// 403: it is a POST without the line `X-Admission: yes`.
    WithoutMark,
    /// 400: the body of a `POST /limit` isn't decimal digits of a number below 2^32.
    NoNumber,
    /// 400: a `POST /drain` has a query that isn't `after-ms=N`, N being decimal digits of 1 to
    /// 3,600,000.
    OtherQuery,
    /// 400: whoever asked for a change has closed its side of the connection before that was begun,
    /// as a client does that no longer waits for the answer.
    CallerLeft,
}

impl Refusal {
    /// The status that tells it.
    pub fn status(&self) -> u16
        ensures value { result ≡ refusal_status self.now }
        ensures three_digits { (100 ≤ result) × (result ≤ 999) }
    {
        match self {
            Refusal::ForeignHost | Refusal::WithoutMark => 403,
            Refusal::UnknownPath => 404,
            Refusal::OtherMethod(_) => 405,
            Refusal::NoNumber | Refusal::OtherQuery | Refusal::CallerLeft => 400,
        }
    }
}
