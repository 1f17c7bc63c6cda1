// How many exchanges ended in which answer.
ghost use Rattle.std.specs.Prelude.{◌≡◌, ◌++◌, OnOk, string_bytes};
ghost use Rattle.metrics.specs.Metrics.{answers_text, empty_text, responses_text, seen_text};

use crate::families::{push_head, push_number, push_sample, push_samples};
use serve_reports::{AnswerTally, ResponseTally};
use std::alloc::AllocError;

/// Adds how many exchanges ended in which kind of status.
pub(crate) fn push_responses(text: &mut String, responses: &ResponseTally) -> Result<(), AllocError>
    ensures { OnOk result (string_bytes text.new
        ≡ string_bytes text.old ++ responses_text responses.now) }
{
    let name = "admission_responses_total";
    let help = "Exchanges, by the kind of the status that their client was answered.";
    push_head(text, name, "counter", help)?;
    let samples = [
        ("2xx", responses.successful),
        ("3xx", responses.redirection),
        ("4xx", responses.client_error),
        ("5xx", responses.server_error),
        ("other", responses.other),
        ("none", responses.unanswered),
    ];
    push_samples(text, name, "status", &samples)
}

/// Adds how many exchanges ended in each of the gateway's own answers.
pub(crate) fn push_answers(text: &mut String, answers: &AnswerTally) -> Result<(), AllocError>
    ensures { OnOk result (string_bytes text.new
        ≡ string_bytes text.old ++ answers_text answers.now) }
{
    let name = "admission_answers_total";
    let help = "Exchanges that ended in an answer of the gateway's own.";
    push_head(text, name, "counter", help)?;
    let samples = [
        ("400", answers.bad_request),
        ("413", answers.too_large),
        ("429", answers.refused),
        ("431", answers.head_too_large),
        ("500", answers.out_of_memory),
        ("501", answers.not_taken),
        ("502", answers.bad_gateway),
        ("504", answers.timed_out),
    ];
    push_samples(text, name, "status", &samples)?;
    push_seen(text, name, "status", "503", answers.bodies)
}

/// Adds a sample of what comes only by a bound on bodies, once it was seen.
pub(crate) fn push_seen(
    text: &mut String,
    name: &str,
    label: &str,
    word: &str,
    value: u64,
) -> Result<(), AllocError>
    ensures { OnOk result (string_bytes text.new
        ≡ string_bytes text.old ++ seen_text name.now label.now word.now value) }
{
    if value == 0 {
        return Ok(());
    }
    push_sample(text, name, label, word, value)
}

/// Adds how many clients sent nothing at all.
pub(crate) fn push_empty(text: &mut String, answers: &AnswerTally) -> Result<(), AllocError>
    ensures { OnOk result (string_bytes text.new
        ≡ string_bytes text.old ++ empty_text answers.now) }
{
    let name = "admission_empty_connections_total";
    let help = "Connections that their client closed before it sent anything.";
    push_head(text, name, "counter", help)?;
    push_number(text, name, answers.empty)
}
