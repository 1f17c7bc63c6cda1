// What the limit reckons with.
ghost use Rattle.std.specs.Prelude.{◌≡◌, ◌++◌, OnOk, string_bytes};
ghost use Rattle.metrics.specs.LimitView.{count_of, mean_of, one_if, reckoned_text};
ghost use Rattle.metrics.specs.LimitView.{times_text, view_text};

use crate::families::{push_gauge, push_known, push_known_seconds};
use limit_laws::LimitView;
use std::alloc::AllocError;

/// Adds whether the limit is set by hand, the base round trip, the last window, and the queue; each
/// of these has a sample where it is known.
pub(crate) fn push_view(text: &mut String, view: &LimitView) -> Result<(), AllocError>
    ensures { OnOk result (string_bytes text.new
        ≡ string_bytes text.old ++ view_text view.now) }
{
    push_times(text, view)?;
    push_reckoned(text, view)
}

/// Adds the base and the mean of the last window.
fn push_times(text: &mut String, view: &LimitView) -> Result<(), AllocError>
    ensures { OnOk result (string_bytes text.new
        ≡ string_bytes text.old ++ times_text view.now) }
{
    let help = "What an answer takes without a queue, as the limit measured it.";
    push_known_seconds(text, "admission_limit_base_seconds", help, view.base_ns)?;
    let name = "admission_limit_window_mean_seconds";
    let help = "The mean round trip of the last window that the limit learned by.";
    push_known_seconds(text, name, help, mean_of(view))
}

/// The mean of the last window, where there was one.
fn mean_of(view: &LimitView) -> Option<u64>
    ensures { result ≡ mean_of view.now.window }
{
    match view.window {
        None => None,
        Some(window) => Some(window.mean_ns),
    }
}

/// How many answers it had.
fn count_of(view: &LimitView) -> Option<u64>
    ensures { result ≡ count_of view.now.window }
{
    match view.window {
        None => None,
        Some(window) => Some(window.count),
    }
}

/// Adds how many answers the last window had, the queue, and whether the limit is set by hand.
fn push_reckoned(text: &mut String, view: &LimitView) -> Result<(), AllocError>
    ensures { OnOk result (string_bytes text.new
        ≡ string_bytes text.old ++ reckoned_text view.now) }
{
    let help = "Answers of the last window that the limit learned by.";
    push_known(text, "admission_limit_window_calls", help, count_of(view))?;
    let help = "Permits that wait in a queue at the backend, as the limit reckons.";
    push_known(text, "admission_limit_queue", help, view.queue)?;
    let help = "1 where the limit changes by hand at most, 0 where it learns.";
    let by_hand = one_if(view.by_hand);
    push_gauge(text, "admission_limit_set_by_hand", help, by_hand)
}

/// 1 where this holds, else 0.
fn one_if(holds: bool) -> u64
    ensures { result ≡ one_if holds }
{
    if holds { 1 } else { 0 }
}
