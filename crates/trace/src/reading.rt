// A whole trace, read.
ghost use Rattle.std.specs.Prelude.{◌≡◌, ◌<◌, ◌^◌, length, IfOk};
ghost use Rattle.trace.specs.Trace.{trace_of};

use super::arrival::Arrival;
use super::calls::read_calls;
use script::{LineFault, Opening, ScriptSettings, read_settings};
use std::alloc::{AllocError, Global};

/// A trace: its settings, and its calls up to its end or to the first line at fault.
#[derive(Drop)]
pub struct Trace<'a> {
    /// The settings.
    pub settings: ScriptSettings<'a>,
    /// The calls, in the order of their lines.
    pub arrivals: Vec<Arrival>,
    /// The line at fault, if one is.
    pub fault: Option<LineFault>,
}

/// Reads a trace: the settings at its head, and then its calls, up to its end or to the first line
/// at fault. The classes of the calls are those of the settings.
///
/// `AllocError` where memory runs out.
pub fn read_trace<'a>(alloc: Global, text: &'a [u8]) -> Result<Trace<'a>, AllocError>
    requires { length text.now < 2 ^ 63 }
    ensures settings { IfOk result (λ trace. trace.settings ≡ (trace_of text.now).settings) }
    ensures arrivals { IfOk result (λ trace.
        trace.arrivals.items ≡ (trace_of text.now).calls.arrivals) }
    ensures fault { IfOk result (λ trace. trace.fault ≡ (trace_of text.now).calls.fault) }
{
    let Opening {
        settings,
        line,
        rest,
        fault,
    } = read_settings(alloc, text)?;
    let mut arrivals = Vec::new(alloc);
    let fault = match fault {
        Some(fault) => Some(fault),
        None => read_calls(&mut arrivals, settings.table(), rest, line)?,
    };
    Ok(Trace {
        settings,
        arrivals,
        fault,
    })
}
