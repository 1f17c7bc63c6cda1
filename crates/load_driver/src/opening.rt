// A script answered: its settings, and then what it asks.
ghost use Rattle.std.specs.Prelude.{◌≡◌, ◌≤◌, length, string_bytes, IfOk};
ghost use Rattle.limit_laws.specs.Algorithm.{greatest_limit};
ghost use Rattle.gate_journal.specs.Journal.{most_kept};
ghost use Rattle.load_driver.specs.Limits.{most_script};
ghost use Rattle.load_driver.specs.Opening.{replay_text};

use super::answers::answer_all;
use super::session::Session;
use script::{LineFault, Opening, read_settings};
use script_gate::gate_settings;
use std::alloc::{AllocError, Global};

/// What a script is answered: its text, and the line at fault that ended it, if one did.
pub(crate) fn answer_script(
    alloc: Global,
    n: u32,
    kept: usize,
    script: &[u8],
) -> Result<(String, Option<LineFault>), AllocError>
    requires least { 1 ≤ n }
    requires most { n ≤ greatest_limit }
    requires some_kept { 1 ≤ kept }
    requires few_kept { kept ≤ most_kept }
    requires short { length script.now ≤ most_script }
    ensures { IfOk result (λ told.
        record { out = string_bytes told.0; fault = told.1 } ≡ replay_text n kept script.now) }
{
    let Opening {
        settings,
        line,
        rest,
        fault,
    } = read_settings(alloc, script)?;
    let mut text = String::new(alloc);
    if fault.is_some() {
        return Ok((text, fault));
    }
    let mut session = Session::new(alloc, gate_settings(settings, n, kept))?;
    let fault = answer_all(&mut session, &mut text, rest, line)?;
    Ok((text, fault))
}
