// What is said of the bytes of a configuration.
ghost use Rattle.std.specs.Prelude.{◌≡◌, Err, IfOk, OnOk, string_bytes};
ghost use Rattle.toml.specs.View.{table_view};
ghost use Rattle.gate_config.specs.declared.fault.ConfigFault.{ConfigFault as FaultValue};
ghost use Rattle.gate_config.specs.Settings.{IsOfKey, settings_of};
ghost use Rattle.config_explain.specs.Explained.{ExplainsFault, IsExplained};

use crate::exchanges::explain_served;
use crate::faults::{Source, explain_fault};
use crate::place::line_at;
use gate_config::settings_in;
use std::alloc::{AllocError, Global};

/// What is said of a configuration, a line or more. Fails where it is out of memory.
pub(crate) fn explanation(
    alloc: Global,
    bytes: &[u8],
    exchanges: Option<u32>,
) -> Result<String, AllocError>
    // Of a key at fault: which table of its array has it, its path, and what it was judged by.
    ensures { IfOk result (λ words. IsExplained bytes.now (string_bytes words)) }
{
    let mut out = String::new(alloc);
    let Ok(text) = str::from_utf8(bytes) else {
        explain_bytes(&mut out, bytes)?;
        return Ok(out);
    };
    match toml::table_from_slice(alloc, bytes) {
        Ok(table) => explain_table(
            &mut out,
            Source {
                text,
                table: &table,
            },
            exchanges,
        )?,
        Err(error) => {
            if error.is_memory() {
                return Err(AllocError);
            }
            write!(out, "{error}")?;
        }
    }
    Ok(out)
}

/// Says what there is to say of the table that a text holds.
fn explain_table(
    out: &mut String,
    source: Source<'_>,
    exchanges: Option<u32>,
) -> Result<(), AllocError>
    ensures { (fault : FaultValue) → IsOfKey fault
        → settings_of (table_view source.entry.table.now) ≡ Err fault
        → OnOk result (ExplainsFault fault (string_bytes out.old) (string_bytes out.new)) }
{
    match settings_in(*out.allocator(), source.table) {
        Ok(settings) => explain_served(out, source.table, settings, exchanges),
        Err(fault) => explain_fault(out, source, &fault),
    }
}

/// Says where bytes begin that aren't UTF-8.
fn explain_bytes(out: &mut String, bytes: &[u8]) -> Result<(), AllocError> {
    if let Err(error) = str::from_utf8(bytes) {
        let line = line_at(bytes, error.valid_up_to());
        write!(out, "line {line} isn't UTF-8\n")?;
    }
    Ok(())
}
