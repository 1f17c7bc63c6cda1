// What the gate of a script is made with.
ghost use Rattle.std.specs.Prelude.{◌≡◌, ◌≤◌};
ghost use Rattle.limit_laws.specs.Algorithm.{greatest_limit};
ghost use Rattle.gate_journal.specs.Journal.{most_kept};
ghost use Rattle.gate_journal.specs.Settings.{AreInRange, begun};
ghost use Rattle.script_gate.specs.Settings.{journal_of};

use gate_journal::GateSettings;
use limit_kinds::AnyLimit;
use script::ScriptSettings;

/// What the gate of a script or a trace is made with: its limit is fixed at `n` permits where no
/// line gives one, and `kept` entries are kept where none says how many.
pub fn gate_settings(settings: ScriptSettings<'_>, n: u32, kept: usize) -> GateSettings<AnyLimit>
    requires least { 1 ≤ n }
    requires most { n ≤ greatest_limit }
    requires some_kept { 1 ≤ kept }
    requires few_kept { kept ≤ most_kept }
    ensures range { AreInRange result }
    ensures begins { begun result ≡ journal_of n kept settings.entry }
{
    GateSettings {
        limit: settings.limit(n),
        room: settings.room(),
        promote: settings.promote(),
        kept: settings.kept(kept),
        is_rolling: settings.is_rolling(),
        table: settings.into_table(),
    }
}
