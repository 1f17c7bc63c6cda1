// The gate that stands between clients and the backend.
ghost use Rattle.std.specs.Prelude.{◌≡◌, IfOk, replicate, vec_len};
ghost use Rattle.limit_kinds.specs.AnyKinds.{any_rules};
ghost use Rattle.gate_journal.specs.Settings.{AreInRange, begun};
ghost use Rattle.gate_ledgers.specs.Names.{AreNamed, AreWhole};
ghost use Rattle.gateway_settings.specs.Settings.{AreSound};
ghost use Rattle.shared_gate.specs.Calls.{pass_of};
ghost use Rattle.shared_gate.specs.Log.{CallsLegal};
ghost use Rattle.gate_opening.specs.Opening.{journal_of, making_of};

use gate_history::{Blanks, Book, GateSettings};
use gateway_settings::Settings;
use limit_kinds::AnyLimit;
use shared_gate::{GateNaming, LogLength, SharedGate};
use std::alloc::{AllocError, Global};

/// What the gate of a configuration before so many workers is made with. It rolls whenever it holds
/// as many entries as are kept.
fn gate_settings(settings: &Settings, workers: u32) -> Result<GateSettings<AnyLimit>, AllocError>
    requires { AreSound settings.now }
    ensures range { IfOk result AreInRange }
    ensures begins { IfOk result (λ made. begun made ≡ journal_of workers settings.now) }
{
    let Ok(table) = settings.table.copy() else {
        return Err(AllocError);
    };
    Ok(GateSettings {
        limit: settings.limit_for(workers),
        table,
        room: settings.backlog,
        promote: settings.promote,
        kept: settings.keep as usize,
        is_rolling: true,
    })
}

/// The gate of these settings before so many workers, which rolls, with so many passes and no more,
/// by which no call was made yet. A book gives at most a million; where it gives fewer than are
/// asked for, that is out of memory too.
pub fn open_gate<M: GateNaming>(
    alloc: Global,
    settings: &Settings,
    workers: u32,
    blanks: Blanks,
    word: LogLength,
    count: usize,
) -> Result<(SharedGate<AnyLimit, M>, Vec<shared_gate::Pass<M>>), AllocError>
    requires word { word ≡ M.word }
    requires names { AreNamed M.calls M.place blanks }
    requires parts { AreWhole blanks }
    requires making { M.making ≡ making_of workers settings.now }
    requires sound { AreSound settings.now }
    requires passes { count ≡ M.passes }
    requires legal { CallsLegal any_rules (journal_of workers settings.now) M.legal }
    ensures all { IfOk result (λ made. vec_len made.1 ≡ count) }
    ensures passes { IfOk result (λ made. made.1.items ≡ replicate count (pass_of 0)) }
{
    let made = gate_settings(settings, workers)?;
    let book = Book::begin(alloc, made, blanks)?;
    SharedGate::open(alloc, word, book, count)
}
