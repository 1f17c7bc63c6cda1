// The lines of a script once its settings are over, each answered after all entries so far.
ghost use Rattle.std.specs.Prelude.{◌≡◌, ◌<◌, ◌+◌, ◌^◌, ◌++◌, ◌∷◌, [], drop, length, string_bytes};
ghost use Rattle.std.specs.Prelude.{◌≤◌, IfOk, IfSome, OnOk};
ghost use Rattle.std.specs.Str.Lines.{lines};
ghost use Rattle.script.specs.Words.{words};
ghost use Rattle.script.specs.Line.{line_of};
ghost use Rattle.load_driver.specs.Replay.{after_text, entries_text, IfEvent, line_asks};
ghost use Rattle.load_driver.specs.Replay.{after_asked, told_of, asked_text, lines_text};
ghost use Rattle.load_driver.specs.Session.{open_in, IsUnasked};
ghost use Rattle.load_driver.specs.Stretches.{IsOpen, stretch_after, open_asked, stretch_text};
ghost use Rattle.load_driver.specs.Stretches.{StandsFor, told_at};
ghost use Rattle.gate_journal.specs.Journal.{Journal};

use super::asked::{SessionCall, read_asked};
use super::session::{Added, Session};
use super::text::push_entry;
use gate_journal::rolling_runs_are_legal;
use limit_laws::Limit;
use limiter_core::{Entry, open_permits_are_in_flight, open_permits_may_end, soundness_is_kept};
use partitions::PartitionTable;
use script::{LineFault, next_line};
use std::alloc::AllocError;

/// Adds the lines of entries, the first of which has this number.
fn push_entries(
    text: &mut String,
    table: &PartitionTable,
    first: u64,
    entries: &[Entry],
) -> Result<(), AllocError>
    requires { first + length entries.now < 2 ^ 64 }
    ensures { OnOk result (string_bytes text.new
        ≡ string_bytes text.old ++ entries_text table.now first entries.now) }
{
    let mut number = first;
    for entry in entries {
        push_entry(text, table, number, *entry)?;
        number += 1;
    }
    Ok(())
}

/// Answers what is asked, and adds what is written of it; says where the entries stand that this
/// adds, if it adds any.
fn serve<L: Limit>(
    session: &mut Session<L>,
    text: &mut String,
    asked: SessionCall,
) -> Result<Option<Added>, AllocError>
    requires { IfEvent asked (IsOpen (open_in session.old)) }
    ensures inside { IfOk result (λ added. IfSome added (λ at.
        at.place ≤ length session.new.journal.entries)) }
    ensures told { IfOk result (λ added. told_at session.new.journal.entries added
        ≡ told_of L.rules session.old.journal asked) }
    ensures journal { OnOk result
        (session.new.journal ≡ stretch_after L.rules session.old.journal asked) }
    ensures opens { OnOk result (open_in session.new
        ≡ open_asked L.rules session.old.journal (open_in session.old) asked) }
    ensures text { OnOk result (string_bytes text.new
        ≡ string_bytes text.old ++ asked_text L.rules session.old.journal asked) }
{
    let event = match asked {
        SessionCall::Nothing => return Ok(None),
        SessionCall::NotOpen => {
            text.push_str("- not open\n")?;
            return Ok(None);
        }
        SessionCall::Event(event) => event,
    };
    match session.ask(event)? {
        Some(added) => {
            let entries = &session.entries()[added.place..];
            push_entries(text, session.table(), added.number, entries)?;
            Ok(Some(added))
        }
        None => {
            text.push_str("- exhausted\n")?;
            Ok(None)
        }
    }
}

/// Answers what is asked after all entries so far, however often the journal rolled, and adds what
/// is written of it; says where the entries stand that this adds, if it adds any. An ending names
/// an open permit.
pub fn answer<L: Limit>(
    session: &mut Session<L>,
    text: &mut String,
    asked: SessionCall,
) -> Result<Option<Added>, AllocError>
    requires { IfEvent asked (IsOpen (open_in session.old)) }
    ensures inside { IfOk result (λ added. IfSome added (λ at.
        at.place ≤ length session.new.journal.entries)) }
    ensures told { IfOk result (λ added. (whole : Journal L) → StandsFor L.rules whole session.old →
        told_at session.new.journal.entries added ≡ told_of L.rules whole asked) }
    ensures text { OnOk result ((whole : Journal L) → StandsFor L.rules whole session.old →
        string_bytes text.new ≡ string_bytes text.old ++ asked_text L.rules whole asked) }
    ensures stands { OnOk result ((whole : Journal L) → StandsFor L.rules whole session.old →
        StandsFor L.rules (after_asked L.rules whole asked) session.new) }
{
    rolling_runs_are_legal::<L>();
    soundness_is_kept::<L>();
    open_permits_may_end::<L>();
    open_permits_are_in_flight::<L>();
    let added = serve(session, text, asked)?;
    Ok(added)
}

/// Answers lines, the first of which has this number, up to their end or to the first one at fault.
fn answer_lines<L: Limit>(
    session: &mut Session<L>,
    text: &mut String,
    script: &[u8],
    first: u64,
) -> Result<Option<LineFault>, AllocError>
    requires { first + length script.now < 2 ^ 64 }
    ensures { IfOk result (λ fault. record { out = string_bytes text.new; fault = fault }
        ≡ after_text (string_bytes text.old)
        (stretch_text L.rules session.old.journal (open_in session.old) first
        (lines script.now))) }
{
    let mut rest = script;
    let mut number = first;
    while let Some((line, after)) = next_line(rest) {
        match read_asked(session, line) {
            Ok(asked) => {
                let _added = serve(session, text, asked)?;
            }
            Err(why) => return Ok(Some(LineFault { line: number, why })),
        }
        rest = after;
        number += 1;
    }
    Ok(None)
}

/// Answers lines by a session in which nothing was asked yet: each after all entries so far,
/// however often its journal rolls.
pub(crate) fn answer_all<L: Limit>(
    session: &mut Session<L>,
    text: &mut String,
    script: &[u8],
    first: u64,
) -> Result<Option<LineFault>, AllocError>
    requires short { first + length script.now < 2 ^ 64 }
    requires unasked { IsUnasked session.old.journal }
    requires none_open { session.old.permits ≡ [] }
    ensures { IfOk result (λ fault. record { out = string_bytes text.new; fault = fault }
        ≡ after_text (string_bytes text.old)
        (lines_text L.rules session.old.journal first (lines script.now))) }
{
    rolling_runs_are_legal::<L>();
    soundness_is_kept::<L>();
    open_permits_may_end::<L>();
    open_permits_are_in_flight::<L>();
    let _entries = session.entries();
    answer_lines(session, text, script, first)
}
