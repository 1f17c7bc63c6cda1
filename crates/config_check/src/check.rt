// A configuration, checked.
ghost use Rattle.std.specs.Prelude.{◌≡◌, ◌⊎◌, ℕ, true, List, IfErr, OnOk};
ghost use Rattle.counted_io.specs.declared.counted.Counted.{Counted as CountedValue};
ghost use Rattle.counted_io.specs.Counted.{inner_of};
ghost use Rattle.config_check.specs.Check.{IsAccepted, IsAcceptedAfter, IsRefused, IsWhy, IsWhyAfter, IsWhyOfFile};
ghost use Rattle.config_check.specs.CheckFault.{check_fault_text};
ghost use Rattle.config_explain.specs.Lacking.{HasLacked};
ghost use Rattle.config_file.specs.Reading.{Held};
ghost use Rattle.fault_lines.specs.FaultLine.{IsTold, fault_line};

use super::accepted::write_accepted;
use super::check_fault::{CheckFault, report_check_fault};
use super::explained::{tell_why_unread, write_explanation, write_why_unread};
use super::options::CheckOptions;
use config_explain::Explainer;
use config_file::{FileFault, Opener, read_bytes, read_file_text};
use counted_io::Counted;
use fault_lines::{DONE, FAULT};
use std::alloc::Global;
use std::io::Write;

/// Checks the configuration in the file that is opened at a path, as [`check_text`] does, and
/// answers the exit status.
///
/// A file that can't be opened or read, isn't at its end after 2^25 reads, or has more than 1 MiB
/// is reported as one that can't be read. Its path and the system's words are told beside, if they
/// can be: where an explanation is asked for in `writer` before, and otherwise on the system's
/// standard error behind.
pub fn check_file<R: Eprint, F: Opener, W: Write, E: Write>(
    rt: &R,
    files: &F,
    explainer: &mut Explainer,
    alloc: Global,
    path: &str,
    options: CheckOptions,
    writer: &mut Counted<W>,
    errors: &mut Counted<E>,
) -> u8
    ensures status { (result ≡ 0) ⊎ (result ≡ 1) }
    ensures accepted { result ≡ 0 → (file : CountedValue F.File) × (bytes : List ℕ)
        × F.opened path.now (inner_of file) × Held F.File.remaining file bytes
        × IsAcceptedAfter options.explain options.exchanges
        (HasLacked explainer.old explainer.new) W.contents writer.old writer.new bytes }
    ensures quiet { result ≡ 0 → errors.new ≡ errors.old }

    // The first fault is reported: of a file whose bytes were not had, or of its bytes.
    ensures refused { result ≡ 1 → IsRefused E.contents errors.old errors.new
        (IsWhyOfFile options.explain options.exchanges (HasLacked explainer.old explainer.new)
        (F.unopened path.now) (F.opened path.now) F.File.remaining W.contents writer.old
        writer.new) }
{
    match read_file_text(files, alloc, path) {
        Ok(text) => check_text(explainer, alloc, &text, options, writer, errors),
        Err(unread) => {
            write_why_unread(files, alloc, path, options.explain, writer);
            let fault = unread.into_fault();
            let untold = is_untold(&fault, options.explain);
            let status = report(errors, CheckFault::File(fault));
            tell_why_unread(rt, files, alloc, path, untold);
            status
        }
    }
}

/// Whether it is the file itself that can't be read, and no explanation was asked for that has why.
fn is_untold(fault: &FileFault, explain: bool) -> bool {
    match fault {
        FileFault::Read => !explain,
        FileFault::Config(_) => false,
    }
}

/// Checks the bytes of a configuration: writes one line on its settings to `writer`, or the line of
/// its first fault to `errors`, and answers the exit status.
///
/// Where an explanation is asked for, it is written to `writer` before: where the first fault
/// stands and what is wanted there, or what is worth knowing of settings without fault. Where the
/// explainer is out of memory for the words, there are none, and it counts that.
///
/// If a number of exchanges is given, the line shows the settings for that number. If they don't
/// fit, that is reported as a fault, after all faults of the bytes.
///
/// Either line is flushed and takes no memory. Where the line of a fault can't be written itself,
/// it is dropped.
pub fn check_text<W: Write, E: Write>(
    explainer: &mut Explainer,
    alloc: Global,
    bytes: &[u8],
    options: CheckOptions,
    writer: &mut Counted<W>,
    errors: &mut Counted<E>,
) -> u8
    ensures status { (result ≡ 0) ⊎ (result ≡ 1) }

    // The line of the settings is written, behind the words if they are asked for, and nothing
    // else.
    ensures accepted { result ≡ 0 →
        IsAcceptedAfter options.explain options.exchanges
        (HasLacked explainer.old explainer.new) W.contents writer.old writer.new bytes.now }
    ensures quiet { result ≡ 0 → errors.new ≡ errors.old }

    // The first fault is reported.
    ensures refused { result ≡ 1 → IsRefused E.contents errors.old errors.new
        (IsWhyAfter options.explain options.exchanges (HasLacked explainer.old explainer.new)
        W.contents writer.old writer.new bytes.now) }
{
    match check(explainer, alloc, bytes, options, writer) {
        Ok(()) => DONE,
        Err(fault) => report(errors, fault),
    }
}

/// Writes the line of the settings that the bytes hold, behind the words if they are asked for.
fn check<W: Write>(
    explainer: &mut Explainer,
    alloc: Global,
    bytes: &[u8],
    options: CheckOptions,
    writer: &mut Counted<W>,
) -> Result<(), CheckFault>
    ensures accepted { OnOk result
        (IsAcceptedAfter options.explain options.exchanges
        (HasLacked explainer.old explainer.new) W.contents writer.old writer.new bytes.now) }
    ensures refused { IfErr result
        (IsWhyAfter options.explain options.exchanges (HasLacked explainer.old explainer.new)
        W.contents writer.old writer.new bytes.now) }
{
    if options.explain {
        check_after_words(explainer, alloc, bytes, options.exchanges, writer)
    } else {
        check_bytes(alloc, bytes, options.exchanges, writer)
    }
}

/// Writes the words on the bytes, and behind them the line of their settings.
fn check_after_words<W: Write>(
    explainer: &mut Explainer,
    alloc: Global,
    bytes: &[u8],
    exchanges: Option<u32>,
    writer: &mut Counted<W>,
) -> Result<(), CheckFault>
    ensures accepted { OnOk result
        (IsAcceptedAfter true exchanges (HasLacked explainer.old explainer.new) W.contents
        writer.old writer.new bytes.now) }
    ensures refused { IfErr result
        (IsWhyAfter true exchanges (HasLacked explainer.old explainer.new) W.contents writer.old
        writer.new bytes.now) }
{
    match write_explanation(explainer, alloc, bytes, exchanges, writer) {
        Ok(()) => check_bytes(alloc, bytes, exchanges, writer),
        Err(_) => Err(CheckFault::Write),
    }
}

/// Writes the line of the settings that the bytes hold, for so many exchanges where a number is
/// given.
fn check_bytes<W: Write>(
    alloc: Global,
    bytes: &[u8],
    exchanges: Option<u32>,
    writer: &mut Counted<W>,
) -> Result<(), CheckFault>
    ensures accepted { OnOk result
        (IsAccepted exchanges W.contents writer.old writer.new bytes.now) }
    ensures refused { IfErr result (IsWhy exchanges writer.old writer.new bytes.now) }
{
    let settings = read_bytes(alloc, bytes)?.by_exchanges(exchanges)?;
    write_accepted(writer, &settings)?;
    Ok(())
}

/// Tells a fault, and answers the status after it.
fn report<E: Write>(errors: &mut Counted<E>, fault: CheckFault) -> u8
    ensures status { result ≡ 1 }
    ensures told { IsTold E.contents errors.old errors.new (fault_line (check_fault_text fault)) }
{
    report_check_fault(errors, &fault);
    FAULT
}
