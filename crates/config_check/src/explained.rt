// The words of an explanation, written.
ghost use Rattle.std.specs.Prelude.{◌≡◌, false, ℕ, List, OnErr, OnOk, string_bytes};
ghost use Rattle.counted_io.specs.Effects.{Wrote};
ghost use Rattle.counted_io.specs.Causes.{IsWriteCause};
ghost use Rattle.config_check.specs.Check.{AreWordsOn};
ghost use Rattle.config_explain.specs.Lacking.{HasLacked};

use config_explain::Explainer;
use config_file::{Opener, why_unread};
use counted_io::{Counted, WriteFault, write_and_flush};
use std::alloc::{AllocError, Global};
use std::io::Write;

/// Writes what there is to say of the bytes of a configuration; nothing where it is out of memory.
pub(crate) fn write_explanation<W: Write>(
    explainer: &mut Explainer,
    alloc: Global,
    bytes: &[u8],
    exchanges: Option<u32>,
    writer: &mut Counted<W>,
) -> Result<(), WriteFault>
    ensures all { OnOk result ((words : List ℕ)
        × AreWordsOn (HasLacked explainer.old explainer.new) bytes.now words
        × Wrote W.contents writer.old writer.new words) }
    ensures failed { OnErr result (IsWriteCause writer.old writer.new) }
{
    let words = words_on(explainer, alloc, bytes, exchanges);
    write_and_flush(writer, words.as_bytes())
}

/// What there is to say of the bytes of a configuration; nothing where it is out of memory.
fn words_on(
    explainer: &mut Explainer,
    alloc: Global,
    bytes: &[u8],
    exchanges: Option<u32>,
) -> String
    ensures { AreWordsOn (HasLacked explainer.old explainer.new) bytes.now (string_bytes result) }
{
    match explainer.explain(bytes, exchanges) {
        Ok(words) => words,
        Err(_) => String::new(alloc),
    }
}

/// Writes why a file can't be read, if that is asked for, and if it can be.
pub(crate) fn write_why_unread<F: Opener, W: Write>(
    files: &F,
    alloc: Global,
    path: &str,
    explain: bool,
    writer: &mut Counted<W>,
)
    ensures unasked { explain ≡ false → writer.new ≡ writer.old }
{
    if explain {
        if let Ok(words) = unread_line(files, alloc, path) {
            let _ = write_and_flush(writer, words.as_bytes());
        }
    }
}

/// Tells on standard error why a file can't be read, if that is untold, and if it can be told.
pub(crate) fn tell_why_unread<R: Eprint, F: Opener>(
    rt: &R,
    files: &F,
    alloc: Global,
    path: &str,
    is_untold: bool,
) {
    if is_untold {
        if let Ok(words) = unread_line(files, alloc, path) {
            let _ = rt.eprint(words.as_str());
        }
    }
}

/// The path of a file that can't be read, and why.
fn unread_line<F: Opener>(files: &F, alloc: Global, path: &str) -> Result<String, AllocError> {
    let reason = why_unread(files, alloc, path)?;
    format!(in alloc; "{path}: {reason}\n")
}
