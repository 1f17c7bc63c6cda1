// What is said of a line at fault, written.
ghost use Rattle.std.specs.Prelude.{string_bytes};
ghost use Rattle.line_explain.specs.BehindFault.{IsSaid};
ghost use Rattle.line_explain.specs.Kept.{kept_of};
ghost use Rattle.line_explain.specs.Lacking.{HasLacked};
ghost use Rattle.line_explain.specs.Named.{IsExplainedBy};

use crate::explainer::LineExplainer;
use crate::kept::Kept;
use counted_io::{Counted, write_and_flush};
use script::{LineFault, TextKind};
use std::alloc::Global;
use std::io::Write;

/// Says of a line at fault which word is wrong and what is wanted there, by the text that a reader
/// kept. Where it wasn't kept, nothing is said, nor where the explainer is out of memory, which
/// counts that; and what can't be written is dropped.
pub fn tell_explained<R, E: Write>(
    explainer: &mut LineExplainer,
    alloc: Global,
    kind: TextKind,
    reader: &Kept<R>,
    fault: LineFault,
    errors: &mut Counted<E>,
)
    ensures { IsSaid (HasLacked explainer.old explainer.new) kind (kept_of reader.now) E.contents
        fault errors.old errors.new }
{
    let words = words_on(explainer, alloc, kind, reader, fault);
    let _ = write_and_flush(errors, words.as_bytes());
}

/// What there is to say by the text that was kept.
fn words_on<R>(
    explainer: &mut LineExplainer,
    alloc: Global,
    kind: TextKind,
    reader: &Kept<R>,
    fault: LineFault,
) -> String
    ensures { IsExplainedBy (HasLacked explainer.old explainer.new) kind (kept_of reader.now) fault
        (string_bytes result) }
{
    let Some(text) = reader.bytes() else {
        return String::new(alloc);
    };
    match explainer.explain(kind, text, fault) {
        Ok(words) => words,
        Err(_) => String::new(alloc),
    }
}
