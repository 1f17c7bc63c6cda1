// What is said of a line at fault.
ghost use Rattle.std.specs.Prelude.{◌≡◌, ◌++◌, IfOk, OnOk, string_bytes};
ghost use Rattle.script.specs.Words.{words};
ghost use Rattle.line_explain.specs.Named.{IsExplained, IsNamed, NamesWord, word_line};

use crate::choices::push_choices;
use crate::classes::{place_of, push_names, push_names_before, push_refusal, refusal_of};
use crate::fitting::{astray, word_at};
use crate::lines_before::line_at;
use crate::shown::shown;
use crate::value::{form_had, outside, push_wanted};
use script::{FaultKind, LineFault, TextKind, WordPlace, next_line, read_settings};
use std::alloc::{AllocError, Global};

/// A line at fault of a text.
#[derive(Clone, Copy)]
struct Faulty<'a> {
    kind: TextKind,
    why: FaultKind,
    text: &'a [u8],
    line: &'a [u8],
}

/// What is said of a line at fault, in a line: which of its words is wrong, and what is wanted
/// there. Nothing where the text has no such line. Fails where it is out of memory.
pub(crate) fn explanation(
    alloc: Global,
    kind: TextKind,
    text: &[u8],
    fault: LineFault,
) -> Result<String, AllocError>
    ensures { IfOk result (λ said. IsExplained kind text.now fault (string_bytes said)) }
{
    let why = fault.why;
    match line_at(text, fault.line) {
        Some(line) => explained(
            alloc,
            Faulty {
                kind,
                why,
                text,
                line,
            },
        ),
        None => Ok(String::new(alloc)),
    }
}

/// What is said of a line.
fn explained(alloc: Global, faulty: Faulty<'_>) -> Result<String, AllocError>
    ensures { IfOk result (λ said. NamesWord faulty.entry.kind faulty.entry.why
        (words faulty.entry.line.now) (string_bytes said)) }
{
    let mut wanted = String::new(alloc);
    let place = named(&mut wanted, faulty)?;
    let word = shown(alloc, word_at(faulty.line, place))?;
    let mut said = String::new(alloc);
    push_line(&mut said, place.saturating_add(1), &word, &wanted)?;
    Ok(said)
}

/// Says the line of its parts.
fn push_line(out: &mut String, number: usize, word: &str, wanted: &str) -> Result<(), AllocError>
    ensures { OnOk result
        (string_bytes out.new ≡ string_bytes out.old ++ word_line number word.now wanted.now) }
{
    write!(out, "word {number}{word}: {wanted}\n")
}

/// The place of the word that is named, and what is wanted there.
fn named(wanted: &mut String, faulty: Faulty<'_>) -> Result<usize, AllocError>
    ensures { IfOk result
        (IsNamed faulty.entry.kind faulty.entry.why (words faulty.entry.line.now)) }
{
    match faulty.why {
        FaultKind::Words => {
            let place = astray(faulty.kind, faulty.line);
            push_choices(wanted, faulty.kind, faulty.line, place)?;
            Ok(place)
        }
        FaultKind::Late => {
            push_late(wanted, faulty.text)?;
            Ok(0)
        }
        FaultKind::Twice => {
            push_twice(wanted, faulty.text, faulty.line)?;
            Ok(0)
        }
        FaultKind::Value => named_value(wanted, faulty),
        FaultKind::Class => {
            push_known(wanted, faulty.text, faulty.line)?;
            Ok(1)
        }
    }
}

/// The place of a number or a name that isn't in its range, and what is.
fn named_value(wanted: &mut String, faulty: Faulty<'_>) -> Result<usize, AllocError>
    ensures { IfOk result
        (IsNamed faulty.entry.kind FaultKind.Value (words faulty.entry.line.now)) }
{
    let line = faulty.line;
    let form = form_had(faulty.kind, line).unwrap_or(&[]);
    let place = outside(line, form);
    if place < form.len() {
        push_wanted(wanted, line, form, place)?;
        return Ok(place);
    }
    push_refused(wanted, faulty.text, line, form)
}

/// Says why a line isn't taken whose name and numbers are allowed, and the place of its word for
/// which it isn't.
fn push_refused(
    wanted: &mut String,
    text: &[u8],
    line: &[u8],
    form: &[WordPlace],
) -> Result<usize, AllocError> {
    let settings = read_settings(*wanted.allocator(), text)?.settings;
    let refusal = refusal_of(settings.table(), settings.places_left(), line);
    push_refusal(wanted, form, refusal)?;
    Ok(place_of(refusal))
}

/// Says that a setting comes too late, and behind which line.
fn push_late(wanted: &mut String, text: &[u8]) -> Result<(), AllocError> {
    let ending = read_settings(*wanted.allocator(), text)?.line;
    write!(
        wanted,
        "settings stand before all other lines, and line {ending} is another"
    )
}

/// Says that a setting comes twice, and in which line it came first.
fn push_twice(wanted: &mut String, text: &[u8], line: &[u8]) -> Result<(), AllocError> {
    let first = first_like(text, line);
    write!(wanted, "this setting stands once, and line {first} has it")
}

/// Says which classes the text has that the line may name.
fn push_known(wanted: &mut String, text: &[u8], line: &[u8]) -> Result<(), AllocError> {
    let opening = read_settings(*wanted.allocator(), text)?;
    let table = opening.settings.table();
    match word_at(line, 0) {
        Some(b"places") => push_names_before(wanted, table),
        _ => push_names(wanted, table),
    }
}

/// Whether two lines give one setting: their first words are the same, and of `places` the classes.
fn is_like(line: &[u8], setting: &[u8]) -> bool {
    let first = word_at(setting, 0);
    word_at(line, 0) == first
        && (first != Some(b"places") || word_at(line, 1) == word_at(setting, 1))
}

/// The number of the first line with this one's setting.
fn first_like(text: &[u8], setting: &[u8]) -> u64 {
    let mut rest = text;
    let mut number = 1u64;
    while let Some((line, after)) = next_line(rest) {
        if is_like(line, setting) {
            return number;
        }
        rest = after;
        number = number.saturating_add(1);
    }
    number
}
