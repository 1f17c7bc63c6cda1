// Which number or name of a line is out of its range.
ghost use Rattle.std.specs.Prelude.{◌≡◌, length, option_and_then, option_map, slice_get, take_while, zip};
ghost use Rattle.script.specs.Words.{number_of, words};
ghost use Rattle.script.specs.Forms.{form_of, wanted_at};
ghost use Rattle.line_explain.specs.Outside.{end_at, form_had, is_whole, is_within, outside};

use crate::choices::push_held;
use crate::fitting::{count_words, is_filled, is_space, reach, word_at};
use config_words::key_row;
use partitions::is_name;
use script::{NumberPlace, RangeEnd, TextKind, WordPlace, line_forms, read_number};
use std::alloc::AllocError;

/// What the key of a row holds.
macro_rules! held_of_row {
    ($key:ident $start:literal $held:literal;) => {
        $held
    };
}

/// The form that a whole line has.
pub(crate) fn form_had(kind: TextKind, line: &[u8]) -> Option<&'static [WordPlace]>
    ensures { option_map form_of result ≡ form_had kind (words line.now) }
{
    let found = line_forms(kind).iter().find(|form| is_whole(line, form));
    found.copied()
}

/// Whether a line has a form from its first word to its last.
fn is_whole(line: &[u8], form: &[WordPlace]) -> bool
    ensures { result ≡ is_whole (words line.now) (form_of form.entry) }
{
    reach(line, form) == form.len() && count_words(line) == form.len()
}

/// The place of the first word that is out of its range; the number of places where none is.
pub(crate) fn outside(line: &[u8], form: &[WordPlace]) -> usize
    ensures { result ≡ outside (words line.now) (form_of form.entry) }
{
    count_within(line, form)
}

/// The same, by the words of the line beside the places of the form.
fn count_within(line: &[u8], form: &[WordPlace]) -> usize
    ensures { result ≡ length (take_while (λ pair. is_within (words line.now) (wanted_at pair.1)
        pair.0) (zip (words line.now) form.now)) }
{
    line.split(|byte| is_space(*byte))
        .filter(|part| is_filled(part))
        .zip(form.iter())
        .take_while(|(word, place)| is_within(line, **place, word))
        .count()
}

/// Whether a word is in the range of what is wanted at its place.
fn is_within(line: &[u8], place: WordPlace, word: &[u8]) -> bool
    ensures { result ≡ is_within (words line.now) (wanted_at place) word.now }
{
    match place {
        WordPlace::Number(number) => match read_number(word) {
            Some(n) => end_at(line, number.low) <= n && n <= end_at(line, number.high),
            None => true,
        },
        WordPlace::Name => is_name(word),
        WordPlace::Words(_) | WordPlace::Class => true,
    }
}

/// The number that an end of a range is in a line.
fn end_at(line: &[u8], end: RangeEnd) -> u64
    ensures { result ≡ end_at (words line.now) end }
{
    match end {
        RangeEnd::At(number) => number,
        RangeEnd::Of(place) => number_at(line, place).unwrap_or(0),
    }
}

/// The number at a place of a line.
fn number_at(line: &[u8], place: usize) -> Option<u64>
    ensures { result ≡ option_and_then number_of (slice_get (words line.now) place) }
{
    match word_at(line, place) {
        Some(word) => read_number(word),
        None => None,
    }
}

/// Says what is wanted at a place, and which numbers that are here where they hang on others.
pub(crate) fn push_wanted(
    out: &mut String,
    line: &[u8],
    form: &[WordPlace],
    place: usize,
) -> Result<(), AllocError> {
    match form.get(place) {
        Some(WordPlace::Number(number)) => {
            let name = number.name;
            write!(out, "{name}, ")?;
            push_held(out, form, *number)?;
            push_here(out, line, *number)
        }
        _ => push_name(out),
    }
}

/// Says what the name of a class may be.
pub(crate) fn push_name(out: &mut String) -> Result<(), AllocError> {
    let held = key_row! { ClassName [held_of_row] };
    let held = held.strip_suffix("; required").unwrap_or(held);
    write!(out, "NAME, {held}")
}

/// Says which numbers that are here, where they hang on others.
fn push_here(out: &mut String, line: &[u8], number: NumberPlace) -> Result<(), AllocError> {
    match number.low {
        RangeEnd::At(_) => Ok(()),
        RangeEnd::Of(_) => {
            let (low, high) = (end_at(line, number.low), end_at(line, number.high));
            write!(out, ", here {low} to {high}")
        }
    }
}
