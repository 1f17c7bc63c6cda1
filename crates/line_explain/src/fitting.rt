// Which word of a line no form can go on with.
ghost use Rattle.std.specs.Prelude.{◌≡◌, ◌==◌, bytes_eq, length, map, nat_lt, option_map, slice_get, take_while, zip};
ghost use Rattle.std.specs.List.{list_any};
ghost use Rattle.script.specs.Words.{words};
ghost use Rattle.script.specs.Forms.{fits, form_of, wanted_at};
ghost use Rattle.line_explain.specs.Astray.{astray, reach};

use script::{TextKind, WordPlace, line_forms, read_number};

/// Whether a word is this one.
fn is_word(word: &[u8], wanted: &str) -> bool
    ensures { result ≡ bytes_eq word.now wanted.now }
{
    word == wanted.as_bytes()
}

/// Whether a byte stands between words.
pub(crate) fn is_space(byte: u8) -> bool
    ensures { result ≡ (byte == 32) }
{
    byte == b' '
}

/// Whether what stands between two spaces is a word.
pub(crate) fn is_filled(part: &[u8]) -> bool
    ensures { result ≡ nat_lt 0 (length part.now) }
{
    !part.is_empty()
}

/// Whether a word is one of these.
fn is_among(word: &[u8], words: &[&str]) -> bool
    ensures { result ≡ list_any (bytes_eq word.now) (map (λ wanted. wanted.now) words.now) }
{
    words.iter().any(|wanted| is_word(word, wanted))
}

/// Whether a word may stand at a place, whichever number it spells.
fn fits(place: WordPlace, word: &[u8]) -> bool
    ensures { result ≡ fits (wanted_at place) word.now }
{
    match place {
        WordPlace::Words(words) => is_among(word, words),
        WordPlace::Number(_) => read_number(word).is_some(),
        WordPlace::Name | WordPlace::Class => true,
    }
}

/// How many words of a line stand where a form wants them, from the first one on.
pub(crate) fn reach(line: &[u8], form: &[WordPlace]) -> usize
    ensures { result ≡ reach (words line.now) (form_of form.entry) }
{
    count_fitting(line, form)
}

/// The same, by the words of the line beside the places of the form.
fn count_fitting(line: &[u8], form: &[WordPlace]) -> usize
    ensures { result ≡ length (take_while (λ pair. fits (wanted_at pair.1) pair.0)
        (zip (words line.now) form.now)) }
{
    line.split(|byte| is_space(*byte))
        .filter(|part| is_filled(part))
        .zip(form.iter())
        .take_while(|(word, place)| fits(**place, word))
        .count()
}

/// The place, counted from 0, of the first word that no form can go on with, or at which the line
/// ends too early.
pub(crate) fn astray(kind: TextKind, line: &[u8]) -> usize
    ensures { result ≡ astray kind (words line.now) }
{
    line_forms(kind)
        .iter()
        .fold(0, |furthest, form| furthest.max(reach(line, form)))
}

/// The word at a place of a line.
pub(crate) fn word_at(line: &[u8], place: usize) -> Option<&[u8]>
    ensures { option_map (λ word. word.now) result ≡ slice_get (words line.now) place }
{
    line.split(|byte| is_space(*byte))
        .filter(|part| is_filled(part))
        .nth(place)
}

/// How many words a line has.
pub(crate) fn count_words(line: &[u8]) -> usize
    ensures { result ≡ length (words line.now) }
{
    line.split(|byte| is_space(*byte))
        .filter(|part| is_filled(part))
        .count()
}
