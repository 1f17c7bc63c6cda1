// The words of a line, one at a time.
ghost use Rattle.std.specs.Prelude.{◌≡◌, ◌<◌, ◌≤◌, ◌==◌, [], ◌∷◌, bytes_eq, length, IfSome, IfNone};
ghost use Rattle.std.specs.List.{prefix_len, position_or_len};
ghost use Rattle.script.specs.Line.{is_comment};
ghost use Rattle.script.specs.Words.{words};

use super::lines::place_of;

/// How many spaces stand in front.
#[tactic(auto, using(std::proofs::lemmas::List::Sums::prefix_len_is))]
fn spaces_before(bytes: &[u8]) -> usize
    ensures value { result ≡ prefix_len (λ found. found == 32) bytes.now }
    ensures inside { result ≤ length bytes.now }
{
    for (at, found) in bytes.iter().enumerate() {
        if *found != b' ' {
            return at;
        }
    }
    bytes.len()
}

/// What follows the spaces in front.
fn without_spaces(line: &[u8]) -> &[u8]
    ensures words { words result.now ≡ words line.now }
    ensures starts { 0 < length result.now → 0 < position_or_len (λ found. found == 32) result.now }
{
    &line[spaces_before(line)..]
}

/// The first word, and what follows it; nothing where no word is left.
#[tactic(auto, using(crate::proofs::Parts::words_first, std::proofs::lemmas::List::take_rest))]
pub(crate) fn next_word(line: &[u8]) -> Option<(&[u8], &[u8])>
    ensures none { IfNone result (words line.now ≡ []) }
    ensures first { IfSome result (λ cut. words line.now ≡ cut.0.now ∷ words cut.1.now) }
{
    let rest = without_spaces(line);
    if rest.is_empty() {
        return None;
    }
    let end = place_of(rest, b' ');
    Some(rest.split_at(end))
}

/// Whether a word is this one.
pub(crate) fn is_word(word: &[u8], wanted: &str) -> bool
    ensures { result ≡ bytes_eq word.now wanted.now }
{
    word == wanted.as_bytes()
}

/// Whether the first word of a line begins a comment.
pub(crate) fn is_comment(first: &[u8]) -> bool
    ensures { result ≡ is_comment first.now }
{
    first.first() == Some(&b'#')
}
