// The line and column of a place in a text.
ghost use Rattle.std.specs.Prelude.{◌≡◌, ◌+◌, ◌==◌, ◌≤◌, count_by, take};

/// The line of a place in a text: 1, and one more for each line feed before it.
pub(crate) fn line_at(text: &[u8], place: usize) -> usize
    ensures { result ≡ count_by (λ byte. byte == 10) (take place text.now) + 1 }
{
    let before = &text[..place.min(text.len())];
    before.iter().filter(|byte| **byte == b'\n').count() + 1
}
