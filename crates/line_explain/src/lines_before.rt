// The lines of a text, by their numbers.
ghost use Rattle.std.specs.Prelude.{◌≡◌, ◌-◌, option_map, slice_get};
ghost use Rattle.std.specs.Str.Lines.{lines};

use script::next_line;

/// The line with this number, counted from 1.
#[tactic(auto, using(crate::proofs::Behind::one_on, crate::proofs::Behind::here))]
pub(crate) fn line_at(text: &[u8], number: u64) -> Option<&[u8]>
    ensures { option_map (λ line. line.now) result ≡ slice_get (lines text.now) (number - 1) }
{
    let mut rest = text;
    for _before in 1..number {
        let (_, after) = next_line(rest)?;
        rest = after;
    }
    let (line, _) = next_line(rest)?;
    Some(line)
}
