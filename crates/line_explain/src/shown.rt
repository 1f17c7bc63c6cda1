// Words of a line, as a person is shown them.
ghost use Rattle.std.specs.Prelude.{◌≡◌, ℕ, List, IfOk, option_map, string_bytes};
ghost use Rattle.line_explain.specs.Named.{shown_as};

use std::alloc::{AllocError, Global};

/// How many bytes of a word are shown.
const SHOWN: usize = 60;

/// A word in quotes, behind a comma; or that the line has none there. A byte that isn't printed is
/// shown as Rust writes it, `\t` or `\xFF`.
pub(crate) fn shown(alloc: Global, word: Option<&[u8]>) -> Result<String, AllocError>
    ensures { IfOk result (λ said. (part : List ℕ)
        × (string_bytes said ≡ shown_as (option_map (λ word. word.now) word.entry) part)) }
{
    let Some(word) = word else {
        return String::from_str(alloc, " isn't there");
    };
    let said = escaped(alloc, word)?;
    format!(in alloc; ", \"{said}\"")
}

/// The first bytes of a word, and whether there are more.
fn escaped(alloc: Global, word: &[u8]) -> Result<String, AllocError> {
    let mut said = String::new(alloc);
    for byte in word.iter().take(SHOWN) {
        for part in byte.escape_ascii() {
            said.push(char::from(part))?;
        }
    }
    if word.len() > SHOWN {
        said.push_str("..")?;
    }
    Ok(said)
}
