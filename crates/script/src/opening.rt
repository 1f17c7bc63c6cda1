// The settings at the head of a text, and where they end.
ghost use Rattle.std.specs.Prelude.{◌≡◌, ◌<◌, ◌≤◌, ◌+◌, ◌^◌, length, option_map, IfOk};
ghost use Rattle.std.specs.Str.Lines.{lines};
ghost use Rattle.script.specs.Words.{words};
ghost use Rattle.script.specs.Setting.{setting_bytes};
ghost use Rattle.script.specs.Opening.{head_of, opening_of};

use super::line_fault::LineFault;
use super::lines::next_line;
use super::setting::{Setting, read_setting};
use super::settings::ScriptSettings;
use super::words::{is_comment, next_word};
use std::alloc::{AllocError, Global};

/// The settings at the head of a text, and what is left of it.
#[derive(Drop)]
pub struct Opening<'a> {
    /// The settings.
    pub settings: ScriptSettings<'a>,
    /// The number of the first line that is left, from 1.
    pub line: u64,
    /// The lines that are left: the first is none of the settings, or the setting at fault.
    pub rest: &'a [u8],
    /// The setting line at fault, if one is.
    pub fault: Option<LineFault>,
}

/// What a line says at the head of a text: a setting, or nothing where it has no words or is a
/// comment. `None` where it says anything else, with which the settings are over.
fn read_head(line: &[u8]) -> Option<Option<Setting<&[u8]>>>
    ensures { option_map (option_map setting_bytes) result ≡ head_of (words line.now) }
{
    let Some((first, line)) = next_word(line) else {
        return Some(None);
    };
    if is_comment(first) {
        return Some(None);
    }
    Some(Some(read_setting(first, line)?))
}

/// Reads the settings at the head of a script or a trace: up to the first line that is neither
/// skipped nor a setting, or to the first setting at fault. Whether the line that ends them is at
/// fault is for its reader to say.
///
/// `AllocError` where memory runs out.
pub fn read_settings<'a>(alloc: Global, text: &'a [u8]) -> Result<Opening<'a>, AllocError>
    requires { length text.now < 2 ^ 63 }
    ensures value { IfOk result (λ opening. record {
      settings = opening.settings;
      line = opening.line;
      rest = lines opening.rest.now;
      fault = opening.fault;
    } ≡ opening_of text.now) }
    ensures short { IfOk result (λ opening.
        opening.line + length opening.rest.now ≤ 1 + length text.now) }
{
    let mut settings = ScriptSettings::new(alloc);
    let mut rest = text;
    let mut number = 1u64;
    let mut fault = None;
    while let Some((line, after)) = next_line(rest) {
        let taken = match read_head(line) {
            None => break,
            Some(None) => Ok(()),
            Some(Some(setting)) => settings.take(setting)?,
        };
        if let Err(why) = taken {
            fault = Some(LineFault { line: number, why });
            break;
        }
        rest = after;
        number += 1;
    }
    Ok(Opening {
        settings,
        line: number,
        rest,
        fault,
    })
}
