// The keys of the window.
ghost use Rattle.std.specs.Prelude.{◌≡◌, IfOk, IsOk};
ghost use Rattle.toml.specs.View.{table_view};
ghost use Rattle.windowed.specs.WindowedRules.{windows_made};
ghost use Rattle.gate_config.specs.Window.{window_in};

use crate::{ConfigFault, Key, MICRO, Range, read_number};
use config_words::range_of;
use toml::Table;
use windowed::WindowNumbers;

/// The keys of a window.
pub const WINDOW_KEYS: [Key; 4] = [
    Key::WindowSize,
    Key::WindowMinUs,
    Key::WindowMaxUs,
    Key::WindowMinRttUs,
];

/// The windows of the section `window`, which can be made of its keys.
pub fn read_window(table: &Table) -> Result<WindowNumbers, ConfigFault>
    ensures sound { IfOk result (λ numbers. IsOk (windows_made numbers)) }
    ensures value { result ≡ window_in (table_view table.now) }
{
    let size = read_number(table, Key::WindowSize, range_of!(WindowSize))?;
    let min_us = read_number(table, Key::WindowMinUs, range_of!(WindowMinUs))?;
    let max_us = read_number(table, Key::WindowMaxUs, range_of!(WindowMaxUs, min_us))?;
    let min_rtt_us = read_number(table, Key::WindowMinRttUs, range_of!(WindowMinRttUs))?;
    Ok(WindowNumbers {
        size,
        min_window_ns: u64::from(min_us) * MICRO,
        max_window_ns: u64::from(max_us) * MICRO,
        min_rtt_ns: u64::from(min_rtt_us) * MICRO,
    })
}
