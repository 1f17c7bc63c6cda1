// How samples are gathered into windows.
ghost use Rattle.std.specs.Prelude.{◌≡◌, ◌≤◌, ◌↔◌, IfOk, OnErr, IsOk};
ghost use Rattle.limit_laws.specs.Facts.{hour};
ghost use Rattle.windowed.specs.WindowedRules.{AreSettings, numbers_from, windows_made};

use crate::numbers::{MOST_SAMPLES, WindowNumbers};
use limit_laws::{HOUR, MakeFault};
use std::marker::Model;

/// How samples are gathered into windows: numbers that are in their ranges. A contract sees the
/// four of them.
#[derive(Clone, Copy)]
pub struct WindowSettings {
    numbers: WindowNumbers,
}

impl Model for WindowSettings {
    ghost use Rattle.windowed.specs.declared.numbers.WindowNumbers.{WindowNumbers as Numbers};
    ghost use Rattle.windowed.specs.WindowedRules.{AreSettings};

    ghost Value = { Numbers };

    ghost view = { λ w. w.numbers };

    ghost invariant = { λ w. AreSettings w.numbers };

    ghost inverse = { λ n. record { numbers = n } };
}

impl WindowSettings {
    /// A window of fewer than `size` samples is not handed on; it lasts for `min_window` to
    /// `max_window` nanoseconds after the sample that ends the one before; a round trip below
    /// `min_rtt` nanoseconds is left out.
    ///
    /// [`MakeFault::Window`] unless `size` is 1 to [`MOST_SAMPLES`],
    /// `1 <= min_window <= max_window <= one hour` and `min_rtt <= one hour`.
    pub fn new(
        size: u32,
        min_window: u64,
        max_window: u64,
        min_rtt: u64,
    ) -> Result<WindowSettings, MakeFault>
        ensures made { IsOk result
            ↔ AreSettings (numbers_from size min_window max_window min_rtt) }
        ensures value { IfOk result
            (λ settings. settings ≡ numbers_from size min_window max_window min_rtt) }
        ensures fault { OnErr result (result ≡ Err MakeFault.Window) }
    {
        WindowSettings::of(WindowNumbers {
            size,
            min_window_ns: min_window,
            max_window_ns: max_window,
            min_rtt_ns: min_rtt,
        })
    }

    /// The settings of these numbers, with the fault of [`WindowSettings::new`].
    pub fn of(numbers: WindowNumbers) -> Result<WindowSettings, MakeFault>
        ensures made { result ≡ windows_made numbers }
        ensures value { IfOk result (λ settings. settings ≡ numbers) }
    {
        let is_size = 1 <= numbers.size && numbers.size <= MOST_SAMPLES;
        let is_window = 1 <= numbers.min_window_ns
            && numbers.min_window_ns <= numbers.max_window_ns
            && numbers.max_window_ns <= HOUR;
        if !is_size || !is_window || HOUR < numbers.min_rtt_ns {
            return Err(MakeFault::Window);
        }
        Ok(WindowSettings { numbers })
    }

    /// How many samples a window must have to be handed on.
    pub fn size(&self) -> u32
        ensures { result ≡ self.now.size }
    {
        self.numbers.size
    }

    /// How long a window lasts at least, in nanoseconds.
    pub fn min_window(&self) -> u64
        ensures { result ≡ self.now.min_window_ns }
    {
        self.numbers.min_window_ns
    }

    /// How long a window lasts at most, in nanoseconds: one hour or less.
    pub fn max_window(&self) -> u64
        ensures value { result ≡ self.now.max_window_ns }
        ensures most { result ≤ hour }
    {
        self.numbers.max_window_ns
    }

    /// The least round trip that counts, in nanoseconds.
    pub fn min_rtt(&self) -> u64
        ensures { result ≡ self.now.min_rtt_ns }
    {
        self.numbers.min_rtt_ns
    }
}
