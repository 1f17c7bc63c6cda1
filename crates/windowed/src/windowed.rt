// A limit that learns from windows of samples.
ghost use Rattle.std.specs.Prelude.{◌≡◌, ◌↔◌, IfOk, IfErr, IsOk};
ghost use Rattle.windowed.specs.WindowedRules.{AreSettings, numbers_from, opened, windowed_rules};
ghost use Rattle.windowed.specs.WindowedLaws.{IsLawful-windowed};

use crate::numbers::MOST_SAMPLES;
use crate::settings::WindowSettings;
use crate::window::Window;
use limit_laws::{Limit, LimitView, MakeFault, Sample, SetFault, WindowView};
use std::marker::Model;

/// Any limit algorithm, learning from the mean samples of windows.
///
/// A window lasts for twice its least round trip, within bounds, or for 1,000,000 samples. It
/// takes no memory for them: five totals are kept, and what the last window came to.
#[derive(Drop)]
pub struct Windowed<L: Limit> {
    inner: L,
    window: Window,
    last: Option<WindowView>,
    next_update: u64,
    settings: WindowSettings,
}

impl<L: Limit> Model for Windowed<L> {
    ghost use Rattle.std.specs.Prelude.{◌<◌};
    ghost use Rattle.windowed.specs.Totals.{most_samples};
    ghost use Rattle.windowed.specs.WindowedRules.{WindowedState};

    ghost Value = { WindowedState L };

    ghost view = { λ w. record {
      inner = w.inner;
      totals = w.window;
      last = w.last;
      next_update = w.next_update;
      settings = w.settings;
    } };

    ghost invariant = { λ w. w.window.count < most_samples };
}

impl<L: Limit> Windowed<L> {
    /// `inner` over windows of these numbers, by the rules of [`WindowSettings::new`]; where those
    /// refuse them, their fault with the inner limit handed back.
    pub fn new(
        inner: L,
        size: u32,
        min_window: u64,
        max_window: u64,
        min_rtt: u64,
    ) -> Result<Windowed<L>, (MakeFault, L)>
        ensures made { IsOk result
            ↔ AreSettings (numbers_from size min_window max_window min_rtt) }
        ensures value { IfOk result (λ windowed. windowed
            ≡ opened (numbers_from size min_window max_window min_rtt) inner) }
        ensures fault { IfErr result (λ refusal. refusal.0 ≡ MakeFault.Window) }
        ensures handed_back { IfErr result (λ refusal. refusal.1 ≡ inner) }
    {
        match WindowSettings::new(size, min_window, max_window, min_rtt) {
            Ok(settings) => Ok(Windowed::with_settings(inner, settings)),
            Err(fault) => Err((fault, inner)),
        }
    }

    /// `inner` over windows, before their first sample.
    pub fn with_settings(inner: L, settings: WindowSettings) -> Windowed<L>
        ensures { result ≡ opened settings inner }
    {
        Windowed {
            inner,
            window: Window::empty(),
            last: None,
            next_update: 0,
            settings,
        }
    }

    /// The inner limit, in the state in which the windows so far left it.
    pub fn inner(&self) -> &L
        ensures { result.now ≡ self.now.inner }
    {
        &self.inner
    }

    /// How its samples are gathered into windows.
    pub fn settings(&self) -> WindowSettings
        ensures { result ≡ self.now.settings }
    {
        self.settings
    }
}

impl<L: Limit> Limit for Windowed<L> {
    ghost rules = { windowed_rules L.rules };

    fn lo(&self) -> u32 {
        self.inner.lo()
    }

    fn hi(&self) -> u32 {
        self.inner.hi()
    }

    fn limit(&self) -> u32 {
        self.inner.limit()
    }

    fn view(&self) -> LimitView {
        LimitView {
            window: self.last,
            ..self.inner.view()
        }
    }

    fn on_sample(&mut self, sample: &Sample) {
        if sample.rtt() < self.settings.min_rtt() {
            return;
        }
        self.window.add(sample);
        let end = sample.start() + sample.rtt();
        if end <= self.next_update && self.window.count() < MOST_SAMPLES {
            return;
        }
        let window = self.window;
        self.window = Window::empty();
        let mean_ns = window.mean();
        self.last = Some(WindowView {
            mean_ns,
            count: u64::from(window.count()),
        });
        let lasts = (2 * window.least())
            .max(self.settings.min_window())
            .min(self.settings.max_window());
        self.next_update = end + lasts;
        if self.settings.size() <= window.count() {
            let mean = Sample::of_rtt(
                sample.start(),
                mean_ns,
                window.greatest_inflight(),
                window.dropped(),
            );
            self.inner.on_sample(&mean);
        }
    }

    fn set(&mut self, n: u32) -> Result<(), SetFault> {
        self.inner.set(n)
    }

    fn reset(&mut self) {
        self.inner.reset();
        self.window = Window::empty();
        self.last = None;
        self.next_update = 0;
    }

    fn copy(&self) -> Self {
        Windowed {
            inner: self.inner.copy(),
            window: self.window,
            last: self.last,
            next_update: self.next_update,
            settings: self.settings,
        }
    }

    ghost lawful = { IsLawful-windowed L.rules L.lawful };
}
