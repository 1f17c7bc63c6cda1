// What is shown of a limit.
ghost use Rattle.std.specs.Prelude.{◌≡◌};
ghost use Rattle.auto.specs.Kept.{AreKept, IsKept};
ghost use Rattle.auto.specs.AutoRules.{auto_view, window_view};

use crate::learned::Learned;
use crate::window::Window;
use limit_laws::{LimitView, WindowView};

impl Window {
    /// The window as it is shown, where it has answers.
    fn view(&self) -> Option<WindowView>
        requires { IsKept self.now }
        ensures { result ≡ window_view self.now }
    {
        if self.count == 0 {
            return None;
        }
        Some(WindowView {
            mean_ns: self.mean(),
            count: self.count,
        })
    }
}

impl Learned {
    /// The base where it is known, and the last window that ended with its queue.
    pub(crate) fn view(&self, lo: u32, hi: u32) -> LimitView
        requires { AreKept lo hi self.now }
        ensures { result ≡ auto_view self.now }
    {
        let base_ns = if self.base == 0 {
            None
        } else {
            Some(self.base)
        };
        let queue = if self.ended.count == 0 {
            None
        } else {
            Some(self.queue(&self.ended) / self.ended.count)
        };
        LimitView {
            by_hand: false,
            base_ns,
            window: self.ended.view(),
            queue,
        }
    }
}
