//! Windows over any limit algorithm: [`Windowed`] gathers samples into windows and hands the inner
//! algorithm one mean sample for each window that holds enough of them, so that a single slow
//! answer doesn't move the limit. Its role is that of the windowed limit of Netflix's
//! concurrency-limits (README); the rule is this project's own.
//!
//! `specs/WindowedRules.antt` has the rule over the five totals that are kept, by which each call
//! meets the contract of [`limit_laws::Limit`]. `specs/Windows.antt` says what windows are, as a
//! cutting of the whole list of samples and settings, and [`inner_runs_over_windows`] that the
//! inner algorithm learns from those windows' mean samples alone. By
//! [`learns_from_windows_with_enough`] it learns from each window where each has enough samples,
//! and from none where none has: a limit at its least then stays there.
#![tactic(auto)]

mod laws;
mod numbers;
mod settings;
mod window;
mod windowed;

pub use laws::{cuts_into_windows, inner_runs_over_windows, learns_from_windows_with_enough};
pub use numbers::{MOST_SAMPLES, WindowNumbers};
pub use settings::WindowSettings;
pub use window::Window;
pub use windowed::Windowed;
