//! The lines of scripts: settings first, and then what is asked of a limiter; and those of traces,
//! whose settings are followed by calls.
//!
//! [`next_line`] cuts one line off a text, and [`read_line`] says what it has: nothing, a setting
//! or a request, or the fault of its words. Its contract is exact, by `specs/Line.antt`; that of
//! [`read_trace_line`], which says the same of a trace's line, by `specs/TraceLine.antt`.
//! [`ScriptSettings`] are what setting lines add up to, each taken by the rules of
//! `specs/Settings.antt`. [`read_settings`] takes those at the head of a text, of a script or a
//! trace alike, and says which lines are left (`specs/Opening.antt`).
//!
//! Where a setting comes too late, and which class has a name, is for the driver to say, which
//! knows what was asked before. Other formats of lines are read by the same words and numbers.
//!
//! [`line_forms`] is the table of what stands at each place of a line, for whoever explains one.
#![tactic(auto)]

mod arrival;
mod classes;
mod fault_kind;
mod forms;
mod limit_line;
mod line;
mod line_fault;
mod lines;
mod numbers;
mod opening;
mod place;
mod request;
mod setting;
mod settings;
mod trace_line;
mod window_line;
mod words;

pub use arrival::ArrivalLine;
pub use classes::read_part;
pub use fault_kind::FaultKind;
pub use forms::{TextKind, line_forms};
pub use line::{Line, read_line};
pub use line_fault::LineFault;
pub use lines::next_line;
pub use numbers::read_number;
pub use opening::{Opening, read_settings};
pub use place::{NumberPlace, RangeEnd, WordPlace};
pub use request::Request;
pub use setting::Setting;
pub use settings::ScriptSettings;
pub use trace_line::{TraceLine, read_trace_line};
