//! The gate that the settings of a script or of a trace ask for.
//!
//! `replay`, `simulate` and `load` each make their gate of [`gate_settings`], whose contract is by
//! `specs/Settings.antt`: no line is passed over, and what no line gives is as the command has it.
#![tactic(auto)]

mod settings;

pub use settings::gate_settings;
