//! Where permits are asked for and ended, and the state of a gate.
//!
//! [`GatePort`] is all that an exchange knows of a gate: one call asks for a permit, one shows when
//! a permit started, and one ends it.
//! `specs/Asking.antt` and `specs/Ending.antt` say which entries a call adds where entries are
//! shown, and what its caller is told by them; `specs/Log.antt` says where they stand in a log of
//! which a beginning is known, with others' calls between. A [`GateView`] gives a [`Report`] of
//! the state of a gate, as `specs/Report.antt` has it.
#![tactic(auto)]

mod port;
mod report;
mod view;

pub use port::{Admission, GatePort, Why};
pub use report::{Report, report_of};
pub use view::GateView;
