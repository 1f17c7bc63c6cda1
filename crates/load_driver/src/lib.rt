//! Drives a gate by texts: a script of acquires, endings and settings goes in, and what each line
//! is answered comes out.
//!
//! [`replay`] does it whole. Its contract says that it writes exactly the text that
//! `specs/Opening.antt` and `specs/Replay.antt` give to what it read, and when each fault comes.
//!
//! A [`Session`] is for drivers of other texts: what [`answer`] writes of what is asked is what the
//! whole history answers, though the session keeps its last stretch alone (`specs/Stretches.antt`).
#![tactic(auto)]

mod answers;
mod asked;
mod driver;
mod faults;
mod opening;
mod session;
mod text;

pub use answers::answer;
pub use asked::{SessionCall, read_end};
pub use driver::{DriverFault, KEPT, MOST_BYTES, MOST_READS, replay};
pub use script::{FaultKind, LineFault};
pub use session::{Added, Session};
