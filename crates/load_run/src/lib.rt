//! Carries out the calls of a trace by threads, through one shared gate, and audits the run.
//!
//! [`load`] does it whole, and [`load_with`] by a clock that is handed in. Their contract says
//! which lines they write: those of a history that an audit accepted, by the receipts of all
//! workers.
//!
//! `calls` makes the calls of one arrival, `worker` those of one worker's arrivals, in their order,
//! and `workers` those of all workers, each on a thread of its own. `run` makes the gate and closes
//! it. `specs/Worker.antt` says which receipts a worker gets, and `specs/Load.antt` what a run is.
#![tactic(auto)]

mod calls;
mod counting;
mod driver;
mod fault;
mod fitting;
mod making;
mod run;
mod summary;
mod worker;
mod workers;

pub use driver::{load, load_with};
pub use fault::LoadFault;
pub use summary::Summary;
