//! `serve`: the gateway of a configuration.
//!
//! [`serve_file`] reads the configuration in a file, binds its address, serves clients by the
//! workers of `serving`, and at their end writes the line of the gate's counters. Its contract pins
//! what is written and the exit status; of sockets, threads and the log it says nothing.
//! [`SystemLog`] is the system by which it serves, with a log on standard error.
#![tactic(auto)]

mod admin;
mod binding;
mod command;
mod context;
mod descriptors;
mod desk_log;
mod fault;
mod gateway;
mod gateway_watch;
mod limits;
mod moment;
mod operators;
mod parent;
mod priority;
mod reading;
mod runtime;
mod stacks;
mod startup_lines;
mod system_log;

pub use command::serve_file;
pub use descriptors::TooFewDescriptors;
pub use fault::ServiceFault;
pub use parent::ParentProcess;
pub use system_log::SystemLog;
