// The texts of help, one file a command.

mod check;
mod load;
mod replay;
mod serve;
mod simulate;

pub(crate) use check::{CHECK_ABOUT, CHECK_HELP};
pub(crate) use load::{LOAD_ABOUT, LOAD_HELP};
pub(crate) use replay::{REPLAY_ABOUT, REPLAY_HELP};
pub(crate) use serve::{SERVE_ABOUT, SERVE_HELP};
pub(crate) use simulate::{SIMULATE_ABOUT, SIMULATE_HELP};

pub(crate) const ABOUT: &str =
    "Decides, before a request is forwarded, whether the backend can take one more";
