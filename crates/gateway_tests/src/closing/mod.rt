// How a gate is closed.
mod handing;
mod one_caller_tests;
mod threads_tests;

pub(crate) use handing::Handing;
pub(crate) use one_caller_tests::one_closes;
pub(crate) use threads_tests::two_threads_close;
