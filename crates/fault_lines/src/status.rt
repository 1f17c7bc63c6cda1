// The exit statuses.

/// The exit status of a command that was carried out: 0.
pub const DONE: u8 = 0;

/// The exit status of a command that met a fault, whose line was reported: 1.
pub const FAULT: u8 = 1;

/// The exit status of words that are at fault: 2.
pub const WORDS_FAULT: u8 = 2;
