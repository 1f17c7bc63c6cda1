// Why a file can't be read.
use crate::opening::Opener;
use std::alloc::{AllocError, Global};
use std::io::Read;

/// Why the file at a path can't be read, in the system's words. It is opened once more to see that.
/// It fails only out of memory.
pub fn why_unread<F: Opener>(files: &F, alloc: Global, path: &str) -> Result<String, AllocError> {
    let mut file = match files.open(path) {
        Ok(file) => file,
        Err(error) => return format!(in alloc; "{error}"),
    };
    let mut first = [0u8; 1];
    match file.read(&mut first) {
        Ok(_) => format!(in alloc; "it has more than 1048576 bytes, or doesn't end"),
        Err(error) => format!(in alloc; "{error}"),
    }
}
