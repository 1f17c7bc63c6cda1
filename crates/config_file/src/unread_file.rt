// Why the text of a file was not had.
ghost use Rattle.std.specs.Prelude.{◌≡◌};
ghost use Rattle.config_file.specs.FileFault.{fault_of};

use crate::file_fault::FileFault;
use counted_io::Counted;

/// Why the text of a file was not had, with what is left of its reader: by its counts it tells what
/// was met.
#[derive(Drop)]
pub enum UnreadFile<R> {
    /// It couldn't be opened.
    Unopened,
    /// It was opened, and its bytes were not had.
    Unread(Counted<R>, FileFault),
}

impl<R: Drop> UnreadFile<R> {
    /// The fault of it alone.
    pub fn into_fault(self) -> FileFault
        ensures { result ≡ fault_of self }
    {
        match self {
            UnreadFile::Unopened => FileFault::Read,
            UnreadFile::Unread(_, fault) => fault,
        }
    }
}
