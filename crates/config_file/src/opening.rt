// Where files are opened.
ghost use Rattle.std.specs.Prelude.{IfOk, OnErr};

use std::fs::{File, Files};
use std::io::{Read, Result};

/// Where files are opened.
pub trait Opener {
    /// A file, opened to be read.
    type File: Read + Drop;

    ghost use Rattle.std.specs.Prelude.{ℕ, List};

    // It was opened at this path.
    ghost opened: { List ℕ → Self.File → Type 0 };

    // No file could be opened at this path.
    ghost unopened: { List ℕ → Type 0 };

    /// Opens the file at a path; the fault is the system's.
    fn open(&self, path: &str) -> Result<Self::File>
        ensures file { IfOk result (opened path.now) }
        ensures fault { OnErr result (unopened path.now) };
}

/// The path that names standard input, and the system's file for it.
const DASH: &str = "-";

const STANDARD_INPUT: &str = "/dev/stdin";

/// The files of the system; `-` names standard input. Std doesn't tell which of them was opened, or
/// why none could be.
#[derive(Clone, Copy)]
pub struct SystemFiles<'a, F> {
    files: &'a F,
}

impl<'a, F> SystemFiles<'a, F> {
    /// The files of this system.
    pub fn new(files: &'a F) -> SystemFiles<'a, F> {
        SystemFiles { files }
    }
}

impl<F: Files> Opener for SystemFiles<'_, F> {
    type File = F::File;

    ghost use Rattle.std.specs.Prelude.{⊤};

    ghost opened = { λ _ _. ⊤ };

    ghost unopened = { λ _. ⊤ };

    fn open(&self, path: &str) -> Result<F::File> {
        let path = if path == DASH { STANDARD_INPUT } else { path };
        File::open(self.files, path)
    }
}
