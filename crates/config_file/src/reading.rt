// A configuration, read.
ghost use Rattle.std.specs.Prelude.{◌≡◌, ◌≤◌, ◌+◌, Ok, IfErr, IfOk, OnOk};
ghost use Rattle.counted_io.specs.declared.counted.Counted.{Counted as CountedValue};
ghost use Rattle.counted_io.specs.Causes.{HasRead};
ghost use Rattle.counted_io.specs.Counted.{calls_of, failures_of, inner_of};
ghost use Rattle.gateway_settings.specs.Settings.{AreSound};
ghost use Rattle.config_file.specs.Reading.{Held, IsFaultOf, IsUnread, IsWhyUnread, Says, most_reads};

use super::file_fault::FileFault;
use crate::opening::Opener;
use crate::unread_file::UnreadFile;
use counted_io::{Counted, read_all};
use gate_config::read;
use gateway_settings::Settings;
use std::alloc::Global;
use std::io::Read;

/// The most bytes of a configuration: 1 MiB.
const MOST_CONFIG: usize = 1_048_576;

/// The most reads that it may take: 2^25.
const MOST_READS: u64 = 33_554_432;

/// The text of the configuration in the file that is opened at a path: at most 1 MiB, in at most
/// 2^25 reads.
///
/// A file that can't be opened or read, isn't at its end after so many reads, or has more is
/// told as one that can't be read; else the fault is that of running out of memory. Where it was
/// opened, its reader is told too, and shows by its counts what was met.
pub fn read_file_text<F: Opener>(
    files: &F,
    alloc: Global,
    path: &str,
) -> Result<Vec<u8>, UnreadFile<F::File>>
    ensures text { IfOk result (λ text. (before : CountedValue F.File)
        × (after : CountedValue F.File) × F.opened path.now (inner_of before)
        × Held F.File.remaining before text.items
        × (failures_of after ≡ failures_of before)) }
    ensures refused { IfErr result
        (IsWhyUnread (F.unopened path.now) (F.opened path.now) F.File.remaining) }
{
    match files.open(path) {
        Ok(file) => {
            let mut reader = Counted::new(file);
            match read_text(alloc, &mut reader) {
                Ok(text) => Ok(text),
                Err(fault) => Err(UnreadFile::Unread(reader, fault)),
            }
        }
        Err(_) => Err(UnreadFile::Unopened),
    }
}

/// The text that a reader gives up to its end, at most 1 MiB in at most 2^25 reads.
///
/// A reader that fails, isn't at its end after so many reads, or has more is reported as one that
/// can't be read; else the fault is that of running out of memory.
pub fn read_text<R: Read>(alloc: Global, reader: &mut Counted<R>) -> Result<Vec<u8>, FileFault>
    ensures text { IfOk result (λ text. Held R.remaining reader.old text.items) }
    ensures unfailing { OnOk result (failures_of reader.new ≡ failures_of reader.old) }
    ensures refused { IfErr result (IsUnread R.remaining reader.old reader.new) }
    ensures few { calls_of reader.new ≤ calls_of reader.old + most_reads }
    ensures reads { HasRead reader.old reader.new }
{
    Ok(read_all(alloc, reader, MOST_CONFIG, MOST_READS)?)
}

/// The settings that bytes hold, or the first fault of the bytes; out of memory may hide it.
pub fn read_bytes(alloc: Global, bytes: &[u8]) -> Result<Settings, FileFault>
    ensures settings { IfOk result (λ settings. Says bytes.now (Ok settings)) }
    ensures sound { IfOk result AreSound }
    ensures refused { IfErr result (IsFaultOf bytes.now) }
{
    Ok(read(alloc, bytes)?)
}
