// The settings to serve by, from a configuration's file.
ghost use Rattle.std.specs.Prelude.{◌≡◌, IfErr, IfOk};
ghost use Rattle.counted_io.specs.declared.counted.Counted.{Counted as CountedValue};
ghost use Rattle.counted_io.specs.Counted.{failures_of, inner_of};
ghost use Rattle.gateway_settings.specs.Settings.{AreSound};
ghost use Rattle.config_file.specs.Reading.{Held, IsUnreadFile};
ghost use Rattle.serve_command.specs.Command.{AreToServe, IsOfSettings};

use crate::descriptors::check_descriptors;
use crate::fault::ServiceFault;
use crate::startup_lines::{log_odd_routes, log_unread};
use commands::ServeOptions;
use config_file::{FileFault, Opener, read_bytes, read_file_text};
use gateway_settings::Settings;
use log::Log;
use std::alloc::Global;

/// Reads the configuration's file, and gives the settings that its gateway serves by. The log has
/// why the file can't be read, and each of its routes that doesn't match what it seems to.
pub(crate) fn read_settings<R: Log, F: Opener>(
    rt: &R,
    files: &F,
    alloc: Global,
    service: &ServeOptions<'_>,
) -> Result<Settings, ServiceFault>
    ensures read { IfOk result (AreToServe (F.opened service.now.path.now) F.File.remaining
        service.now.exchanges) }
    ensures sound { IfOk result AreSound }
    ensures refused { IfErr result (IsOfSettings (F.unopened service.now.path.now)
        (F.opened service.now.path.now) F.File.remaining service.now.exchanges) }
{
    let text = read_config(rt, files, alloc, service.path)?;
    let read = read_bytes(alloc, &text)?;
    let settings = read.by_exchanges(service.exchanges)?;
    check_descriptors(files, alloc, &settings)?;
    log_odd_routes(rt, alloc, &settings, &text);
    Ok(settings)
}

/// The text of the configuration in the file that is opened at a path. Where it isn't had, the log
/// has why.
fn read_config<R: Log, F: Opener>(
    rt: &R,
    files: &F,
    alloc: Global,
    path: &str,
) -> Result<Vec<u8>, FileFault>
    ensures text { IfOk result (λ text. (before : CountedValue F.File)
        × (after : CountedValue F.File) × F.opened path.now (inner_of before)
        × Held F.File.remaining before text.items
        × (failures_of after ≡ failures_of before)) }
    ensures refused { IfErr result
        (IsUnreadFile (F.unopened path.now) (F.opened path.now) F.File.remaining) }
{
    match read_file_text(files, alloc, path) {
        Ok(text) => Ok(text),
        Err(unread) => {
            let fault = unread.into_fault();
            log_fault(rt, files, alloc, path, &fault);
            Err(fault)
        }
    }
}

/// Where the file couldn't be read, the log has the path and the system's reason.
fn log_fault<R: Log, F: Opener>(rt: &R, files: &F, alloc: Global, path: &str, fault: &FileFault) {
    if let FileFault::Read = fault {
        log_unread(rt, files, alloc, path);
    }
}
