// How a line of the log begins that systemd's journal keeps.
ghost use Rattle.std.specs.Prelude.{◌≡◌};
ghost use Rattle.serve_command.specs.Priority.{priority};

use log::Level;

/// What sd-daemon(3) writes before a line of this level: `<3>` is an error, `<4>` a warning, `<6>`
/// informational, and `<7>` for whoever looks for a fault.
pub(crate) fn priority(level: Level) -> &'static str
    ensures { result.now ≡ priority level }
{
    match level {
        Level::Error => "<3>",
        Level::Warn => "<4>",
        Level::Info => "<6>",
        Level::Debug | Level::Trace => "<7>",
    }
}
