// The line of a configuration that is accepted.
ghost use Rattle.std.specs.Prelude.{◌≡◌, true, OnErr, OnOk};
ghost use Rattle.counted_io.specs.Counted.{failures_of, is_flushed};
ghost use Rattle.counted_io.specs.Effects.{Wrote};
ghost use Rattle.counted_io.specs.Causes.{IsWriteCause};
ghost use Rattle.config_check.specs.Accepted.{accepted_line};

use counted_io::{Counted, WriteFault};
use fault_lines::write_line;
use gateway_settings::Settings;
use itoa::Buffer;
use limit_laws::Limit;
use std::io::Write;

/// Writes the line of settings, with these pieces at its end.
macro_rules! write_settings {
    ($writer:ident, $settings:ident $(, $more:expr)*) => {{
        let mut initial = Buffer::new();
        let mut classes = Buffer::new();
        let mut resolvers = Buffer::new();
        let mut bypass = Buffer::new();
        let mut backlog = Buffer::new();
        let pieces = [
            "ok ",
            $settings.limit.kind().word(),
            " ",
            initial.format($settings.limit.limit()),
            " classes ",
            classes.format($settings.table.len()),
            " resolvers ",
            resolvers.format($settings.rules.resolvers().len()),
            " bypass ",
            bypass.format($settings.rules.bypass().len()),
            " backlog ",
            backlog.format($settings.backlog),
            $($more,)*
        ];
        write_line($writer, &pieces)
    }};
}

/// Writes the line of settings, and flushes. It takes no memory.
pub(crate) fn write_accepted<W: Write>(
    writer: &mut Counted<W>,
    settings: &Settings,
) -> Result<(), WriteFault>
    ensures all { OnOk result
        (Wrote W.contents writer.old writer.new (accepted_line settings.now)) }
    ensures unfailing { OnOk result (failures_of writer.new ≡ failures_of writer.old) }
    ensures flushed { OnOk result (is_flushed writer.new ≡ true) }
    ensures failed { OnErr result (IsWriteCause writer.old writer.new) }
{
    let Some(n) = settings.exchanges else {
        return write_settings!(writer, settings);
    };
    let mut exchanges = Buffer::new();
    let mut greatest = Buffer::new();
    write_settings!(
        writer,
        settings,
        " exchanges ",
        exchanges.format(n),
        " max ",
        greatest.format(settings.limit.hi())
    )
}
