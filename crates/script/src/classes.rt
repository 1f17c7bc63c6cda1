// The parts of classes by their names.
ghost use Rattle.std.specs.Prelude.{◌≡◌, ok_or};
ghost use Rattle.script.specs.declared.fault_kind.FaultKind.TheVariants.{Class};
ghost use Rattle.script.specs.Classes.{part_of};

use super::fault_kind::FaultKind;
use super::words::is_word;
use partitions::{Part, PartitionTable};

/// The part of a class: `unknown`, or a name of the table; [`FaultKind::Class`] where it has none.
pub fn read_part(table: &PartitionTable, class: &[u8]) -> Result<Part, FaultKind>
    ensures { result ≡ ok_or (part_of table.now class.now) Class }
{
    if is_word(class, "unknown") {
        return Ok(Part::Unknown);
    }
    table.find(class).ok_or(FaultKind::Class)
}
