// What an operator looks at and changes.
ghost use Rattle.std.specs.Prelude.{◌≡◌};
ghost use Rattle.operator_serving.specs.Desk.Deed.{Reported, SetTo, Begun, Drained, DrainedAfter};
ghost use Rattle.operator_serving.specs.Desk.Sight.{Notes, Accepts};

use gate_port::Report;
use partitions::PartitionTable;
use serve_reports::GatewayStats;

/// Why a limit stays as it is.
#[derive(Clone, Copy)]
pub enum ChangeFault {
    /// A limit of this kind isn't set by hand.
    NotSettable,
    /// The number is below the least limit or above the greatest one.
    OutOfRange,
    /// The history is exhausted.
    Exhausted,
}

/// Where an operator looks at a gateway that serves, and changes it.
pub trait Desk {
    ghost use Rattle.std.specs.Prelude.{List};
    ghost use Rattle.partitions.specs.Table.{Row};
    ghost use Rattle.operator_serving.specs.Desk.{Deed, Sight};

    // The classes, with their shares.
    ghost rows: { Self → List Row };

    // What is seen at it.
    ghost shows: { Self → Sight → Type 0 };

    // What is done at it, before and after.
    ghost does: { Self → Self → Deed → Type 0 };

    /// The classes of callers.
    fn table(&self) -> &PartitionTable
        ensures { result.now ≡ rows self.now };

    /// The state of the gate, as whatever was done at the desk before left it, or what others did
    /// since.
    fn report(&mut self) -> Report
        ensures { does self.old self.new (Reported result) };

    /// What was noted of exchanges and troubles.
    fn noted(&self) -> GatewayStats
        ensures { shows self.now (Notes result) };

    /// Whether clients are accepted for good: nobody has drained the gateway, or is to.
    fn is_accepting(&self) -> bool
        ensures { shows self.now (Accepts result) };

    /// Sets the limit to so many permits, where its kind is set by hand and the number is in its
    /// range.
    fn set_limit(&mut self, n: u32) -> Result<(), ChangeFault>
        ensures { does self.old self.new (SetTo n result) };

    /// Lets the algorithm of the limit begin anew. Its one fault is `Exhausted`.
    fn reset(&mut self) -> Result<(), ChangeFault>
        ensures { does self.old self.new (Begun result) };

    /// Lets no further client come. Those inside are served.
    fn drain(&mut self)
        ensures { does self.old self.new Drained };

    /// The same after so many milliseconds, or at once where somebody drains the gateway before.
    /// Until then clients come, though it is told that they aren't accepted any more.
    fn drain_after(&mut self, delay_ms: u32)
        ensures { does self.old self.new (DrainedAfter delay_ms) };
}
