// Where permits are asked for and ended.
ghost use Rattle.std.specs.Prelude.{◌≡◌};
ghost use Rattle.gate_port.specs.Asking.{Admits};
ghost use Rattle.gate_port.specs.Ending.{Ends};
ghost use Rattle.gate_port.specs.Log.{AdmitsIn, EndsIn, IsLate};

use limiter_core::Outcome;
use partitions::Part;

/// Why nobody was let through.
#[derive(Clone, Copy, PartialEq, Eq)]
pub enum Why {
    /// There was no room, and it didn't wait.
    Full,
    /// There was no room, and no more of its partition may wait.
    BacklogFull,
    /// It waited, and got no permit.
    TimedOut,
    /// It waited, and then its number neither waited nor lay granted, or its giving up wasn't
    /// answered, since the history was exhausted.
    Lost,
    /// The history is exhausted.
    Exhausted,
}

/// What a port answers.
pub enum Admission<P> {
    /// A permit was got. It must be ended.
    Admitted(P),
    /// It is neither limited nor counted.
    Bypassed,
    /// Nothing was got.
    Refused(Why),
}

/// A place where permits are asked for and ended. It may show its history's entries; one whose gate
/// others ask too may tell what it knows of the gate's log. Every moment is in nanoseconds; one
/// above 2^62 is taken as 2^62.
pub trait GatePort {
    /// The right to be in flight. It must be ended.
    type Permit;

    /// What is told of an ending.
    type Receipt: Drop;

    ghost use Rattle.std.specs.Prelude.{Option};
    ghost use Rattle.limiter_core.specs.declared.event.PermitFacts.{PermitFacts};
    ghost use Rattle.gate_port.specs.Log.{Known};
    ghost use Rattle.gate_port.specs.Shown.{Shown};

    /// The entries, where they are shown.
    ghost shown: { Self → Option Shown };

    /// What it knows of the gate, where it knows the beginning of its log.
    ghost known: { Self → Option Known };

    /// The facts of a permit.
    ghost facts: { Self.Permit → PermitFacts };

    /// Asks for a permit. With a deadline it waits for one where there is no room, until then;
    /// with `bypass` it is let through without one, and never waits. A port that shows its entries
    /// answers `Exhausted` just where they were exhausted before; one that knows a log only where
    /// that is exhausted, and `TimedOut` only once its clock has reached the deadline.
    fn admit(
        &mut self,
        part: Part,
        bypass: bool,
        deadline: Option<u64>,
        now: u64,
    ) -> Admission<Self::Permit>
        ensures entries { Admits part bypass deadline now (shown self.old) (shown self.new) facts
            result }
        ensures log { AdmitsIn part bypass deadline now (known self.old) (known self.new) facts
            result }
        ensures late { IsLate deadline (known self.new) result };

    /// The moment at which a permit started: that of its asking, or where its caller waited that of
    /// the ending which promoted it.
    fn start(permit: &Self::Permit) -> u64
        ensures { result ≡ (facts permit.now).start };

    /// Ends a permit with an outcome.
    fn end(&mut self, permit: Self::Permit, outcome: Outcome, now: u64) -> Self::Receipt
        ensures entries { Ends (facts permit) outcome now (shown self.old) (shown self.new) }
        ensures log { EndsIn (facts permit) outcome now (known self.old) (known self.new) };
}
