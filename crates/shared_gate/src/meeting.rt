// What passes of a gate let each other know.
ghost use Rattle.std.specs.Prelude.{◌≡◌, ◌≤◌, ◌⊎◌, All};
ghost use mathlib.Core.List.{IsPrefix};
ghost use Rattle.shared_gate.specs.Calls.{seen_by};

use crate::gate::SharedGate;
use crate::naming::GateNaming;
use crate::pass::Pass;
use limit_laws::Limit;

impl<L: Limit, M: GateNaming> SharedGate<L, M> {
    /// Lets a pass know what another knows: the longer of the two beginnings of the log, which the
    /// other begins. Its receipts from here on have greater numbers than those that the other got
    /// before. It takes no lock.
    pub fn told(&self, pass: &mut Pass<M>, other: &mut Pass<M>)
        ensures told { IsPrefix other.old.log pass.new.log }
        ensures kept { IsPrefix pass.old.log pass.new.log }
        ensures one { (pass.new.log ≡ pass.old.log) ⊎ (pass.new.log ≡ other.old.log) }
        ensures seen { seen_by other.old ≤ seen_by pass.new }
        ensures unseen { seen_by pass.old ≤ seen_by pass.new }
        ensures count { pass.new.count ≡ pass.old.count }
        ensures calls { pass.new.own ≡ pass.old.own }
        ensures other { other.new ≡ other.old }
    {
        self.word.tell(&mut pass.reader, &mut other.reader);
        pass.seen = pass.seen.max(other.seen);
    }

    /// Lets a pass know what all these know: what it knows then is one log, which is legal and
    /// begins with what each of them knows. It takes no lock.
    pub fn gather(&self, pass: &mut Pass<M>, others: &mut Vec<Pass<M>>)
        ensures own { IsPrefix pass.old.log pass.new.log }
        ensures all { All (λ other. IsPrefix other.log pass.new.log) others.old.items }
        ensures legal { M.legal pass.new.log }
        ensures count { pass.new.count ≡ pass.old.count }
        ensures calls { pass.new.own ≡ pass.old.own }
        ensures same { others.new.items ≡ others.old.items }
    {
        for other in others.iter_mut() {
            self.told(pass, other);
        }
        pass.legal();
    }
}
