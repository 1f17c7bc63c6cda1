// Where the bytes of bodies are counted.
ghost use Rattle.std.specs.Prelude.{◌≡◌, ℕ, OnErr, OnOk};
ghost use Rattle.counted_io.specs.Count.{raised};
ghost use Rattle.body_memory.specs.Memory.{emptied, more};

use std::alloc::Global;

/// Why bytes of a body may not be held.
#[derive(Clone, Copy, Drop)]
pub enum BodiesFull {
    /// Fewer bytes were free than asked for: so many.
    Full(u64),
    /// What is held changed at each of 2^32 - 1 tries.
    Contended,
}

/// Where the bytes of bodies are counted that lie in memory of its allocator. A reader holds each
/// piece as soon as it has it, and drops a piece that is refused.
pub trait BodyMemory {
    ghost use Rattle.std.specs.Prelude.{Option};

    // How many bytes are held, where that is counted.
    ghost held: { Self → Option ℕ };

    // How often it refused some; the count stays at `u64::MAX`.
    ghost refused: { Self → ℕ };

    /// The allocator of what is held.
    fn alloc(&self) -> Global;

    /// Holds so many bytes more, or none where it refuses them.
    fn hold(&mut self, bytes: usize) -> Result<(), BodiesFull>
        ensures held { OnOk result (held self.new ≡ more bytes (held self.old)) }
        ensures accepted { OnOk result (refused self.new ≡ refused self.old) }
        ensures unheld { OnErr result (held self.new ≡ held self.old) }
        ensures refused { OnErr result (refused self.new ≡ raised (refused self.old)) };

    /// Gives back all that is held.
    fn release(&mut self)
        ensures held { held self.new ≡ emptied (held self.old) }
        ensures refused { refused self.new ≡ refused self.old };
}

impl BodyMemory for Global {
    ghost use Rattle.std.specs.Prelude.{None};

    ghost held = { λ _. None };

    ghost refused = { λ _. 0 };

    fn alloc(&self) -> Global {
        *self
    }

    /// There is no bound.
    fn hold(&mut self, bytes: usize) -> Result<(), BodiesFull>
        ensures never { result ≡ Ok tt }
    {
        let _ = bytes;
        Ok(())
    }

    fn release(&mut self) {}
}
