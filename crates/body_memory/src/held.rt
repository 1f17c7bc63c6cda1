// What one holds of the bytes that all share.
ghost use Rattle.std.specs.Prelude.{◌≡◌, ◌≤◌, ◌<◌, ◌+◌, ℕ, [], Some, None, Ok, Err, option_map};
ghost use Rattle.std.specs.Prelude.{IfNone, IfSome, OnErr, OnOk};
ghost use Rattle.counted_io.specs.Count.{raised};
ghost use Rattle.body_memory.specs.declared.memory.BodiesFull.TheVariants.{Full};
ghost use Rattle.body_memory.specs.Memory.{emptied, more};
ghost use Rattle.body_memory.specs.Bodies.{bound_of, held_of};

use crate::memory::{BodiesFull, BodyMemory};
use crate::shared::{Seat, SharedBodies};
use std::alloc::Global;
use std::marker::Model;

/// How often bytes are tried to be held while others change what is held.
const MOST_TRIES: u32 = u32::MAX;

// A part of the bytes that all share.
struct Part<'a> {
    shared: &'a SharedBodies,
    seat: Seat,
    held: u64,
}

impl<'a> Model for Part<'a> {
    ghost use Rattle.std.specs.Prelude.{◌≡◌, ◌≤◌, ℕ, []};
    ghost use Rattle.body_memory.specs.Rule.{holding};

    ghost Value = { ℕ × ℕ };

    ghost view = { λ p. (p.held, p.shared.now.bound) };

    ghost invariant = { λ p. (p.seat.table_id ≡ p.shared.now.table)
        × (p.seat.me ≡ (holding p.held, [])) × (p.held ≤ p.shared.now.bound) };
}

impl<'a> Part<'a> {
    // None of these bytes.
    fn of(shared: &'a SharedBodies) -> Part<'a>
        ensures { result ≡ (0, shared.now.bound) }
    {
        Part {
            shared,
            seat: shared.seat(),
            held: 0,
        }
    }

    // One try to hold so many bytes more. Fewer may be free, or what is held changed meanwhile, and
    // then it is tried again.
    fn try_hold(&mut self, bytes: u64) -> Option<Result<(), BodiesFull>>
        ensures held { IfSome result (λ tried. OnOk tried
            (self.new ≡ (self.old.0 + bytes, self.old.1))) }
        ensures within { IfSome result (λ tried. OnOk tried (self.new.0 ≤ self.new.1)) }
        ensures unheld { IfSome result (λ tried. OnErr tried (self.new ≡ self.old)) }
        ensures again { IfNone result (self.new ≡ self.old) }
        ensures full { (free : ℕ) → result ≡ Some (Err (Full free)) → free < bytes }
    {
        let shared = self.shared;
        let all = shared.look(&mut self.seat);
        let free = shared.bound().saturating_sub(all);
        if free < bytes {
            return Some(Err(BodiesFull::Full(free)));
        }
        if bytes == 0 {
            return Some(Ok(()));
        }
        if shared.raise(&mut self.seat, all, all + bytes) {
            self.held += bytes;
            return Some(Ok(()));
        }
        None
    }

    // So many bytes more, or none where fewer are free, or what is held changes at each try.
    fn hold(&mut self, bytes: u64) -> Result<(), BodiesFull>
        ensures held { OnOk result (self.new ≡ (self.old.0 + bytes, self.old.1)) }
        ensures within { OnOk result (self.new.0 ≤ self.new.1) }
        ensures unheld { OnErr result (self.new ≡ self.old) }
        ensures full { (free : ℕ) → result ≡ Err (Full free) → free < bytes }
    {
        for _ in 0..MOST_TRIES {
            if let Some(tried) = self.try_hold(bytes) {
                return tried;
            }
        }
        Err(BodiesFull::Contended)
    }

    // Gives all of them back.
    fn empty(&mut self)
        ensures { self.new ≡ (0, self.old.1) }
    {
        if self.held == 0 {
            return;
        }
        self.shared.empty(&mut self.seat, self.held);
        self.held = 0;
    }
}

impl<'a> Drop for Part<'a> {
    fn drop(mut self) {
        self.empty();
        let Self {
            shared: _,
            seat: _,
            held: _,
        } = self;
    }
}

/// What one holds of the bytes that all share, where there is a bound. It gives them back where it
/// is told to, and at its end.
#[derive(Drop)]
pub struct HeldBodies<'a> {
    alloc: Global,
    part: Option<Part<'a>>,
    refused: u64,
}

impl<'a> Model for HeldBodies<'a> {
    ghost use Rattle.body_memory.specs.Bodies.{Held};

    ghost Value = { Held };

    ghost view = { λ h. record { part = h.part; refused = h.refused } };

    ghost invariant = { λ h. Unit {0} };
}

impl<'a> HeldBodies<'a> {
    /// None of the bytes that are shared; where none are, there is no bound.
    pub fn new(alloc: Global, shared: Option<&'a SharedBodies>) -> HeldBodies<'a>
        ensures none { held_of result ≡ option_map (λ s. 0) shared.entry }
        ensures bound { bound_of result ≡ option_map (λ s. s.now.bound) shared.entry }
        ensures unrefused { result.refused ≡ 0 }
    {
        let part = match shared {
            Some(shared) => Some(Part::of(shared)),
            None => None,
        };
        HeldBodies {
            alloc,
            part,
            refused: 0,
        }
    }
}

impl<'a> BodyMemory for HeldBodies<'a> {
    ghost use Rattle.body_memory.specs.Bodies.{held_of};

    ghost held = { held_of };

    ghost refused = { λ h. h.refused };

    fn alloc(&self) -> Global {
        self.alloc
    }

    /// Nothing is refused without a bound; and `Full` comes only where fewer bytes were free than
    /// asked for, of all that are shared.
    fn hold(&mut self, bytes: usize) -> Result<(), BodiesFull>
        ensures held { OnOk result (held_of self.new ≡ more bytes (held_of self.old)) }
        ensures accepted { OnOk result (self.new.refused ≡ self.old.refused) }
        ensures unheld { OnErr result (held_of self.new ≡ held_of self.old) }
        ensures refused { OnErr result (self.new.refused ≡ raised self.old.refused) }
        ensures bound { bound_of self.new ≡ bound_of self.old }
        ensures within { OnOk result (IfSome self.new.part (λ part. part.0 ≤ part.1)) }
        ensures unbounded { self.old.part ≡ None → result ≡ Ok tt }
        ensures full { (free : ℕ) → result ≡ Err (Full free) → free < bytes }
    {
        let Some(part) = &mut self.part else {
            return Ok(());
        };
        let held = part.hold(bytes as u64);
        if held.is_err() {
            self.refused = self.refused.saturating_add(1);
        }
        held
    }

    fn release(&mut self)
        ensures held { held_of self.new ≡ emptied (held_of self.old) }
        ensures refused { self.new.refused ≡ self.old.refused }
        ensures bound { bound_of self.new ≡ bound_of self.old }
    {
        if let Some(part) = &mut self.part {
            part.empty();
        }
    }
}
