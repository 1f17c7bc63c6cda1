// Tokens of a bound listener.
ghost use Rattle.std.specs.Prelude.{◌≡◌, IfSome, is_some, true};
ghost use Rattle.client_tokens.specs.Roll.{Comes, Goes, Joins, nobody};
ghost use Rattle.client_tokens.specs.Tokens.{roll_by, roll_on, unseen};

use std::os::fd::RawFd;
use std::sync::{Mutex, Wait};

/// The right to be given clients by a bound listener. It counts who was given by it and left.
#[derive(Drop)]
pub struct BoundToken {
    // The listener's file; none gives nobody.
    file: Option<RawFd>,
    // None where there were more than can be counted.
    met: Option<Met>,
}

/// How many clients were given, and how many were left.
#[derive(Clone, Copy)]
struct Met {
    came: u64,
    left: u64,
}

impl BoundToken {
    // Nobody was given by it yet.
    fn new(file: Option<RawFd>) -> BoundToken
        ensures { IfSome (roll_on result) (λ rolled. rolled ≡ nobody) }
    {
        BoundToken {
            file,
            met: Some(Met { came: 0, left: 0 }),
        }
    }

    /// Returns whether it is a token of the listener with this file, which gives clients by it.
    pub fn is_of(&self, file: RawFd) -> bool {
        match self.file {
            Some(own) => own == file,
            None => false,
        }
    }

    /// Counts one client more that was given.
    pub fn raise_came(&mut self)
        ensures { Comes (roll_on self.old) (roll_on self.new) unseen }
    {
        self.met = one_came(self.met);
    }

    /// Counts one client more that was left.
    pub fn raise_left(&mut self)
        ensures { Goes (roll_on self.old) (roll_on self.new) unseen }
    {
        self.met = one_left(self.met);
    }

    // Whether as many were left as were given, where they could be counted.
    fn is_balanced(&self) -> bool
        ensures { result ≡ true → is_some (roll_on self.now) ≡ true }
    {
        match self.met {
            Some(met) => met.came == met.left,
            None => false,
        }
    }

    // Those of another one come behind its own, where both are of the same listener.
    fn add(&mut self, other: BoundToken)
        ensures { Joins (roll_on self.old) (roll_on other) (roll_on self.new) }
    {
        let is_twin = match other.file {
            Some(file) => self.is_of(file),
            None => false,
        };
        self.met = if is_twin {
            both_met(self.met, other.met)
        } else {
            None
        };
    }
}

/// One client more was given.
#[tactic(auto, using(crate::proofs::Counted::counted))]
fn one_came(met: Option<Met>) -> Option<Met>
    ensures { Comes (roll_by met) (roll_by result) unseen }
{
    let Met { came, left } = met?;
    let came = came.checked_add(1)?;
    Some(Met { came, left })
}

/// One client more was left.
#[tactic(auto, using(crate::proofs::Counted::counted))]
fn one_left(met: Option<Met>) -> Option<Met>
    ensures { Goes (roll_by met) (roll_by result) unseen }
{
    let Met { came, left } = met?;
    let left = left.checked_add(1)?;
    Some(Met { came, left })
}

/// Those of both.
#[tactic(auto, using(crate::proofs::Counted::counted))]
fn both_met(first: Option<Met>, second: Option<Met>) -> Option<Met>
    ensures { Joins (roll_by first) (roll_by second) (roll_by result) }
{
    let (first, second) = (first?, second?);
    let came = first.came.checked_add(second.came)?;
    let left = first.left.checked_add(second.left)?;
    Some(Met { came, left })
}

/// The tokens of a bound listener that are out: how many, or none once the listener told who was
/// given in all.
#[derive(Drop)]
pub struct TokensOut {
    count: Mutex<Option<u64>>,
}

impl TokensOut {
    /// Returns the state of a new listener: no token is out.
    pub fn new() -> TokensOut {
        TokensOut {
            count: Mutex::new(Some(0)),
        }
    }

    /// Returns one more token of the listener with this file, by which nobody was given yet. Once
    /// the listener told who was given in all, nobody is given by it.
    pub fn give(&self, rt: &impl Wait, file: RawFd) -> BoundToken
        ensures { IfSome (roll_on result) (λ rolled. rolled ≡ nobody) }
    {
        let is_counted = self.raise(rt);
        BoundToken::new(is_counted.then_some(file))
    }

    // One more is out, where it isn't told yet who was given in all; whether that is so.
    fn raise(&self, rt: &impl Wait) -> bool {
        let mut count = self.count.lock(rt);
        let Some(out) = *count else {
            return false;
        };
        *count = Some(out.saturating_add(1));
        true
    }

    /// Puts one into another: one less is out.
    pub fn join(&self, rt: &impl Wait, token: &mut BoundToken, other: BoundToken)
        ensures { Joins (roll_on token.old) (roll_on other) (roll_on token.new) }
    {
        token.add(other);
        let mut count = self.count.lock(rt);
        if let Some(out) = *count {
            *count = Some(out.saturating_sub(1));
        }
    }

    /// Returns whether this token of the listener with this file is the only one that is out, and
    /// as many clients were left by it as were given. If so, nobody is given by any token from then
    /// on.
    pub fn close(&self, rt: &impl Wait, file: RawFd, all: &BoundToken) -> bool
        ensures { result ≡ true → is_some (roll_on all.now) ≡ true }
    {
        let mut count = self.count.lock(rt);
        let is_all = *count == Some(1) && all.is_of(file) && all.is_balanced();
        if is_all {
            *count = None;
        }
        is_all
    }
}
