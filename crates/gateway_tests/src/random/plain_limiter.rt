// A limiter over plain lists: each number is counted where it is asked for, by the words of the
// rule, and nothing is shared with the limiter that it is compared with.
use limit_laws::SetFault;
use limiter_core::{Entry, Event, Outcome, PermitFacts, Promotion, Reply};
use partitions::Part;
use std::alloc::Global;
use std::process::Abort;

/// How many may wait.
pub(crate) const ROOM: u32 = 3;

/// The last moment, and an hour, in nanoseconds.
const LAST: u64 = 1 << 62;

const HOUR: u64 = 3_600_000_000_000;

/// Who waits.
#[derive(Clone, Copy)]
pub(crate) struct Waiter {
    pub(crate) number: u64,
    pub(crate) part: Part,
}

/// All that came, and the state after it.
#[derive(Drop)]
pub(crate) struct PlainLimiter {
    promotes_all: bool,
    /// The limit: 1 to 6, at first 3; a round trip above 20,000 ns is a drop.
    pub(crate) limit: u32,
    pub(crate) entries: Vec<Entry>,
    /// The permits that somebody has.
    pub(crate) open: Vec<PermitFacts>,
    /// The permits that are granted, in rising order of number.
    pub(crate) granted: Vec<PermitFacts>,
    /// Who waits, the newest last.
    pub(crate) waiting: Vec<Waiter>,
    /// The promotions of the last event.
    pub(crate) promotions: Vec<Promotion>,
}

impl PlainLimiter {
    pub(crate) fn new(alloc: Global, promotes_all: bool) -> PlainLimiter {
        PlainLimiter {
            promotes_all,
            limit: 3,
            entries: Vec::new(alloc),
            open: Vec::new(alloc),
            granted: Vec::new(alloc),
            waiting: Vec::new(alloc),
            promotions: Vec::new(alloc),
        }
    }

    pub(crate) fn next_number(&self) -> u64 {
        self.entries.len() as u64
    }

    /// How many permits aren't ended.
    pub(crate) fn total(&self) -> u32 {
        few(self.open.len()).saturating_add(few(self.granted.len()))
    }

    /// How many permits of a part aren't ended.
    pub(crate) fn inflight(&self, part: Part) -> u32 {
        few(count_of(&self.open, part)).saturating_add(few(count_of(&self.granted, part)))
    }

    /// The permit of a number that is granted.
    pub(crate) fn granted_permit(&self, number: u64) -> Option<PermitFacts> {
        self.granted
            .iter()
            .copied()
            .find(|permit| permit.number == number)
    }

    pub(crate) fn is_waiting(&self, number: u64) -> bool {
        self.waiting.iter().any(|waiter| waiter.number == number)
    }

    fn share(&self, part: Part) -> u32 {
        let thousandths = match part {
            Part::Known(0) => 500,
            Part::Known(1) => 300,
            Part::Known(2) => 100,
            _ => return 0,
        };
        self.limit.saturating_mul(thousandths).div_ceil(1000).max(1)
    }

    fn has_room(&self, part: Part) -> bool {
        self.total() < self.limit || self.inflight(part) < self.share(part)
    }

    /// What is answered, and the state then.
    pub(crate) fn answer<R: Abort>(&mut self, rt: &R, event: Event) -> Reply {
        self.promotions.clear();
        let reply = self.reply_to(rt, event);
        let call = Entry::Call { event, reply };
        self.entries.push(call).expect(rt, "memory for an entry");
        for promotion in &self.promotions {
            let entry = Entry::Promotion {
                waiter: promotion.waiter,
                part: promotion.part,
                start: promotion.start,
                inflight: promotion.inflight,
            };
            self.entries.push(entry).expect(rt, "memory for an entry");
        }
        reply
    }

    fn reply_to<R: Abort>(&mut self, rt: &R, event: Event) -> Reply {
        match event {
            Event::Acquire {
                part,
                bypass,
                wait,
                now,
            } => self.acquire(rt, part, bypass, wait, now),
            Event::End {
                permit,
                outcome,
                now,
            } => self.end(rt, permit, outcome, now),
            Event::Claim { number } => self.hand_out(rt, number, false),
            Event::GiveUp { number } => self.hand_out(rt, number, true),
            Event::SetLimit { .. } => Reply::Refused(SetFault::NotSettable),
            Event::Reset { now } => self.reset(rt, now),
            Event::Look { part } => self.look(part),
        }
    }

    fn acquire<R: Abort>(
        &mut self,
        rt: &R,
        part: Part,
        bypass: bool,
        wait: bool,
        now: u64,
    ) -> Reply {
        let number = self.next_number();
        if bypass {
            return Reply::Bypassed;
        }
        if self.has_room(part) {
            let inflight = self.total().saturating_add(1);
            put(rt, &mut self.open, permit_of(number, part, now, inflight));
            return Reply::Admitted { inflight };
        }
        if !wait {
            return Reply::Full;
        }
        if few(self.waiting.len()) >= ROOM {
            return Reply::BacklogFull;
        }
        let waiter = Waiter { number, part };
        self.waiting.push(waiter).expect(rt, "memory for who waits");
        Reply::Waiting
    }

    /// The sample is learnt before anybody who waits is looked at.
    fn end<R: Abort>(&mut self, rt: &R, permit: PermitFacts, outcome: Outcome, now: u64) -> Reply {
        self.open.retain(|open| open.number != permit.number);
        match outcome {
            Outcome::Success => self.learn(permit, now, false),
            Outcome::Ignored => {}
            Outcome::Dropped => self.learn(permit, now, true),
        }
        self.promote(rt, now);
        Reply::Ended {
            promoted: few(self.promotions.len()),
        }
    }

    /// One more where at least half of the limit was in use, nine tenths after a drop.
    fn learn(&mut self, permit: PermitFacts, now: u64, is_dropped: bool) {
        let trip = now.min(LAST).saturating_sub(permit.start).max(1).min(HOUR);
        let wanted = if is_dropped || trip > 20_000 {
            self.limit.saturating_mul(9) / 10
        } else if permit.inflight.saturating_mul(2) >= self.limit {
            self.limit.saturating_add(1)
        } else {
            self.limit
        };
        self.limit = wanted.max(1).min(6);
    }

    /// The limit is the first one again; who waits gets the room of it where all are promoted.
    fn reset<R: Abort>(&mut self, rt: &R, now: u64) -> Reply {
        self.limit = 3;
        if self.promotes_all {
            self.promote(rt, now);
        }
        Reply::ResetDone
    }

    fn promote<R: Abort>(&mut self, rt: &R, now: u64) {
        let turns = if self.promotes_all { ROOM } else { 1 };
        for _ in 0..turns {
            let Some(Waiter { number, part }) = self.next_promoted() else {
                return;
            };
            let inflight = self.total().saturating_add(1);
            let permit = permit_of(number, part, now, inflight);
            self.waiting.retain(|waiter| waiter.number != number);
            put(rt, &mut self.granted, permit);
            let promotion = Promotion {
                waiter: number,
                part,
                start: permit.start,
                inflight,
            };
            self.promotions.push(promotion).expect(rt, "memory");
        }
    }

    /// Who is promoted next: of all, or of the newest alone, the last that has room.
    fn next_promoted(&self) -> Option<Waiter> {
        let mut found = None;
        for waiter in &self.waiting {
            if self.has_room(waiter.part) {
                found = Some(*waiter);
            } else if !self.promotes_all {
                found = None;
            }
        }
        found
    }

    /// Hands out the permit of a number that is granted; who gives up waits no longer.
    fn hand_out<R: Abort>(&mut self, rt: &R, number: u64, gives_up: bool) -> Reply {
        if let Some(permit) = self.granted_permit(number) {
            self.granted.retain(|granted| granted.number != number);
            put(rt, &mut self.open, permit);
            return Reply::Granted {
                part: permit.part,
                start: permit.start,
                inflight: permit.inflight,
            };
        }
        if !self.is_waiting(number) {
            return Reply::Lost;
        }
        if !gives_up {
            return Reply::StillWaiting;
        }
        self.waiting.retain(|waiter| waiter.number != number);
        Reply::TimedOut
    }

    fn look(&self, part: Part) -> Reply {
        Reply::Seen {
            limit: self.limit,
            total: self.total(),
            waiting: few(self.waiting.len()),
            granted: few(self.granted.len()),
            inflight: self.inflight(part),
            share: self.share(part),
        }
    }
}

/// A length of a short list.
pub(crate) fn few(length: usize) -> u32 {
    length.min(1_000_000) as u32
}

fn count_of(permits: &[PermitFacts], part: Part) -> usize {
    permits.iter().filter(|permit| permit.part == part).count()
}

/// Puts a permit into a list, whose order stays that of the numbers.
fn put<R: Abort>(rt: &R, permits: &mut Vec<PermitFacts>, permit: PermitFacts) {
    permits.push(permit).expect(rt, "memory for a permit");
    permits.sort_unstable_by_key(|permit| permit.number);
}

fn permit_of(number: u64, part: Part, now: u64, inflight: u32) -> PermitFacts {
    PermitFacts {
        number,
        part,
        start: now.min(LAST),
        inflight,
    }
}
