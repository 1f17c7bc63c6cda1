// Workers at the same time.
use crate::checks::check;
use counted_io::Counted;
use load_run::load_with;
use shared_gate::Clock;
use std::hint;
use std::sync::atomic::{AtomicBool, AtomicU64, Ordering};
use std::test::Fail;
use tasks::Spawner;

/// A clock that holds its first reading until a second one has begun.
#[derive(Drop)]
struct Holds {
    begun: AtomicU64,
    was_met: AtomicBool,
}

/// How often the first reading looks for a second one before it goes on alone.
const LOOKS: u64 = 100_000_000;

impl Clock for Holds {
    fn now(&self) -> u64 {
        if self.begun.fetch_add(1, Ordering::SeqCst) == 0 {
            for _ in 0..LOOKS {
                if self.begun.load(Ordering::SeqCst) > 1 {
                    self.was_met.store(true, Ordering::SeqCst);
                    break;
                }
                hint::spin_loop();
            }
        }
        0
    }
}

const TWO: &str = "\
arrive unknown 0 1 success wait
arrive unknown 0 1 success wait
";

const TWO_TEXT: &str = "\
audit ok calls 4
admitted 2 bypassed 0 full 0 backlog 0 waiting 0 \
promoted 0 timed-out 0 success 2 ignored 0 dropped 0
";

#[test]
fn two_loads_overlap(rt: HostRuntime) -> Result<(), Fail> {
    let clock = Holds {
        begun: AtomicU64::new(0),
        was_met: AtomicBool::new(false),
    };
    let mut written = Vec::new(rt.alloc());
    let mut reader = Counted::new(TWO.as_bytes());
    let mut writer = Counted::new(&mut written);
    let mut spawner = Spawner::new(&rt);
    let alloc = rt.alloc();
    let answer = load_with(
        &rt,
        &mut spawner,
        alloc,
        &mut reader,
        &mut writer,
        2,
        2,
        &clock,
    );
    check(&rt, answer.is_ok());
    check(&rt, clock.was_met.load(Ordering::SeqCst));
    check(&rt, written.as_slice() == TWO_TEXT.as_bytes());
    Ok(())
}
