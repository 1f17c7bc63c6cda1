// Windows of windows, over AIMD by worked numbers and over a fixed limit.
use crate::checks::check;
use crate::limits::LEARNING;
use aimd::{Aimd, AimdNumbers};
use limit_laws::{Fixed, Limit, MakeFault, Sample};
use std::process::Abort;
use windowed::Windowed;

/// Windows of at least two samples and of this length, in nanoseconds.
fn over<L: Limit>(rt: &impl Abort, inner: L, length: u64) -> Windowed<L> {
    match Windowed::new(inner, 2, length, length, 0) {
        Ok(windowed) => windowed,
        Err(_) => panic!(rt; "no windows"),
    }
}

/// AIMD 1 to 100 from 20 that takes a round trip of more than 50 ns for a drop.
fn aimd(rt: &impl Abort) -> Aimd {
    let numbers = AimdNumbers {
        first: 20,
        hi: 100,
        timeout_ns: 50,
        ..LEARNING
    };
    Aimd::of(numbers).expect(rt, "a limit")
}

/// A sample that began at this moment, in nanoseconds, with 10 permits in flight.
fn sample(start: u64, rtt: u64) -> Sample {
    Sample::of(start, start.saturating_add(rtt), 10, false)
}

/// The outer windows last 200 ns and the inner ones 300 ns, and each has to have two samples. AIMD
/// starts at 20, and takes a round trip above 50 ns for a drop.
///
/// - The first sample ends at 5, behind 0, so it is an outer window alone, which is handed on by
///   nobody; the next outer window is due at 205.
/// - The slow ones end at 205 and 206: the second ends the window. Its mean, 200 ns, is an inner
///   window alone, since 206 is behind 0, and isn't handed on; the next inner one is due at 506,
///   and the outer one at 406.
/// - The next two end at 406 and 407: a mean of 10 ns that ends at 407, so the inner window stays
///   open. The outer one is due at 607.
/// - The last two end at 607 and 608: a mean of 10 ns, which ends at 608, behind 506, and ends the
///   inner window too. So AIMD learns one sample, 10 ns with 10 in flight of 20, and rises by one.
///
/// Without the outer windows the inner ones would hold (200, 200, 10) by 406, a mean above 50;
/// without the inner ones AIMD would learn of 200 ns: either way the limit falls to 18.
#[test]
fn windows_over_windows_hand_on_means_of_means(rt: HostRuntime) {
    let inner = over(&rt, aimd(&rt), 300);
    let mut outer = over(&rt, inner, 200);
    let before = [(0, 5), (5, 200), (6, 200), (396, 10), (397, 10), (597, 10)];
    for (start, rtt) in before {
        outer.on_sample(&sample(start, rtt));
        check(&rt, outer.limit() == 20);
    }
    outer.on_sample(&sample(598, 10));
    check(&rt, outer.limit() == 21);
}

/// The windows that are refused hand back windows over a fixed limit, and others take these.
#[test]
fn windows_of_size_0_hand_the_inner_limit_back(rt: HostRuntime) {
    let inner = over(&rt, Fixed::new(5).expect(&rt, "a limit"), 300);
    let Err((MakeFault::Window, inner)) = Windowed::new(inner, 0, 1, 1, 0) else {
        rt.abort()
    };
    let mut outer: Windowed<Windowed<Fixed>> = over(&rt, inner, 200);
    outer.on_sample(&sample(0, 5));
    check(&rt, outer.limit() == 5);
}
