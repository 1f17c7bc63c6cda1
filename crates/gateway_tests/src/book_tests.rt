// How many passes a book gives, and how many entries a journal may be asked to keep.
use crate::books::{BookTrial, try_book};
use crate::checks::check;
use gate_history::{Book, Journal, JournalFault, Naming};
use limit_laws::{Fixed, Limit};
use limiter_core::{Core, Promote};
use partitions::PartitionTable;
use std::alloc::Global;
use std::process::Abort;

#[test]
fn a_book_gives_passes_until_it_is_sealed(rt: HostRuntime) {
    let all = BookTrial::Give {
        count: 1_000_000,
        is_sealed: false,
    };
    try_book(&rt, rt.alloc(), all);
    let none = BookTrial::Give {
        count: 0,
        is_sealed: true,
    };
    try_book(&rt, rt.alloc(), none);
}

/// A new book, which may be sealed at once, gives so many passes and no more.
pub(crate) fn gives_passes<L: Limit, N: Naming, R: Abort>(
    rt: &R,
    book: &mut Book<L, N>,
    count: u64,
    is_sealed: bool,
) {
    if is_sealed {
        book.seal();
    }
    for _ in 0..count {
        check(rt, gives_one(book));
    }
    check(rt, !gives_one(book));
}

/// A book gives a pass more.
fn gives_one<L: Limit, N: Naming>(book: &mut Book<L, N>) -> bool {
    book.pass().is_some()
}

/// Why no journal keeps so many entries.
fn fault<R: Abort>(rt: &R, alloc: Global, kept: usize) -> Option<JournalFault> {
    let limit = Fixed::new(1).expect(rt, "a limit");
    let table = PartitionTable::unknown_only();
    let core = Core::new(alloc, limit, table, 100, Promote::Newest).expect(rt, "a limiter");
    Journal::new(alloc, core, kept, false).err()
}

#[test]
fn from_one_to_a_million_entries_are_kept(rt: HostRuntime) {
    check(&rt, fault(&rt, rt.alloc(), 0) == Some(JournalFault::Places));
    check(&rt, fault(&rt, rt.alloc(), 1) == None);
    check(&rt, fault(&rt, rt.alloc(), 1_000_000) == None);
    check(
        &rt,
        fault(&rt, rt.alloc(), 1_000_001) == Some(JournalFault::Places),
    );
}
