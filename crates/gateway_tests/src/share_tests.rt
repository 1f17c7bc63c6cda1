// Shares of a limit, by worked numbers.
use crate::checks::check;
use partitions::{Part, PartitionTable};

/// Limits, and what 300 thousandths of each are, rounded up.
const SHARES: [(u32, u32); 4] = [(1, 1), (3, 1), (4, 2), (10_000, 3_000)];

/// The first partition of a table has these shares.
fn has_shares(table: &PartitionTable) -> bool {
    for (limit, share) in SHARES {
        if table.share(Part::Known(0), limit) != share {
            return false;
        }
    }
    true
}

#[test]
fn copy_gives_the_same_shares(rt: HostRuntime) {
    let rows = [(b"a".as_slice(), 300)];
    let table = PartitionTable::new(rt.alloc(), &rows).expect(&rt, "a table");
    let copy = table.copy().expect(&rt, "a copy");
    check(&rt, has_shares(&table));
    check(&rt, has_shares(&copy));
}
