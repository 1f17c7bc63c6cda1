// What is handed in of one caller as a gate is closed, and what is told of it.
use gate_history::{Naming, Receipt};
use shared_gate::{Cause, GateNaming, Pass};
use std::alloc::Global;
use std::process::Abort;

/// What is handed in of a caller with two receipts, at a gate that rolls or not, and the cause that
/// is told.
#[derive(Clone, Copy)]
pub(crate) struct Handing {
    /// Whether the gate keeps one entry alone, and rolls.
    pub(crate) is_rolling: bool,
    has_pass: bool,
    is_turned: bool,
    /// How many receipts, from the first on.
    receipts: usize,
    pub(crate) cause: Option<Cause>,
}

impl Handing {
    pub(crate) fn new(
        is_rolling: bool,
        has_pass: bool,
        is_turned: bool,
        receipts: usize,
        cause: Option<Cause>,
    ) -> Handing {
        Handing {
            is_rolling,
            has_pass,
            is_turned,
            receipts,
            cause,
        }
    }
}

/// The pass, or none.
pub(crate) fn hand_in<M: GateNaming>(passes: &mut Vec<Pass<M>>, handing: Handing) {
    if !handing.has_pass {
        passes.clear();
    }
}

/// An empty list, and that of these receipts.
pub(crate) fn lists_of<M: Naming, R: Abort>(
    rt: &R,
    alloc: Global,
    mut receipts: Vec<Receipt<M>>,
    handing: Handing,
) -> Vec<Vec<Receipt<M>>> {
    if handing.is_turned {
        receipts.reverse();
    }
    receipts.truncate(handing.receipts);
    two_lists(rt, alloc, Vec::new(alloc), receipts)
}

/// Two lists of receipts.
pub(crate) fn two_lists<M: Naming, R: Abort>(
    rt: &R,
    alloc: Global,
    one: Vec<Receipt<M>>,
    two: Vec<Receipt<M>>,
) -> Vec<Vec<Receipt<M>>> {
    let mut kept = Vec::new(alloc);
    kept.push(one).expect(rt, "memory for a list");
    kept.push(two).expect(rt, "memory for a list");
    kept
}

/// The lists have what was handed in of the calls 0 and 1: where one is turned, it begins with 1.
pub(crate) fn are_handed_back<M: Naming>(kept: &[Vec<Receipt<M>>], handing: Handing) -> bool {
    if kept.len() != 2 || !kept[0].is_empty() || kept[1].len() != handing.receipts {
        return false;
    }
    match kept[1].first() {
        Some(receipt) => receipt.number() == handing.is_turned as u64,
        None => true,
    }
}
