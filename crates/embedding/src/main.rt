//! An example: a program with a gate of its own. The limit is AIMD, two classes share it, and two
//! threads ask for permits, work and end them. At the end the gate is closed and audited.
//!
//! `docs/EMBEDDING.md` goes through the program call by call.
#![tactic(auto)]

mod caller;
mod run;

use aimd::{Aimd, AimdNumbers, USUAL};
use gate_history::{Blanks, GateSettings};
use limiter_core::Promote;
use partitions::PartitionTable;
use run::run;
use shared_gate::LogLength;
use std::marker::Brand;

fn main(rt: HostRuntime) -> anyhow::Result<()> {
    let alloc = rt.alloc();
    let numbers = AimdNumbers {
        lo: 2,
        first: 4,
        hi: 100,
        timeout_ns: 1_000_000_000,
        ..USUAL
    };
    let Ok(limit) = Aimd::of(numbers) else {
        unreachable!()
    };
    let table = PartitionTable::new(alloc, &[(b"live", 600), (b"batch", 300)])?;
    let settings = GateSettings {
        limit,
        table,
        room: 10,
        promote: Promote::Newest,
        kept: 1_000,
        is_rolling: false,
    };
    let word = LogLength::new(alloc)?;
    let history = run::<Brand, _>(&rt, alloc, Blanks::new(), word, settings)?;
    println!(rt; "audit ok: {} entries", history.entries.len())?;
    Ok(())
}
