// What a gate is made with.
use limit_laws::Limit;
use limiter_core::Promote;
use partitions::PartitionTable;

/// What a gate is made with: its limit and its partitions, and how it queues and keeps its history.
#[derive(Drop)]
pub struct GateSettings<L: Limit> {
    pub limit: L,
    pub table: PartitionTable,
    /// How many may wait: 0 to 10,000.
    pub room: u32,
    /// Which of those who wait are promoted.
    pub promote: Promote,
    /// How many entries are kept, but for those that are owed: 1 to 1,000,000.
    pub kept: usize,
    /// Whether the history rolls where it holds as many entries as it keeps.
    pub is_rolling: bool,
}
