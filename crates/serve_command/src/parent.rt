// The process that started this one.

/// Tells which process is the parent of this one.
pub trait ParentProcess {
    /// The id of the parent: that of the process that started this one, and another one's once that
    /// has ended.
    fn parent_id(&self) -> u32;
}
