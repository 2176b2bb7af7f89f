// What is found where some meetings are decided.

/// A ring has no cost. Otherwise the cost is that of the decisions made; done means that the rest
/// may stay as in force, and a branch names the meeting to decide next.
#[derive(Clone, Copy, Debug, PartialEq, Eq)]
pub enum Finding {
    Ring,
    Done { cost: u64 },
    Branch { cost: u64, next: u32 },
}
