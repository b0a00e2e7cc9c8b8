/// Which calls of an object in memory fail. The calls are numbered from 1.
#[derive(Debug, Drop)]
pub struct FailPlan {
    /// The numbers of calls that fail.
    pub calls: Vec<u64>,
    /// The number from which on every call fails.
    pub from: Option<u64>,
}
