/// How many pages a save copied, by what made it copy them.
#[derive(Clone, Copy, Debug, PartialEq, Eq)]
pub struct Counts {
    /// Pages that a vCPU waited for.
    pub faults: u32,
    /// Pages that came in their turn.
    pub sweep: u32,
}
