/// What a caller hooks into a run on threads.
pub trait Gate: Sync {
    /// Called before the saver's n-th turn, counted from 1.
    fn before_turn(&self, n: u32);

    /// Called after each event of vCPU k.
    fn done(&self, k: u32);
}

/// The gate that does nothing.
#[derive(Clone, Copy, Debug, PartialEq, Eq)]
pub struct NoGate;

impl Gate for NoGate {
    fn before_turn(&self, _n: u32) {}

    fn done(&self, _k: u32) {}
}
