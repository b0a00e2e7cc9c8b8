use ram_block::Cause;

/// Whether a vCPU runs, or why it doesn't.
#[derive(Clone, Copy, Debug, PartialEq, Eq)]
pub enum State {
    Running,
    Halted(Cause),
}
