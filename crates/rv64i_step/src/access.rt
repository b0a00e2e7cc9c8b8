use ram_block::Place;
use rv64i_decode::Instr;

/// An access that a fetched instruction has still to make: the instruction, and where the access goes.
#[derive(Clone, Copy, Debug, PartialEq, Eq)]
pub struct Access {
    pub instr: Instr,
    pub place: Place,
}
