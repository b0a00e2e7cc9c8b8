//! A vCPU's part of an event: what it needs of the machine for its next one, and what it becomes when it is
//! told what it got. The same code serves every machine, whatever holds its RAM and devices. Below it stand
//! `rv64i_decode`, which says what an instruction word is, and `ram_block`, which says where an access goes.
#![tactic(auto)]

mod access;
mod amo;
mod arithmetic;
mod event;
mod execute;
mod laws;
mod request;
mod state;
mod vcpu;

pub use access::Access;
pub use amo::amo_result;
pub use event::low_bytes_of;
pub use laws::{
    accesses_finish, amos_choose, branches_oppose, fetches_end, instructions_write_one_register,
    jumps_land, jumps_link, outcomes_differ, registers_keep, results_are_words,
    stores_keep_registers, vcpus_ask_while_running,
};
pub use request::Request;
pub use state::State;
pub use vcpu::Vcpu;

#[cfg(test)]
mod tests;
