//! The machine that every promise is stated by: one flat list of RAM, vCPUs, devices and a clock, one event at a
//! time, with no protection and no locks. A run is a function of the machine and the order of its events. Below it
//! stand `rv64i_step`, one vCPU's part of an event, `serial_timer`, the devices, and `ram_block`.
#![tactic(auto)]

mod boot;
mod copy;
mod device_access;
mod laws;
mod machine;
mod order;
mod page_access;
mod ram;
mod rounds;
mod step;
mod sum;
mod vcpus;

pub use device_access::{apply_to_serial, apply_to_timer};
pub use laws::{
    a_cell_holds_what_was_written_to_it, a_machine_is_determined_by_its_cells,
    a_phase_leaves_no_pending_access, a_phase_with_room_ends_at_rest,
    a_run_goes_on_by_its_next_event, a_run_has_members_of_the_machine,
    a_run_touches_the_pages_of_its_events, an_event_halts_or_awaits_or_finishes,
    an_event_keeps_what_its_laws_need, an_event_leaves_the_rest,
    an_event_touches_one_cell_and_one_vcpu, an_event_writes_one_page_at_most, rounds_are_a_phase,
};
pub use machine::{Machine, Parts};
pub use order::Order;
pub use page_access::apply_to_page;
pub use rounds::phase_has_ended;
pub use step::Stepped;

#[cfg(test)]
mod tests;
