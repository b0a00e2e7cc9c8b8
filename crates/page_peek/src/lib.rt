//! Looks into a snapshot file: from its head pieces alone which pages it has, and then one page at a time. It stands on
//! `file_plan`, which says where each piece of a file stands, on `page_bitmap` and `mig_stream`, which read the pieces,
//! and on `medium`, `flat_machine` and `ram_block`.
#![tactic(auto)]

mod fault;
mod heads;
mod laws;
mod page;
mod peek;

pub use fault::{PageFault, PeekFault, PeekRefusal};
pub use laws::{
    a_file_has_its_heads_or_a_refusal, a_layout_has_its_heads, a_page_in_a_layout_is_the_machines,
};
pub use peek::Peek;
