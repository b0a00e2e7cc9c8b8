//! Where each piece of a snapshot file stands, the texts of its head pieces and of its tail, and which file stands
//! for a machine. It stands on `ram_block`, `page_bitmap`, `mapped_ram_header`, `medium`, `mig_stream`, `device_state`
//! and `flat_machine`.
#![tactic(auto)]

mod format;
mod layout;
mod plan;
mod texts;
mod under_way;

pub use format::{
    CONFIGURATION, END_FLAG, FRONT_LEN, GATE, MACHINE_NAME, MAGIC, RAM_NAME, RAM_SECTION,
    RAM_VERSION, RECORD_LEN, STREAM_VERSION, TAIL_LEN, TOTAL_FLAG,
};
pub use layout::{
    a_file_is_a_layout_of_one_machine, a_file_tells_its_machine, file_of_is_a_layout,
};
pub use plan::{FIRST_RECORD, Plan, RECORD_HEAD};
pub use texts::{configuration, name_of, ram_head, tail};
pub use under_way::{
    a_file_has_its_pieces, a_file_is_whole, a_file_under_way_begins, a_piece_more,
    a_range_covers_its_piece, a_shut_file_is_a_layout_of_no_machine,
};

#[cfg(test)]
mod tests;
