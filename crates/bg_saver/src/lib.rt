//! The saver, which copies the pages of a machine at an instant out of a plant and writes its file, a page a turn, while
//! the vCPUs of the plant run on. A crash at any moment leaves a file that no loader takes, or that of the instant.
//! Below it stand `page_cell`, whose `Plant` gives the pages, `page_sweep` and `page_bitmap`, which keep what is left
//! and what is set, `file_plan`, `device_state` and `vm_stop`, which give the texts, `flat_machine`, `medium` and
//! `ram_block`.
#![tactic(auto)]

mod counts;
mod finish;
mod laws;
mod progress;
mod release;
mod save_end;
mod save_fault;
mod save_job;
mod saver;
mod take;
mod turn;
mod zeros;

pub use counts::Counts;
pub use laws::a_save_begins_at_the_instant;
pub use save_end::SaveEnd;
pub use save_fault::SaveFault;
pub use save_job::{PhaseOut, SaveJob};
pub use saver::Saver;
pub use turn::{Released, Turn};
