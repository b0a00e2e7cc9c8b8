//! One phase on threads: a worker for each vCPU of the shared bus and, where there is a job, one for its saver, beside one
//! another until each has come to its end. It promises the phase, the machine of its one order of events, and of a save
//! that is complete the file of the instant. Its parts serve another phase with a saver, too. Below stand `page_bus`, whose passes the workers hold, `bg_saver`, whose turns
//! the saver's worker makes, and `sliced_run`, which says what a second phase leaves of a file.
#![tactic(auto)]

mod blocked;
mod owned_end;
mod phase;
mod saving;
mod stepping;

pub use blocked::blocked_of;
pub use owned_end::OwnedEnd;
pub use phase::run_threads;
pub use stepping::step_all;
