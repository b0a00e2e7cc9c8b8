//! Restores a machine from a snapshot file page by page: each page is read when an event first touches it, and the rest
//! at the end. It stands on `page_peek` and `loader`, which read the file, on `flat_machine`, whose events these are, on
//! `wp_fault`, which keeps the pages touched, and on `medium` and `ram_block`.
#![tactic(auto)]

mod answer;
mod held;
mod laws;
mod lazy;
mod pages;

pub use answer::LazyStep;
pub use held::Held;
pub use laws::a_lazy_machine_runs_as_the_whole_one;
pub use lazy::Lazy;
