//! The top calls of the program: a job from its words to its answer, generic over the outside world; and the
//! adapters of real files and of the console.
#![tactic(auto)]

mod answer;
mod arguments;
mod assembly;
mod boot;
mod check;
mod counted;
mod fault_line;
mod file_medium;
mod file_source;
mod job;
mod join;
mod laws;
mod layer;
mod lazy;
mod lazy_run;
mod orders;
mod out_sink;
mod parts;
mod peek;
mod real_file;
mod record;
mod replay;
mod restore;
mod save;
mod save_on_threads;
mod standard;
mod top;
mod words;
mod workload;
mod write;
mod write_fault;

pub use answer::{Answer, Fault};
pub use arguments::command_words;
pub use file_medium::{FileMedium, Opening};
pub use file_source::FileSource;
pub use laws::{
    a_base_joined_with_a_layer_is_the_file_of_a_save, a_replay_of_a_record_prints_its_report,
    two_saves_of_one_instant_are_one_file,
};
pub use out_sink::OutSink;
pub use standard::StandardHold;
pub use top::{rvsnap, rvsnap_still};
