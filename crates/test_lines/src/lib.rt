//! What the tests of whole lines share: a line of words over files in memory, whose calls fail by plan, and how it has to end;
//! some guests; and a file whose first write of a page stands until others have gone on. No part of the program stands on it.
#![tactic(auto)]

mod compare;
mod counts;
mod files;
mod guests;
mod line;
mod orders;
mod paused;

pub use compare::{Differs, answer_difference, difference, difference_of, is_checked};
pub use counts::{Counts, counts_behind};
pub use files::{Fails, Files, Outcome, words};
pub use guests::{ADDED, ADDS, counting};
pub use line::{LINE, Line, READER, answer, answer_on_threads, work_on};
pub use orders::is_order;
pub use paused::{Pause, PausedFile};
