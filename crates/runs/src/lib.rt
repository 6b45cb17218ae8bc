// Lists of calls: each call as a value, and a run of them one after the other.
#![tactic(auto)]

mod command;
mod making;
mod scripted;

pub use command::{Command, Reply, Step};
pub use making::{make, run, take_step};
