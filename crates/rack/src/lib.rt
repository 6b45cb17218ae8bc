// The engines that programs run: each with its set-up, asking nothing of who calls.
#![tactic(auto)]

mod engines;
mod listing;
mod shared;

pub use engines::{bare_tables, bare_windows};
pub use listing::open_pages;
pub use shared::{run_shared, shared_rack};
