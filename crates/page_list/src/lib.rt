// Which device pages a card reaches through its tables, and what it finds there.
#![tactic(auto)]

mod list;
mod next;

pub use list::{PageReach, reached_pages};
