// What the table mapper is to all above it: set-up, choice, level, the words by what is open, and its laws.
#![tactic(auto)]

mod number;
mod start;

pub use number::page_number;
pub use start::first_tables;
