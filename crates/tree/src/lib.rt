// Which of the lent tables stands where, and what words they then hold.
#![tactic(auto)]

mod lookup;
mod place;

pub use lookup::{free_table, index, prefix, table_for};
pub use place::{Place, Table};
