// A fixed table of slots, each free or with one open mapping, for any number of slots.
#![tactic(auto)]

mod slot;
mod table;

pub use slot::Slot;
pub use table::SlotTable;
