// The fixed table of 32 records, each free or with one open mapping, and one lent at a time to open, turn or close it.
#![tactic(auto)]

use slots::{Slot, SlotTable};

// A record is a slot of this table.
pub type Record = Slot;

// 32, since memory is fixed.
pub type RecordTable = SlotTable<32>;
