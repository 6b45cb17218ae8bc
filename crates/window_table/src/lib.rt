// The fixed table of 8 windows, each free or with one open mapping, and one lent at a time to open, turn or close it.
#![tactic(auto)]

use slots::{Slot, SlotTable};

// A window is a slot of this table.
pub type Window = Slot;

// 8, since memory is fixed.
pub type WindowTable = SlotTable<8>;
