// What a card's driver is told of accesses that were blocked.
use crate::fault::FaultKind;
use crate::number::DeviceAddress;

// A blocked access: where it started, why it was blocked, and the level that blocked it.
#[derive(Clone, Copy, Debug, PartialEq, Eq)]
pub struct Block {
    pub device: DeviceAddress,
    pub kind: FaultKind,
    pub level: u64,
}

// How many accesses of a card were blocked, and the latest of them.
#[derive(Clone, Copy, Debug, PartialEq, Eq)]
pub struct Report {
    pub count: u32,
    pub latest: Option<Block>,
}
