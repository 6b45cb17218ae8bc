// What is asked of a mapper, and what it keeps open.
ghost use Rattle.std.specs.Prelude.{◌≡◌};
ghost use Rattle.units.specs.Holders.{holder_after, turned_by};

use crate::buffer::Buffer;
use crate::direction::{Direction, Rights};
use crate::number::{Card, DeviceAddress, Frame};

// A map call.
#[derive(Clone, Copy, Debug, PartialEq, Eq)]
pub struct Request {
    pub card: Card,
    // A number and no `Direction`: it may name none, which is refused with that number, after the card.
    pub direction: u8,
    pub buffer: Buffer,
}

// An unmap call: the mapping that starts at the card's device address, with the direction and length that the caller knows of it.
#[derive(Clone, Copy, Debug, PartialEq, Eq)]
pub struct UnmapRequest {
    pub card: Card,
    // A number, as in a map call.
    pub direction: u8,
    pub device: DeviceAddress,
    pub length: u32,
}

// Where a mapper puts a buffer: the device address of its first byte, and the memory address where the card finds that byte.
#[derive(Clone, Copy, Debug, PartialEq, Eq)]
pub struct Placement {
    pub device: DeviceAddress,
    pub landing: u32,
}

// Who may touch a mapped buffer's bytes.
#[derive(Clone, Copy, Debug, PartialEq, Eq)]
pub enum Holder {
    ByCard,
    ByCpu,
}

// The two calls that turn the holder.
#[derive(Clone, Copy, Debug, PartialEq, Eq)]
pub enum Sync {
    ForCpu,
    ForCard,
}

// An open mapping, as all above a mapper know it.
#[derive(Clone, Copy, Debug, PartialEq, Eq)]
pub struct Mapping {
    pub card: Card,
    pub direction: Direction,
    pub buffer: Buffer,
    pub device: DeviceAddress,
    pub landing: u32,
    pub holder: Holder,
}

// What a card reaches at a device page: a frame, and what it may do there.
#[derive(Clone, Copy, Debug, PartialEq, Eq)]
pub struct Reach {
    pub frame: Frame,
    pub rights: Rights,
}

impl Holder {
    // The holder after a sync, which turns it: for CPU from card to CPU, for card from CPU to card. No other pair is one.
    pub fn turn(self, sync: Sync) -> Option<Holder>
        ensures { result ≡ turned_by self sync }
    {
        match (self, sync) {
            (Holder::ByCard, Sync::ForCpu) => Some(Holder::ByCpu),
            (Holder::ByCpu, Sync::ForCard) => Some(Holder::ByCard),
            _ => None,
        }
    }
}

impl Sync {
    // Who holds the buffer after this sync.
    pub fn holder(self) -> Holder
        ensures { result ≡ holder_after self }
    {
        match self {
            Sync::ForCpu => Holder::ByCpu,
            Sync::ForCard => Holder::ByCard,
        }
    }
}
