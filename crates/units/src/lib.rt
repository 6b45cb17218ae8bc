// The words of the product: numbers of frames, pages and cards, directions, buffers, open mappings, reports and faults.
#![tactic(auto)]

mod buffer;
mod direction;
mod fault;
mod mapping;
mod number;
mod report;

pub use buffer::Buffer;
pub use direction::{Access, Direction, Rights};
pub use fault::{Fault, FaultKind, passed_on};
pub use mapping::{Holder, Mapping, Placement, Reach, Request, Sync, UnmapRequest};
pub use number::{Card, DeviceAddress, DevicePage, Frame, Geometry};
pub use report::{Block, Report};
