// One call of a script.
use units::{Card, DeviceAddress, Request, Sync, UnmapRequest};

// A record's fields; the bytes of a write are lent by the script.
#[derive(Clone, Copy, Debug, PartialEq, Eq)]
pub enum Record<'s> {
    Map(Request),
    Unmap(UnmapRequest),
    Sync {
        call: Sync,
        card: Card,
        device: DeviceAddress,
    },
    CpuWrite {
        address: u32,
        bytes: &'s [u8],
    },
    CpuRead {
        address: u32,
        count: u8,
    },
    CardWrite {
        card: Card,
        device: DeviceAddress,
        bytes: &'s [u8],
    },
    CardRead {
        card: Card,
        device: DeviceAddress,
        count: u8,
    },
}
