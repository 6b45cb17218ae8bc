// A call as a value, what it is answered, and a step of a run.
use units::{Card, DeviceAddress, Fault, Report, Request, Sync, UnmapRequest};

// A call; a write borrows its bytes. No twin of a script's record, which asks for no report and has counts of one byte.
#[derive(Clone, Copy, Debug, PartialEq, Eq)]
pub enum Command<'a> {
    Map(Request),
    Unmap(UnmapRequest),
    Sync {
        call: Sync,
        card: Card,
        device: DeviceAddress,
    },
    CpuRead {
        address: u32,
        count: usize,
    },
    CpuWrite {
        address: u32,
        bytes: &'a [u8],
    },
    CardRead {
        card: Card,
        device: DeviceAddress,
        count: usize,
    },
    CardWrite {
        card: Card,
        device: DeviceAddress,
        bytes: &'a [u8],
    },
    Report {
        card: Card,
    },
}

// What a call that is let pass is answered; a read's bytes are in its answer buffer.
#[derive(Clone, Copy, Debug, PartialEq, Eq)]
pub enum Reply {
    Done,
    At(DeviceAddress),
    Bytes,
    Told(Report),
}

// A call with an answer buffer of its own, and its reply or refusal once it has run. Before that, what stands there is not read;
// an `Option` would have to be taken apart in each promise on a list of steps.
#[derive(Drop)]
pub struct Step<'a> {
    pub command: Command<'a>,
    pub out: Vec<u8>,
    pub reply: Result<Reply, Fault>,
}
