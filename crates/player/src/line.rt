// How an answer is printed.
use runs::{Command, Reply, Step};
use std::fmt;
use units::Fault;

// The line of one record: its index and what was answered, with the bytes that a read gave.
#[derive(Clone, Copy)]
pub(crate) struct Line<'a> {
    pub index: usize,
    pub answer: Result<Reply, Fault>,
    pub bytes: &'a [u8],
}

impl fmt::Display for Line<'_> {
    fn fmt<W: fmt::Write>(&self, f: &mut fmt::Formatter<W>) -> fmt::Result {
        let index = self.index;
        match self.answer {
            Err(fault) => {
                let number = u8::from(fault.kind);
                let layer = fault.layer;
                let place = fault.place;
                write!(f, "{index} no {number} {layer} {place}")
            }
            Ok(Reply::At(device)) => {
                let address = device.0;
                write!(f, "{index} at {address:012x}")
            }
            Ok(Reply::Bytes) => {
                write!(f, "{index} data ")?;
                for byte in self.bytes {
                    write!(f, "{byte:02x}")?;
                }
                Ok(())
            }
            Ok(Reply::Done) => write!(f, "{index} ok"),
            Ok(Reply::Told(_)) => Ok(()),
        }
    }
}

impl<'a> Line<'a> {
    // The line of a step that has run: as many bytes as it was to read, which is at most its answer buffer where it was let pass.
    pub(crate) fn of(index: usize, step: &'a Step<'_>) -> Line<'a> {
        let count = match step.command {
            Command::CpuRead { count, .. } | Command::CardRead { count, .. } => count,
            _ => 0,
        };
        let out = step.out.as_slice();
        Line {
            index,
            answer: step.reply,
            bytes: &out[..count.min(out.len())],
        }
    }
}
