// What a driver's buffer is given to a card for, and a state that a refused call hands back.
ghost use Rattle.std.specs.Prelude.{◌≡◌};
ghost use Rattle.driver.specs.Stands.{request_of, closing_of};

use units::{Buffer, Card, DeviceAddress, Direction, Fault, Request, UnmapRequest};

// The bytes, the card that they are for, and which way they go.
#[derive(Clone, Copy, Debug, PartialEq, Eq)]
pub struct Transfer {
    pub card: Card,
    pub direction: Direction,
    pub buffer: Buffer,
}

// A refused call: the state as it was before, and why.
pub struct Refused<S> {
    pub state: S,
    pub fault: Fault,
}

impl Transfer {
    // The map call for it.
    pub(crate) fn opening(self) -> Request
        ensures { result ≡ request_of self }
    {
        Request {
            card: self.card,
            direction: self.direction.into(),
            buffer: self.buffer,
        }
    }

    // The unmap call for it, once it is mapped at a device address.
    pub(crate) fn closing(self, device: DeviceAddress) -> UnmapRequest
        ensures { result ≡ closing_of self device }
    {
        UnmapRequest {
            card: self.card,
            direction: self.direction.into(),
            device,
            length: self.buffer.length,
        }
    }
}
