// The layer as a mapper.
ghost use Rattle.std.specs.Prelude.{◌≡◌, ◌+◌, ◌*◌, ◌/◌, ◌%◌, ◌<◌, ◌≤◌, false, Some, length};
ghost use Rattle.units.specs.Buffers.{span, whole};
ghost use Rattle.meaning.specs.Calls.{map};
ghost use Rattle.meaning.specs.Checks.{Verdict as VerdictOf, admitted};
ghost use Rattle.meaning.specs.Told.{tells_at};
ghost use Rattle.mapper.specs.Called.{here, Called};
ghost use Rattle.layer.specs.Choosing.{frames_request};
ghost use Rattle.layer.specs.Lowering.{base_of};
ghost use Rattle.pool.specs.Lending.{loan_in, frames_of_pool};
ghost use Rattle.layer_steps.specs.Holding.{held_below, held_in_pool, held_through};
ghost use Rattle.layer_steps.specs.Tied.{open_over};

use crate::bounce::Bounce;
use crate::moves::{copy_at, copy_back, copy_in};
use crate::release::release;
use mapper::{Mapper, Meaning};
use units::{
    Access, Buffer, Card, DeviceAddress, DevicePage, Fault, FaultKind, Frame, Mapping, Request,
    Sync, UnmapRequest, passed_on,
};

// The request for the whole frames that a buffer's span takes, from the first one on.
fn frames_request(request: Request, first: Frame) -> Request
    requires frame { first.0 < 1048576 }
    requires short { span request.buffer.address request.buffer.length ≤ 8 }
    ensures { result ≡ frames_request request first.0 }
{
    Request {
        buffer: Buffer {
            address: first.0 * 4096,
            length: request.buffer.span() as u32 * 4096,
        },
        ..request
    }
}

// The device address as far into its page as the buffer lies in its first frame.
fn further(device: DeviceAddress, buffer: Buffer) -> DeviceAddress
    requires { device.0 % 4096 ≡ 0 }
    ensures { result.0 ≡ device.0 + buffer.address % 4096 }
{
    DeviceAddress(device.0 + buffer.address as u64 % 4096)
}

// The start of the page that the device address lies in.
fn page_start(device: DeviceAddress) -> DeviceAddress
    ensures { result.0 ≡ base_of device.0 }
{
    DeviceAddress(device.0 / 4096 * 4096)
}

impl<M: Mapper> Mapper for Bounce<M> {
    fn cards(&self) -> u8 {
        if self.is_refused() {
            0
        } else {
            self.lower.cards()
        }
    }

    fn frames(&self) -> u32 {
        if self.is_refused() {
            0
        } else {
            self.lower.frames()
        }
    }

    fn open_count(&self) -> u32 {
        if self.is_refused() {
            0
        } else {
            self.lower.open_count()
        }
    }

    fn is_reserved(&self, frame: Frame) -> bool {
        !self.is_refused() && (self.pool.has(frame) || self.lower.is_reserved(frame))
    }

    fn is_held(&self, address: u32) -> bool {
        !self.is_refused() && (self.is_held_below(address) || self.is_held_in_pool(address))
    }

    fn mapping_at(&self, card: Card, device: DeviceAddress) -> Option<Mapping> {
        if self.is_refused() {
            return None;
        }
        let below = self.lower.mapping_at(card, page_start(device))?;
        let mapping = self.pool.lift(below);
        if mapping.device == device {
            Some(mapping)
        } else {
            None
        }
    }

    fn would(&self, memory: &[u8], request: Request) -> Result<DeviceAddress, Fault> {
        self.admit(memory, request)?;
        if request.buffer.is_whole() {
            return passed_on(self.lower.would(memory, request));
        }
        let frame = self.pool.choose(request.buffer.span())?;
        let device = passed_on(self.lower.would(memory, frames_request(request, frame)))?;
        Ok(further(device, request.buffer))
    }

    fn map(&mut self, memory: &mut [u8], request: Request) -> Result<DeviceAddress, Fault> {
        self.admit(memory, request)?;
        if request.buffer.is_whole() {
            return passed_on(self.lower.map(memory, request));
        }
        let frame = self.pool.choose(request.buffer.span())?;
        self.map_frames(memory, request, frame)
    }

    fn unmap(&mut self, memory: &mut [u8], request: UnmapRequest) -> Result<(), Fault> {
        let mapping = self.closing(memory, request)?;
        copy_back(memory, &mapping);
        let below = UnmapRequest {
            device: page_start(request.device),
            length: mapping.buffer.span() as u32 * 4096,
            ..request
        };
        passed_on(self.lower.unmap(memory, below))?;
        release(&mut self.pool, &self.lower, Frame::of(mapping.landing));
        Ok(())
    }

    fn sync(
        &mut self,
        memory: &mut [u8],
        call: Sync,
        card: Card,
        device: DeviceAddress,
    ) -> Result<(), Fault> {
        let mapping = self.turning(memory, call, card, device)?;
        copy_at(memory, call, &mapping);
        passed_on(self.lower.sync(memory, call, card, page_start(device)))
    }

    fn translate(&mut self, card: Card, page: DevicePage, access: Access) -> Result<Frame, Fault> {
        if self.is_refused() {
            return Err(FaultKind::Absent.at(0));
        }
        self.lower.translate(card, page, access)
    }
}

impl<M: Mapper> Bounce<M> {
    // The byte is outside the pool, and below a card holds it.
    fn is_held_below(&self, address: u32) -> bool
        ensures { result ≡ held_below self.now.pool (M.opened self.now.lower) address }
    {
        !self.pool.has(Frame::of(address)) && self.lower.is_held(address)
    }

    // The byte is in a buffer whose frames a card holds.
    fn is_held_in_pool(&self, address: u32) -> bool
        requires { self.now.pool.first.0 + self.now.pool.count ≤ 1024 }
        ensures { result ≡ held_in_pool self.now.pool (M.opened self.now.lower) address }
    {
        let first = self.pool.first.0;
        (first..first + self.pool.count).any(|frame| self.is_held_through(Frame(frame), address))
    }

    // The byte is in the buffer that the run from the frame on is lent to, and below a card holds the frame.
    fn is_held_through(&self, frame: Frame, address: u32) -> bool
        requires { frame.0 < 1048576 }
        ensures { result ≡ held_through (loan_in self.now.pool) (M.opened self.now.lower) address frame.0 }
    {
        match self.pool.loan(frame) {
            Some(buffer) => {
                (buffer.address as u64..buffer.end()).contains(&(address as u64))
                    && self.lower.is_held(frame.0 * 4096)
            }
            None => false,
        }
    }

    // A buffer that is not whole is copied into the pool frames from this one on, and these are mapped below, once they would be.
    fn map_frames(
        &mut self,
        memory: &mut [u8],
        request: Request,
        frame: Frame,
    ) -> Result<DeviceAddress, Fault>
        requires admitted { (v : VerdictOf) → admitted (here ⟦<Bounce<M> as Meaning>⟧ self.old memory.old) request v ≡ v }
        requires part { whole request.buffer.address request.buffer.length ≡ false }
        requires frames { frames_of_pool self.old.pool (open_over M.Meaning self.old.lower self.old.pool) (span request.buffer.address request.buffer.length) ≡ Some frame.0 }
        ensures { Called ⟦<Bounce<M> as Meaning>⟧ self.old self.new memory.old memory.new (map request) (tells_at result) }
    {
        let below = frames_request(request, frame);
        passed_on(self.lower.would(memory, below))?;
        copy_in(memory, request.buffer, frame);
        let device = passed_on(self.lower.map(memory, below))?;
        self.pool.lend(frame, request.buffer);
        Ok(further(device, request.buffer))
    }
}
