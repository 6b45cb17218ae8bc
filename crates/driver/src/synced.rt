// A mapped buffer that the CPU has between two syncs.
ghost use Rattle.std.specs.Prelude.{◌≡◌, ◌+◌, ◌<◌, ◌≤◌, length, None, MatchResult};
ghost use Rattle.units.specs.declared.fault.FaultKind.TheVariants.{WrongLength};
ghost use Rattle.units.specs.declared.mapping.Holder.TheVariants.{ByCard, ByCpu};
ghost use Rattle.units.specs.declared.mapping.Sync.TheVariants.{ForCard};
ghost use Rattle.units.specs.Directions.{code_of};
ghost use Rattle.meaning.specs.Mappings.{find};
ghost use Rattle.meaning.specs.Calls.{unmap, sync, cpu_read, cpu_write};
ghost use Rattle.meaning.specs.Told.{tells_bytes, tells_done};
ghost use Rattle.engine.specs.Made.{Made, MadeRead};
ghost use Rattle.driver.specs.Stands.{Stands, StillStands, KeepsOthers};
ghost use Rattle.driver.specs.Told.{tells_moved};

use crate::access;
use crate::buffer::{Refused, Transfer};
use crate::cpu::CpuBuffer;
use crate::mapped::MappedBuffer;
use engine::Engine;
use mapper::Mapper;
use units::{DeviceAddress, Fault, Sync};

// Neither `Copy` nor `Drop`: it ends by `unmap`, a sync for the card or `leave_open`.
pub struct SyncedBuffer {
    pub(crate) transfer: Transfer,
    pub(crate) device: DeviceAddress,
}

impl SyncedBuffer {
    // The buffer, its card and its direction.
    pub fn transfer(&self) -> Transfer
        ensures { result ≡ self.now.transfer }
    {
        self.transfer
    }

    // Where the card finds the buffer's first byte.
    pub fn device(&self) -> DeviceAddress
        ensures { result ≡ self.now.device }
    {
        self.device
    }

    // Gives up the state and leaves its mapping open, for a driver that cannot close it. Tells what stays open.
    pub fn leave_open(self) -> (Transfer, DeviceAddress)
        ensures transfer { result.0 ≡ self.transfer }
        ensures device { result.1 ≡ self.device }
    {
        let Self { transfer, device } = self;
        (transfer, device)
    }

    // Hands the buffer back to the card.
    pub fn sync_for_card<M: Mapper>(
        self,
        engine: &mut Engine<M>,
        memory: &mut [u8],
    ) -> Result<MappedBuffer, Refused<SyncedBuffer>>
        ensures made { Made M.Meaning engine.old engine.new memory.old memory.new (sync ForCard self.transfer.card.0 self.device.0) (tells_moved result) }
        ensures same { MatchResult result (λ mapped. mapped ≡ record { transfer = self.transfer; device = self.device }) (λ back. back.state ≡ self) }
        ensures stands { Stands (M.opened engine.old.mapper) self.transfer self.device.0 ByCpu → MatchResult result (λ mapped. Stands (M.opened engine.new.mapper) self.transfer self.device.0 ByCard) (λ back. StillStands (M.opened engine.new.mapper) self.transfer self.device.0 ByCpu back.fault) }
        ensures others { KeepsOthers (M.opened engine.old.mapper) (M.opened engine.new.mapper) self.transfer.card.0 self.device.0 }
    {
        let SyncedBuffer { transfer, device } = self;
        match engine.sync(memory, Sync::ForCard, transfer.card, device) {
            Ok(()) => Ok(MappedBuffer { transfer, device }),
            Err(fault) => Err(Refused {
                state: SyncedBuffer { transfer, device },
                fault,
            }),
        }
    }

    // Closes the mapping: the CPU has the buffer, and no card.
    pub fn unmap<M: Mapper>(
        self,
        engine: &mut Engine<M>,
        memory: &mut [u8],
    ) -> Result<CpuBuffer, Refused<SyncedBuffer>>
        ensures made { Made M.Meaning engine.old engine.new memory.old memory.new (unmap self.transfer.card.0 (code_of self.transfer.direction) self.device.0 self.transfer.buffer.length) (tells_moved result) }
        ensures same { MatchResult result (λ cpu. cpu.transfer ≡ self.transfer) (λ back. back.state ≡ self) }
        ensures stands { MatchResult result (λ cpu. find (M.opened engine.new.mapper) self.transfer.card.0 self.device.0 ≡ None) (λ back. Stands (M.opened engine.old.mapper) self.transfer self.device.0 ByCpu → StillStands (M.opened engine.new.mapper) self.transfer self.device.0 ByCpu back.fault) }
        ensures others { KeepsOthers (M.opened engine.old.mapper) (M.opened engine.new.mapper) self.transfer.card.0 self.device.0 }
    {
        let SyncedBuffer { transfer, device } = self;
        match engine.unmap(memory, transfer.closing(device)) {
            Ok(()) => Ok(CpuBuffer { transfer }),
            Err(fault) => Err(Refused {
                state: SyncedBuffer { transfer, device },
                fault,
            }),
        }
    }

    // Reads 1 to 64 bytes from an offset in the buffer. An access that does not lie in the buffer is refused with its length.
    pub fn read<M: Mapper>(
        &self,
        engine: &Engine<M>,
        memory: &[u8],
        offset: u32,
        count: usize,
        out: &mut [u8],
    ) -> Result<(), Fault>
        ensures inside { offset + count ≤ self.now.transfer.buffer.length → MadeRead M.Meaning engine.now engine.now memory.now out.old out.new (cpu_read (self.now.transfer.buffer.address + offset) count out.old) (tells_bytes result out.new) }
        ensures outside { self.now.transfer.buffer.length < offset + count → (result ≡ Err (record { kind = WrongLength; layer = 0; place = count })) × (out.new ≡ out.old) }
    {
        access::read(engine, memory, self.transfer.buffer, offset, count, out)
    }

    // Writes 1 to 64 bytes from an offset in the buffer. An access that does not lie in the buffer is refused with its length.
    pub fn write<M: Mapper>(
        &self,
        engine: &Engine<M>,
        memory: &mut [u8],
        offset: u32,
        bytes: &[u8],
    ) -> Result<(), Fault>
        ensures inside { offset + length bytes.now ≤ self.now.transfer.buffer.length → Made M.Meaning engine.now engine.now memory.old memory.new (cpu_write (self.now.transfer.buffer.address + offset) bytes.now) (tells_done result) }
        ensures outside { self.now.transfer.buffer.length < offset + length bytes.now → (result ≡ Err (record { kind = WrongLength; layer = 0; place = length bytes.now })) × (memory.new ≡ memory.old) }
    {
        access::write(engine, memory, self.transfer.buffer, offset, bytes)
    }
}
