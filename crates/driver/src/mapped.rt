// A buffer that a card has.
ghost use Rattle.std.specs.Prelude.{◌≡◌, None, MatchResult};
ghost use Rattle.units.specs.declared.mapping.Holder.TheVariants.{ByCard, ByCpu};
ghost use Rattle.units.specs.declared.mapping.Sync.TheVariants.{ForCpu};
ghost use Rattle.units.specs.Directions.{code_of};
ghost use Rattle.meaning.specs.Mappings.{find};
ghost use Rattle.meaning.specs.Calls.{unmap, sync};
ghost use Rattle.engine.specs.Made.{Made};
ghost use Rattle.driver.specs.Stands.{Stands, StillStands, KeepsOthers};
ghost use Rattle.driver.specs.Told.{tells_moved};

use crate::buffer::{Refused, Transfer};
use crate::cpu::CpuBuffer;
use crate::synced::SyncedBuffer;
use engine::Engine;
use mapper::Mapper;
use units::{DeviceAddress, Sync};

// Neither `Copy` nor `Drop`: it ends by `unmap`, a sync for the CPU or `leave_open`.
pub struct MappedBuffer {
    pub(crate) transfer: Transfer,
    pub(crate) device: DeviceAddress,
}

impl MappedBuffer {
    // The buffer, its card and its direction.
    pub fn transfer(&self) -> Transfer
        ensures { result ≡ self.now.transfer }
    {
        self.transfer
    }

    // Where the card finds the buffer's first byte.
    pub fn device(&self) -> DeviceAddress
        ensures { result ≡ self.now.device }
    {
        self.device
    }

    // Gives up the state and leaves its mapping open, for a driver that cannot close it. Tells what stays open.
    pub fn leave_open(self) -> (Transfer, DeviceAddress)
        ensures transfer { result.0 ≡ self.transfer }
        ensures device { result.1 ≡ self.device }
    {
        let Self { transfer, device } = self;
        (transfer, device)
    }

    // Hands the buffer to the CPU for a while; it stays mapped.
    pub fn sync_for_cpu<M: Mapper>(
        self,
        engine: &mut Engine<M>,
        memory: &mut [u8],
    ) -> Result<SyncedBuffer, Refused<MappedBuffer>>
        ensures made { Made M.Meaning engine.old engine.new memory.old memory.new (sync ForCpu self.transfer.card.0 self.device.0) (tells_moved result) }
        ensures same { MatchResult result (λ synced. synced ≡ record { transfer = self.transfer; device = self.device }) (λ back. back.state ≡ self) }
        ensures stands { Stands (M.opened engine.old.mapper) self.transfer self.device.0 ByCard → MatchResult result (λ synced. Stands (M.opened engine.new.mapper) self.transfer self.device.0 ByCpu) (λ back. StillStands (M.opened engine.new.mapper) self.transfer self.device.0 ByCard back.fault) }
        ensures others { KeepsOthers (M.opened engine.old.mapper) (M.opened engine.new.mapper) self.transfer.card.0 self.device.0 }
    {
        let MappedBuffer { transfer, device } = self;
        match engine.sync(memory, Sync::ForCpu, transfer.card, device) {
            Ok(()) => Ok(SyncedBuffer { transfer, device }),
            Err(fault) => Err(Refused {
                state: MappedBuffer { transfer, device },
                fault,
            }),
        }
    }

    // Closes the mapping: the CPU has the buffer, and no card.
    pub fn unmap<M: Mapper>(
        self,
        engine: &mut Engine<M>,
        memory: &mut [u8],
    ) -> Result<CpuBuffer, Refused<MappedBuffer>>
        ensures made { Made M.Meaning engine.old engine.new memory.old memory.new (unmap self.transfer.card.0 (code_of self.transfer.direction) self.device.0 self.transfer.buffer.length) (tells_moved result) }
        ensures same { MatchResult result (λ cpu. cpu.transfer ≡ self.transfer) (λ back. back.state ≡ self) }
        ensures stands { MatchResult result (λ cpu. find (M.opened engine.new.mapper) self.transfer.card.0 self.device.0 ≡ None) (λ back. Stands (M.opened engine.old.mapper) self.transfer self.device.0 ByCard → StillStands (M.opened engine.new.mapper) self.transfer self.device.0 ByCard back.fault) }
        ensures others { KeepsOthers (M.opened engine.old.mapper) (M.opened engine.new.mapper) self.transfer.card.0 self.device.0 }
    {
        let MappedBuffer { transfer, device } = self;
        match engine.unmap(memory, transfer.closing(device)) {
            Ok(()) => Ok(CpuBuffer { transfer }),
            Err(fault) => Err(Refused {
                state: MappedBuffer { transfer, device },
                fault,
            }),
        }
    }
}
