// A buffer that the CPU has, and that is mapped nowhere through this state.
ghost use Rattle.std.specs.Prelude.{◌≡◌, ◌+◌, ◌<◌, ◌≤◌, length, false, MatchResult};
ghost use Rattle.units.specs.declared.fault.FaultKind.TheVariants.{WrongLength};
ghost use Rattle.units.specs.declared.mapping.Holder.TheVariants.{ByCard};
ghost use Rattle.meaning.specs.Calls.{map, cpu_read, cpu_write};
ghost use Rattle.meaning.specs.Told.{tells_bytes, tells_done};
ghost use Rattle.engine.specs.Made.{Made, MadeRead};
ghost use Rattle.driver.specs.Stands.{request_of, Stands, KeepsAll, is_mismatch_kind};
ghost use Rattle.driver.specs.Told.{tells_mapped};

use crate::access;
use crate::buffer::{Refused, Transfer};
use crate::mapped::MappedBuffer;
use engine::Engine;
use mapper::Mapper;
use units::Fault;

// Neither `Copy` nor `Drop`: it ends by `map` or `release`.
pub struct CpuBuffer {
    pub(crate) transfer: Transfer,
}

impl CpuBuffer {
    // Takes a buffer in hand, to be mapped for a card in a direction.
    pub fn claim(transfer: Transfer) -> CpuBuffer
        ensures { result.transfer ≡ transfer }
    {
        CpuBuffer { transfer }
    }

    // Gives the buffer back.
    pub fn release(self) -> Transfer
        ensures { result ≡ self.transfer }
    {
        let Self { transfer } = self;
        transfer
    }

    // The buffer, its card and its direction.
    pub fn transfer(&self) -> Transfer
        ensures { result ≡ self.now.transfer }
    {
        self.transfer
    }

    // Opens a mapping: the card has the buffer. Memory is lent beside the engine, as in the engine's calls, here and below.
    pub fn map<M: Mapper>(
        self,
        engine: &mut Engine<M>,
        memory: &mut [u8],
    ) -> Result<MappedBuffer, Refused<CpuBuffer>>
        ensures made { Made M.Meaning engine.old engine.new memory.old memory.new (map (request_of self.transfer)) (tells_mapped result) }
        ensures same { MatchResult result (λ mapped. mapped.transfer ≡ self.transfer) (λ back. back.state ≡ self) }
        ensures stands { MatchResult result (λ mapped. Stands (M.opened engine.new.mapper) mapped.transfer mapped.device.0 ByCard) (λ back. is_mismatch_kind back.fault.kind ≡ false) }
        ensures others { KeepsAll (M.opened engine.old.mapper) (M.opened engine.new.mapper) }
    {
        let CpuBuffer { transfer } = self;
        match engine.map(memory, transfer.opening()) {
            Ok(device) => Ok(MappedBuffer { transfer, device }),
            Err(fault) => Err(Refused {
                state: CpuBuffer { transfer },
                fault,
            }),
        }
    }

    // Reads 1 to 64 bytes from an offset in the buffer. An access that does not lie in the buffer is refused with its length.
    pub fn read<M: Mapper>(
        &self,
        engine: &Engine<M>,
        memory: &[u8],
        offset: u32,
        count: usize,
        out: &mut [u8],
    ) -> Result<(), Fault>
        ensures inside { offset + count ≤ self.now.transfer.buffer.length → MadeRead M.Meaning engine.now engine.now memory.now out.old out.new (cpu_read (self.now.transfer.buffer.address + offset) count out.old) (tells_bytes result out.new) }
        ensures outside { self.now.transfer.buffer.length < offset + count → (result ≡ Err (record { kind = WrongLength; layer = 0; place = count })) × (out.new ≡ out.old) }
    {
        access::read(engine, memory, self.transfer.buffer, offset, count, out)
    }

    // Writes 1 to 64 bytes from an offset in the buffer. An access that does not lie in the buffer is refused with its length.
    pub fn write<M: Mapper>(
        &self,
        engine: &Engine<M>,
        memory: &mut [u8],
        offset: u32,
        bytes: &[u8],
    ) -> Result<(), Fault>
        ensures inside { offset + length bytes.now ≤ self.now.transfer.buffer.length → Made M.Meaning engine.now engine.now memory.old memory.new (cpu_write (self.now.transfer.buffer.address + offset) bytes.now) (tells_done result) }
        ensures outside { self.now.transfer.buffer.length < offset + length bytes.now → (result ≡ Err (record { kind = WrongLength; layer = 0; place = length bytes.now })) × (memory.new ≡ memory.old) }
    {
        access::write(engine, memory, self.transfer.buffer, offset, bytes)
    }
}
