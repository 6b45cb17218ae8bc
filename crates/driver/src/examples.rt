// Lawful drivers. Each stands close to a wrong one that the compiler refuses (`refused/`, beside `src/`).
ghost use Rattle.std.specs.Prelude.{◌≡◌, ◌+◌, ◌≤◌, length, false, IfOk, IfErr};
ghost use Rattle.units.specs.declared.mapping.Holder.TheVariants.{ByCard};
ghost use Rattle.meaning.specs.Calls.{cpu_read};
ghost use Rattle.meaning.specs.Told.{tells_bytes};
ghost use Rattle.engine.specs.Made.{MadeRead};
ghost use Rattle.driver.specs.Stands.{Stands, is_mismatch_kind};
ghost use Rattle.driver.specs.Told.{fault_of};

use crate::buffer::Transfer;
use crate::cpu::CpuBuffer;
use crate::mapped::MappedBuffer;
use crate::stopped::Stopped;
use engine::Engine;
use mapper::Mapper;
use units::Fault;

// Writes to a mapped buffer, between two syncs. Answers the buffer, and what the write was answered. No call is refused for what is open or who holds it.
pub fn write_between_syncs<M: Mapper>(
    cpu: CpuBuffer,
    engine: &mut Engine<M>,
    memory: &mut [u8],
    bytes: &[u8],
) -> Result<(CpuBuffer, Result<(), Fault>), Stopped>
    ensures home { IfOk result (λ done. done.0.transfer ≡ cpu.transfer) }
    ensures refused { IfErr result (λ stopped. is_mismatch_kind (fault_of stopped).kind ≡ false) }
{
    let mapped = cpu.map(engine, memory)?;
    let synced = mapped.sync_for_cpu(engine, memory)?;
    let written = synced.write(engine, memory, 0, bytes);
    let mapped = synced.sync_for_card(engine, memory)?;
    let cpu = mapped.unmap(engine, memory)?;
    Ok((cpu, written))
}

// Unmaps a buffer twice, and maps it in between. Where the mapping stands, no call is refused for what is open or who holds it.
pub fn unmap_map_unmap<M: Mapper>(
    mapped: MappedBuffer,
    engine: &mut Engine<M>,
    memory: &mut [u8],
) -> Result<CpuBuffer, Stopped>
    ensures home { IfOk result (λ cpu. cpu.transfer ≡ mapped.transfer) }
    ensures refused { Stands (M.opened engine.old.mapper) mapped.transfer mapped.device.0 ByCard → IfErr result (λ stopped. is_mismatch_kind (fault_of stopped).kind ≡ false) }
{
    let home = mapped.unmap(engine, memory)?;
    let mapped = home.map(engine, memory)?;
    let home = mapped.unmap(engine, memory)?;
    Ok(home)
}

// Takes a buffer in hand to read bytes of it, and gives it back.
pub fn read_once<M: Mapper>(
    transfer: Transfer,
    engine: &Engine<M>,
    memory: &[u8],
    offset: u32,
    out: &mut [u8],
) -> Result<(), Fault>
    ensures { offset + length out.old ≤ transfer.buffer.length → MadeRead M.Meaning engine.now engine.now memory.now out.old out.new (cpu_read (transfer.buffer.address + offset) (length out.old) out.old) (tells_bytes result out.new) }
{
    let cpu = CpuBuffer::claim(transfer);
    let read = cpu.read(engine, memory, offset, out.len(), out);
    cpu.release();
    read
}
