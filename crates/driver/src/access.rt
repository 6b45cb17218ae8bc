// The CPU's accesses to the bytes of a buffer.
ghost use Rattle.std.specs.Prelude.{◌≡◌, ◌+◌, ◌<◌, ◌≤◌, length, nat_le};
ghost use Rattle.units.specs.declared.fault.FaultKind.TheVariants.{WrongLength};
ghost use Rattle.meaning.specs.Calls.{cpu_read, cpu_write};
ghost use Rattle.meaning.specs.Told.{tells_bytes, tells_done};
ghost use Rattle.mapper.specs.Called.{Checked};
ghost use Rattle.engine.specs.Made.{Made, MadeRead};

use engine::Engine;
use mapper::Mapper;
use units::{Buffer, Fault, FaultKind};

// Reads 1 to 64 bytes of the buffer from an offset in it. An access that does not lie in the buffer is refused with its length.
#[tactic(auto, using(crate::proofs::Reaching::read_past))]
pub fn read<M: Mapper>(
    engine: &Engine<M>,
    memory: &[u8],
    buffer: Buffer,
    offset: u32,
    count: usize,
    out: &mut [u8],
) -> Result<(), Fault>
    ensures inside { offset + count ≤ buffer.length → MadeRead M.Meaning engine.now engine.now memory.now out.old out.new (cpu_read (buffer.address + offset) count out.old) (tells_bytes result out.new) }
    ensures outside { buffer.length < offset + count → (result ≡ Err (record { kind = WrongLength; layer = 0; place = count })) × (out.new ≡ out.old) }
{
    check_in(buffer, offset, count)?;
    // An address past the top is outside every memory, and so is the top.
    engine.cpu_read(memory, buffer.address.saturating_add(offset), count, out)
}

// Writes 1 to 64 bytes of the buffer from an offset in it. An access that does not lie in the buffer is refused with its length.
#[tactic(auto, using(crate::proofs::Reaching::write_past))]
pub fn write<M: Mapper>(
    engine: &Engine<M>,
    memory: &mut [u8],
    buffer: Buffer,
    offset: u32,
    bytes: &[u8],
) -> Result<(), Fault>
    ensures inside { offset + length bytes.now ≤ buffer.length → Made M.Meaning engine.now engine.now memory.old memory.new (cpu_write (buffer.address + offset) bytes.now) (tells_done result) }
    ensures outside { buffer.length < offset + length bytes.now → (result ≡ Err (record { kind = WrongLength; layer = 0; place = length bytes.now })) × (memory.new ≡ memory.old) }
{
    check_in(buffer, offset, bytes.len())?;
    engine.cpu_write(memory, buffer.address.saturating_add(offset), bytes)
}

// An access of so many bytes from the offset on lies in the buffer.
fn check_in(buffer: Buffer, offset: u32, count: usize) -> Result<(), Fault>
    ensures { Checked (nat_le (offset + count) buffer.length) WrongLength count result }
{
    if count.saturating_add(offset as usize) <= buffer.length as usize {
        Ok(())
    } else {
        Err(FaultKind::WrongLength.at(count as u64))
    }
}
