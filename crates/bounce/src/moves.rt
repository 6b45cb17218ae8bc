// The moves of bytes between a buffer and where it lands.
ghost use Rattle.std.specs.Prelude.{◌≡◌, ◌+◌, ◌*◌, ◌%◌, ◌≤◌, length};
ghost use Rattle.units.specs.Buffers.{span};
ghost use Rattle.meaning.specs.Memory.{bytes_of, clear, copy};
ghost use Rattle.meaning.specs.Effects.{copy_at_unmap, copy_at_sync};

use meaning::{clear_bytes, copy_bytes};
use units::{Buffer, Frame, Mapping, Sync};

// The buffer's frames are cleared, and it is copied in, as far into the first of them as into its own.
pub(crate) fn copy_in(memory: &mut [u8], buffer: Buffer, frame: Frame)
    requires buffer { buffer.address + buffer.length ≤ length memory.old }
    requires frames { frame.0 * 4096 + span buffer.address buffer.length * 4096 ≤ length memory.old }
    ensures { bytes_of memory.new ≡ copy (frame.0 * 4096 + buffer.address % 4096) buffer.address buffer.length (clear (frame.0 * 4096) (span buffer.address buffer.length * 4096) (bytes_of memory.old)) }
{
    let start = frame.0 as usize * 4096;
    clear_bytes(memory, start, buffer.span() as usize * 4096);
    copy_bytes(
        memory,
        start + buffer.address as usize % 4096,
        buffer.address as usize,
        buffer.length as usize,
    );
}

// Where the card may write, each buffer byte becomes its landing byte.
pub(crate) fn copy_back(memory: &mut [u8], mapping: &Mapping)
    requires buffer { mapping.now.buffer.address + mapping.now.buffer.length ≤ length memory.old }
    requires landing { mapping.now.landing + mapping.now.buffer.length ≤ length memory.old }
    ensures { bytes_of memory.new ≡ copy_at_unmap mapping.now (bytes_of memory.old) }
{
    if mapping.direction.rights().write {
        copy_bytes(
            memory,
            mapping.buffer.address as usize,
            mapping.landing as usize,
            mapping.buffer.length as usize,
        );
    }
}

// Where the card may read, each landing byte becomes its buffer byte.
fn copy_again(memory: &mut [u8], mapping: &Mapping)
    requires buffer { mapping.now.buffer.address + mapping.now.buffer.length ≤ length memory.old }
    requires landing { mapping.now.landing + mapping.now.buffer.length ≤ length memory.old }
    ensures { bytes_of memory.new ≡ copy_at_sync Sync.ForCard mapping.now (bytes_of memory.old) }
{
    if mapping.direction.rights().read {
        copy_bytes(
            memory,
            mapping.landing as usize,
            mapping.buffer.address as usize,
            mapping.buffer.length as usize,
        );
    }
}

// What a sync copies: back for the CPU, and again for the card.
pub(crate) fn copy_at(memory: &mut [u8], call: Sync, mapping: &Mapping)
    requires buffer { mapping.now.buffer.address + mapping.now.buffer.length ≤ length memory.old }
    requires landing { mapping.now.landing + mapping.now.buffer.length ≤ length memory.old }
    ensures { bytes_of memory.new ≡ copy_at_sync call mapping.now (bytes_of memory.old) }
{
    match call {
        Sync::ForCpu => copy_back(memory, mapping),
        Sync::ForCard => copy_again(memory, mapping),
    }
}
