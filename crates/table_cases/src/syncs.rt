// Who holds a buffer: a card from map on, the CPU between two syncs.
use crate::asked::Asked::{
    CardRead, CardWrite, CpuRead, CpuWrite, Map, SyncForCard, SyncForCpu, Unmap,
};
use crate::asked::{Step, engine, first_other};

// The bytes 0x100 and 0x101. A sync that finds the holder that it would turn to is refused, and so is the CPU at a byte that the card
// holds; the bytes beside them are no part of the buffer. The card is never asked who holds.
#[test]
fn the_holder_turns(rt: HostRuntime) {
    let mut words = [0u64; 2048];
    let mut memory = [0u8; 32768];
    let mut engine = engine(1, 0xfffff, 8, 4, &mut words);
    const STEPS: &[Step] = &[
        (Map(0, 0, 0x100, 2), Ok(0xfffff100)),
        (SyncForCard(0, 0xfffff100), Err((8, 0, 0xfffff100))),
        (CpuRead(0x101, 1), Err((8, 0, 0x101))),
        (CpuWrite(0xfe, &[1, 1, 1, 1]), Err((8, 0, 0x100))),
        (CpuWrite(0xff, &[0x61]), Ok(0)),
        (CpuWrite(0x102, &[0x62]), Ok(0)),
        (CardRead(0, 0xfffff0ff, 1), Ok(0x61)),
        (SyncForCpu(0, 0xfffff100), Ok(0)),
        (SyncForCpu(0, 0xfffff100), Err((8, 0, 0xfffff100))),
        (CpuWrite(0x100, &[0x41, 0x42]), Ok(0)),
        (CardRead(0, 0xfffff101, 1), Ok(0x42)),
        (CardWrite(0, 0xfffff100, &[0x51]), Ok(0)),
        (CpuRead(0x100, 1), Ok(0x51)),
        (SyncForCard(0, 0xfffff100), Ok(0)),
        (SyncForCard(0, 0xfffff100), Err((8, 0, 0xfffff100))),
        (CpuRead(0x100, 2), Err((8, 0, 0x100))),
        (Unmap(0, 0, 0xfffff100, 2), Ok(0)),
        (CpuRead(0x100, 1), Ok(0x51)),
        (SyncForCpu(0, 0xfffff100), Err((6, 0, 0xfffff100))),
    ];
    assert_eq!(rt; first_other(&mut engine, &mut memory, STEPS), None);
}

// Two buffers share the bytes 0x108 to 0x10f. What one card still holds is refused at its lowest byte.
#[test]
fn two_buffers_share_bytes(rt: HostRuntime) {
    let mut words = [0u64; 4096];
    let mut memory = [0u8; 32768];
    let mut engine = engine(2, 0xfffff, 8, 8, &mut words);
    const STEPS: &[Step] = &[
        (Map(0, 0, 0x108, 16), Ok(0xfffff108)),
        (Map(1, 0, 0x100, 16), Ok(0xfffff100)),
        (CpuRead(0xf0, 64), Err((8, 0, 0x100))),
        (SyncForCpu(1, 0xfffff100), Ok(0)),
        (CpuRead(0xf0, 64), Err((8, 0, 0x108))),
        (CpuWrite(0x100, &[1, 2, 3, 4, 5, 6, 7, 8]), Ok(0)),
        (CpuRead(0x10f, 1), Err((8, 0, 0x10f))),
        (SyncForCpu(0, 0xfffff108), Ok(0)),
        (CpuRead(0xf0, 64), Ok(0)),
        (CpuRead(0x107, 9), Ok(8)),
        (SyncForCard(1, 0xfffff100), Ok(0)),
        (CpuRead(0x10f, 16), Err((8, 0, 0x10f))),
        (CpuRead(0x110, 16), Ok(0)),
    ];
    assert_eq!(rt; first_other(&mut engine, &mut memory, STEPS), None);
}
