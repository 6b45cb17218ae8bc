// The refusals that come of the checks, 1 to 8 and 13, each with number, layer and place. A layer finds them itself, so their layer is 0.
use crate::asking::Asked::{
    CardRead, CardWrite, CpuRead, CpuWrite, ForCard, ForCpu, Map, Reported, Unmap,
};
use crate::asking::{Asked, Refusal, Refused, Step, all_refused, all_told, ask, held};
use crate::piles::{LAST, apart_over, layer_over, tables, two_layers_over, windows};
use engine::Engine;
use mapper::Mapper;
use std::process::Abort;

// What card 0 holds in these tests: 2 bytes at 0x100, both ways, which are not whole. The page is the highest, 0xfffff.
const DEVICE: u64 = 0xfffff100;

// The calls are refused while the buffer is open at its landing, and change nothing.
fn refused_beside_one<M: Mapper>(
    rt: &impl Abort,
    engine: &mut Engine<M>,
    landing: u32,
    calls: &[Refused],
) {
    let mut memory = [0x41; 32768];
    assert_eq!(rt; ask(engine, &mut memory, Map(0, 0, 0x100, 2)), Ok(DEVICE));
    let open = [held(0, 0x100, 2, DEVICE, landing)];
    all_refused(rt, engine, &mut memory, &open, calls);
}

// 1, 2, 3, 4, 6, 7, 8 and 13 are the same whatever the pile is.
fn refused_over_any<M: Mapper>(rt: &impl Abort, engine: &mut Engine<M>, landing: u32) {
    const CALLS: &[Refused] = &[
        // There are cards 0 and 1. The card comes before all else that is wrong here.
        (Map(2, 3, 0x100, 0), (1, 0, 2)),
        (Unmap(2, 3, DEVICE, 3), (1, 0, 2)),
        (ForCpu(2, DEVICE), (1, 0, 2)),
        (ForCard(255, DEVICE), (1, 0, 255)),
        (CardRead(2, DEVICE, 0), (1, 0, 2)),
        (CardWrite(2, DEVICE, &[]), (1, 0, 2)),
        (Reported(2), (1, 0, 2)),
        // Directions are 0 to 2.
        (Map(0, 3, 0x100, 0), (2, 0, 3)),
        (Unmap(1, 255, DEVICE, 2), (2, 0, 255)),
        // A length of 0, and spans of 9 and more: 32,768 bytes from byte 1 on touch frames 0 to 8.
        (Map(0, 0, 0x100, 0), (3, 0, 0)),
        (Map(0, 0, 1, 32768), (3, 0, 32768)),
        (Map(0, 0, 0xffffffff, 0xffffffff), (3, 0, 0xffffffff)),
        // Accesses are of 1 to 64 bytes.
        (CpuRead(0x200, 0), (3, 0, 0)),
        (CpuRead(0x200, 65), (3, 0, 65)),
        (CpuWrite(0x200, &[]), (3, 0, 0)),
        (CpuWrite(0x200, &[1; 65]), (3, 0, 65)),
        (CardRead(0, DEVICE, 0), (3, 0, 0)),
        (CardRead(0, 0xfffffff0, 65), (3, 0, 65)),
        (CardWrite(0, DEVICE, &[]), (3, 0, 0)),
        (CardWrite(0, DEVICE, &[1; 65]), (3, 0, 65)),
        // 8 frames end at 32,768. This comes before the reserved frame 7.
        (Map(0, 0, 0x7fff, 2), (4, 0, 32768)),
        (Map(0, 0, 0x8000, 1), (4, 0, 32768)),
        (Map(0, 0, 0xffffffff, 1), (4, 0, 32768)),
        (CpuRead(0x7fff, 2), (4, 0, 32768)),
        (CpuWrite(0xffffffff, &[1, 2]), (4, 0, 32768)),
        // Open is exactly this start, of exactly this card; not the page's start, which is open below.
        (Unmap(0, 0, 0xfffff101, 2), (6, 0, 0xfffff101)),
        (Unmap(0, 0, 0xfffff000, 4096), (6, 0, 0xfffff000)),
        (Unmap(1, 0, DEVICE, 2), (6, 0, DEVICE)),
        (Unmap(0, 0, u64::MAX, 2), (6, 0, u64::MAX)),
        (ForCpu(0, 0xfffff000), (6, 0, 0xfffff000)),
        (ForCard(1, DEVICE), (6, 0, DEVICE)),
        // The place is the length of the open mapping: its own 2, and not 4,096 as below.
        (Unmap(0, 0, DEVICE, 3), (7, 0, 2)),
        (Unmap(0, 0, DEVICE, 4096), (7, 0, 2)),
        (Unmap(0, 1, DEVICE, 2), (7, 0, 2)),
        // The card holds already, and it holds bytes 0x100 and 0x101.
        (ForCard(0, DEVICE), (8, 0, DEVICE)),
        (CpuRead(0x100, 1), (8, 0, 0x100)),
        (CpuRead(0xc2, 64), (8, 0, 0x100)),
        (CpuWrite(0x101, &[1]), (8, 0, 0x101)),
        // Over the end of a page, and device addresses of 2^48 and more.
        (CardRead(0, 0xffffffff, 2), (13, 0, 0xffffffff)),
        (CardWrite(0, 0xffffeff0, &[1; 17]), (13, 0, 0xffffeff0)),
        (
            CardRead(0, 0x1_0000_0000_0000, 1),
            (13, 0, 0x1_0000_0000_0000),
        ),
        (CardWrite(0, u64::MAX, &[1]), (13, 0, u64::MAX)),
    ];
    refused_beside_one(rt, engine, landing, CALLS);
}

#[test]
fn checks_over_windows(rt: HostRuntime) {
    refused_over_any(&rt, &mut layer_over(windows(LAST)), 0x7100);
}

#[test]
fn checks_over_tables(rt: HostRuntime) {
    let mut words = [0u64; 5120];
    refused_over_any(&rt, &mut layer_over(tables(LAST, 10, &mut words)), 0x7100);
}

// The buffer lands in the outer pool, frames 4 and 5.
#[test]
fn checks_over_a_layer_over_tables(rt: HostRuntime) {
    let mut words = [0u64; 5120];
    refused_over_any(
        &rt,
        &mut two_layers_over(tables(LAST, 10, &mut words)),
        0x5100,
    );
}

// Handed memory of another size than 8 frames, each call is refused with 4, before 5, 6, 8 and 13. A report is handed none.
fn needs_its_memory<M: Mapper>(rt: &impl Abort, engine: &mut Engine<M>) {
    let mut memory = [0u8; 32768];
    let mut short = [0u8; 32767];
    let mut long = [0u8; 36864];
    const CALLS: &[Step] = &[
        (Map(0, 0, 0x200, 2), Err((4, 0, 32768))),
        (Map(0, 0, 0x7000, 2), Err((4, 0, 32768))),
        (Unmap(0, 0, DEVICE, 2), Err((4, 0, 32768))),
        (Unmap(1, 0, DEVICE, 2), Err((4, 0, 32768))),
        (ForCpu(0, DEVICE), Err((4, 0, 32768))),
        (ForCard(0, DEVICE), Err((4, 0, 32768))),
        (CardRead(0, DEVICE, 1), Err((4, 0, 32768))),
        (CardRead(0, 0xffffffff, 2), Err((4, 0, 32768))),
        (CardWrite(0, DEVICE, &[1]), Err((4, 0, 32768))),
        (CpuRead(0x200, 1), Err((4, 0, 32768))),
        (CpuWrite(0x100, &[1]), Err((4, 0, 32768))),
        (Reported(0), Ok(0)),
    ];
    const FIRST: &[Step] = &[(Map(0, 0, 0x100, 2), Ok(DEVICE))];
    all_told(rt, engine, &mut memory, FIRST);
    all_told(rt, engine, &mut short, CALLS);
    all_told(rt, engine, &mut long, CALLS);
    assert!(rt; short == [0; 32767]);
    assert!(rt; long == [0; 36864]);
    // The card holds the buffer still.
    const SECOND: &[Step] = &[(ForCpu(0, DEVICE), Ok(0))];
    all_told(rt, engine, &mut memory, SECOND);
}

#[test]
fn memory_of_another_size_over_windows(rt: HostRuntime) {
    needs_its_memory(&rt, &mut layer_over(windows(LAST)));
}

#[test]
fn memory_of_another_size_over_a_layer_over_tables(rt: HostRuntime) {
    let mut words = [0u64; 5120];
    needs_its_memory(&rt, &mut two_layers_over(tables(LAST, 10, &mut words)));
}

// Frames 6 and 7 are the pool. The place is the lowest of them that is touched, of a whole buffer too.
fn pool_is_reserved<M: Mapper>(rt: &impl Abort, engine: &mut Engine<M>) {
    const CALLS: &[Refused] = &[
        (Map(0, 0, 0x5fff, 2), (5, 0, 6)),
        (Map(1, 2, 0x6000, 4096), (5, 0, 6)),
        (Map(0, 1, 0x7000, 1), (5, 0, 7)),
        (Map(0, 0, 0, 32768), (5, 0, 6)),
        (CpuRead(0x5fff, 2), (5, 0, 6)),
        (CpuRead(0x6fff, 2), (5, 0, 6)),
        (CpuRead(0x7100, 1), (5, 0, 7)),
        (CpuWrite(0x7fff, &[1]), (5, 0, 7)),
    ];
    refused_beside_one(rt, engine, 0x7100, CALLS);
}

#[test]
fn reserved_frames_over_windows(rt: HostRuntime) {
    pool_is_reserved(&rt, &mut layer_over(windows(LAST)));
}

// Frames 2, 3, 6 and 7 are the pools', whichever of the two is the outer one. The place is the lowest that is touched of either.
fn both_pools_are_reserved<M: Mapper>(rt: &impl Abort, engine: &mut Engine<M>, landing: u32) {
    const CALLS: &[Refused] = &[
        (Map(0, 0, 0x1000, 0x7000), (5, 0, 2)),
        (Map(0, 0, 0x3fff, 0x3001), (5, 0, 3)),
        (Map(0, 0, 0x4000, 0x4000), (5, 0, 6)),
        (Map(0, 0, 0x7000, 1), (5, 0, 7)),
        (CpuRead(0x1fff, 2), (5, 0, 2)),
        (CpuRead(0x2fff, 1), (5, 0, 2)),
        (CpuWrite(0x3fff, &[1, 2]), (5, 0, 3)),
        (CpuWrite(0x5fff, &[1, 2]), (5, 0, 6)),
    ];
    refused_beside_one(rt, engine, landing, CALLS);
}

#[test]
fn reserved_frames_below_the_outer_pool(rt: HostRuntime) {
    both_pools_are_reserved(&rt, &mut apart_over(windows(LAST), 2, 6), 0x7100);
}

#[test]
fn reserved_frames_above_the_outer_pool(rt: HostRuntime) {
    both_pools_are_reserved(&rt, &mut apart_over(windows(LAST), 6, 2), 0x3100);
}

// A sync for CPU hands the buffer to the CPU, and a sync for card hands it back; each is refused where it finds that holder. The bytes
// beside the buffer are the CPU's all the time.
fn holders_turn<M: Mapper>(rt: &impl Abort, engine: &mut Engine<M>) {
    const CALLS: &[Step] = &[
        (Map(0, 0, 0x100, 2), Ok(DEVICE)),
        (CpuWrite(0xff, &[1]), Ok(0)),
        (CpuRead(0x102, 64), Ok(0)),
        (ForCpu(0, DEVICE), Ok(0)),
        (ForCpu(0, DEVICE), Err((8, 0, DEVICE))),
        (CpuWrite(0xff, &[1, 2, 3]), Ok(0)),
        (ForCard(0, DEVICE), Ok(0)),
        (ForCard(0, DEVICE), Err((8, 0, DEVICE))),
        (CpuWrite(0xff, &[1, 2, 3]), Err((8, 0, 0x100))),
        (ForCpu(0, DEVICE), Ok(0)),
        (Unmap(0, 0, DEVICE, 2), Ok(0)),
        (ForCpu(0, DEVICE), Err((6, 0, DEVICE))),
        (ForCard(0, DEVICE), Err((6, 0, DEVICE))),
        (Unmap(0, 0, DEVICE, 2), Err((6, 0, DEVICE))),
        (CpuWrite(0xff, &[1, 2, 3]), Ok(0)),
    ];
    all_told(rt, engine, &mut [0x41; 32768], CALLS);
}

#[test]
fn holders_over_windows(rt: HostRuntime) {
    holders_turn(&rt, &mut layer_over(windows(LAST)));
}

#[test]
fn holders_over_a_layer_over_tables(rt: HostRuntime) {
    let mut words = [0u64; 5120];
    holders_turn(&rt, &mut two_layers_over(tables(LAST, 10, &mut words)));
}

// Three buffers are held: byte 0xfe by card 1, bytes 0x100 and 0x101 by card 0, and all of frame 1. The place is the lowest byte of any.
#[test]
fn the_lowest_held_byte(rt: HostRuntime) {
    let mut engine = layer_over(windows(LAST));
    const CALLS: &[Step] = &[
        (Map(0, 0, 0x100, 2), Ok(DEVICE)),
        (Map(1, 1, 0xfe, 1), Ok(0xfffff0fe)),
        (Map(0, 0, 0x1000, 4096), Ok(0xffffe000)),
        (CpuRead(0xf0, 64), Err((8, 0, 0xfe))),
        (CpuRead(0xff, 2), Err((8, 0, 0x100))),
        (CpuWrite(0xfff, &[1, 2]), Err((8, 0, 0x1000))),
        (CpuWrite(0x1fff, &[1]), Err((8, 0, 0x1fff))),
        (CpuRead(0xff, 1), Ok(0)),
        (CpuRead(0x2000, 1), Ok(0)),
    ];
    all_told(&rt, &mut engine, &mut [0x41; 32768], CALLS);
}
