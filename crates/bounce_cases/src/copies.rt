// The bytes that map, the syncs and unmap move, each time compared with all of memory.
use crate::asking::Asked::{CardWrite, CpuWrite, ForCard, ForCpu, Map, Unmap};
use crate::asking::{Asked, Step, all_told, ask, card_bytes};
use crate::piles::{LAST, layer_over, tables, two_layers_over, windows};
use engine::Engine;
use mapper::Mapper;
use std::process::Abort;

// A call and its answer, and then the bytes in the pool frame from 0x100 on and those of the buffer.
type Moved = (Asked<'static>, u64, [u8; 4], [u8; 2]);

// The device address of a buffer at 0x100 that is not whole, at a card's highest page.
const DEVICE: u64 = 0xfffff100;

// The memory with these bytes in the frame, from the offset on.
fn placed(memory: [u8; 32768], frame: usize, offset: usize, bytes: &[u8]) -> [u8; 32768] {
    let mut after = memory;
    let mut at = frame.saturating_mul(4096).saturating_add(offset);
    for &new in bytes {
        if let Some(byte) = after.get_mut(at) {
            *byte = new;
        }
        at = at.saturating_add(1);
    }
    after
}

// Memory that is 0xee but for these bytes of the pool frame from 0x100 on, the rest of it 0, and these of a buffer at 0x100.
fn moved(pool: usize, landed: [u8; 4], kept: [u8; 2]) -> [u8; 32768] {
    let cleared = placed([0xee; 32768], pool, 0, &[0; 4096]);
    let filled = placed(cleared, pool, 0x100, &landed);
    placed(filled, 0, 0x100, &kept)
}

// The buffer is bytes 1 and 2 at 0x100. The calls are let pass with these answers, one after the other, and each leaves these bytes in the
// pool frame from 0x100 on and these in the buffer.
fn all_copied<M: Mapper>(rt: &impl Abort, engine: &mut Engine<M>, pool: usize, calls: &[Moved]) {
    let mut memory = placed([0xee; 32768], 0, 0x100, &[1, 2]);
    for &(command, answer, landed, kept) in calls {
        assert_eq!(rt; ask(engine, &mut memory, command), Ok(answer));
        assert!(rt; memory == moved(pool, landed, kept));
    }
}

// Both ways. At map the pool frame is cleared and the buffer copied in, as far into it as into its own frame. A sync for CPU copies back;
// one for card copies in again, without clearing; unmap copies back, though the CPU holds.
fn both_ways<M: Mapper>(rt: &impl Abort, engine: &mut Engine<M>, pool: usize) {
    const CALLS: &[Moved] = &[
        (Map(0, 0, 0x100, 2), DEVICE, [1, 2, 0, 0], [1, 2]),
        // The card writes the first byte of its buffer, and two behind it.
        (CardWrite(0, DEVICE, &[5]), 0, [5, 2, 0, 0], [1, 2]),
        (CardWrite(0, 0xfffff102, &[8, 9]), 0, [5, 2, 8, 9], [1, 2]),
        (ForCpu(0, DEVICE), 0, [5, 2, 8, 9], [5, 2]),
        (CpuWrite(0x101, &[7]), 0, [5, 2, 8, 9], [5, 7]),
        (ForCard(0, DEVICE), 0, [5, 7, 8, 9], [5, 7]),
        (ForCpu(0, DEVICE), 0, [5, 7, 8, 9], [5, 7]),
        (CpuWrite(0x100, &[3]), 0, [5, 7, 8, 9], [3, 7]),
        (Unmap(0, 0, DEVICE, 2), 0, [5, 7, 8, 9], [5, 7]),
    ];
    all_copied(rt, engine, pool, CALLS);
}

// To the card. It is copied in at map and at a sync for card, and never copied back: a sync for CPU and unmap leave the buffer as it is.
fn to_the_card<M: Mapper>(rt: &impl Abort, engine: &mut Engine<M>, pool: usize) {
    const CALLS: &[Moved] = &[
        (Map(0, 1, 0x100, 2), DEVICE, [1, 2, 0, 0], [1, 2]),
        // Card 1 has all of frame 0 to write, so the buffer changes while card 0 holds it.
        (Map(1, 2, 0, 4096), 0xfffff000, [1, 2, 0, 0], [1, 2]),
        (CardWrite(1, DEVICE, &[8]), 0, [1, 2, 0, 0], [8, 2]),
        (Unmap(1, 2, 0xfffff000, 4096), 0, [1, 2, 0, 0], [8, 2]),
        (ForCpu(0, DEVICE), 0, [1, 2, 0, 0], [8, 2]),
        (ForCard(0, DEVICE), 0, [8, 2, 0, 0], [8, 2]),
        (ForCpu(0, DEVICE), 0, [8, 2, 0, 0], [8, 2]),
        (CpuWrite(0x101, &[3]), 0, [8, 2, 0, 0], [8, 3]),
        (Unmap(0, 1, DEVICE, 2), 0, [8, 2, 0, 0], [8, 3]),
    ];
    all_copied(rt, engine, pool, CALLS);
}

// From the card. It is copied in at map all the same. A sync for CPU copies back, and so does unmap; a sync for card copies nothing, so
// what the CPU wrote in between is lost.
fn from_the_card<M: Mapper>(rt: &impl Abort, engine: &mut Engine<M>, pool: usize) {
    const CALLS: &[Moved] = &[
        (Map(0, 2, 0x100, 2), DEVICE, [1, 2, 0, 0], [1, 2]),
        (CardWrite(0, DEVICE, &[5]), 0, [5, 2, 0, 0], [1, 2]),
        (ForCpu(0, DEVICE), 0, [5, 2, 0, 0], [5, 2]),
        (CpuWrite(0x101, &[7]), 0, [5, 2, 0, 0], [5, 7]),
        (ForCard(0, DEVICE), 0, [5, 2, 0, 0], [5, 7]),
        (Unmap(0, 2, DEVICE, 2), 0, [5, 2, 0, 0], [5, 2]),
    ];
    all_copied(rt, engine, pool, CALLS);
}

// What each direction copies, where a buffer lands in this pool frame.
fn directions<M: Mapper>(rt: &impl Abort, engine: &mut Engine<M>, pool: usize) {
    both_ways(rt, engine, pool);
    to_the_card(rt, engine, pool);
    from_the_card(rt, engine, pool);
}

#[test]
fn directions_over_windows(rt: HostRuntime) {
    directions(&rt, &mut layer_over(windows(LAST)), 7);
}

#[test]
fn directions_over_tables(rt: HostRuntime) {
    let mut words = [0u64; 5120];
    directions(&rt, &mut layer_over(tables(LAST, 10, &mut words)), 7);
}

// The bytes move between buffer and outer pool; no byte of the lower pool changes.
#[test]
fn directions_over_a_layer_over_tables(rt: HostRuntime) {
    let mut words = [0u64; 5120];
    directions(&rt, &mut two_layers_over(tables(LAST, 10, &mut words)), 5);
}

// The buffer is all of frame 1 but the first and the last byte. The card writes the first and the last 64 bytes of the pool frame, of which
// 63 and 63 are the buffer's and come back, at the sync and at unmap. Bytes 0x1000 and 0x1fff are others', and stay.
fn spares_neighbours<M: Mapper>(rt: &impl Abort, engine: &mut Engine<M>, pool: usize) {
    let mut memory = [0xee; 32768];
    const FIRST: &[Step] = &[
        (Map(0, 0, 0x1001, 4094), Ok(0xfffff001)),
        (CardWrite(0, 0xfffff000, &[5; 64]), Ok(0)),
        (ForCpu(0, 0xfffff001), Ok(0)),
    ];
    all_told(rt, engine, &mut memory, FIRST);
    let start = placed([0xee; 32768], pool, 0, &[5; 64]);
    let half = placed(start, 1, 1, &[5; 63]);
    assert!(rt; memory == placed(half, pool, 0xfff, &[0]));
    const SECOND: &[Step] = &[
        (CardWrite(0, 0xffffffc0, &[6; 64]), Ok(0)),
        (Unmap(0, 0, 0xfffff001, 4094), Ok(0)),
    ];
    all_told(rt, engine, &mut memory, SECOND);
    let end = placed(half, pool, 0xfc0, &[6; 64]);
    assert!(rt; memory == placed(end, 1, 0xfc0, &[6; 63]));
}

#[test]
fn neighbours_over_windows(rt: HostRuntime) {
    spares_neighbours(&rt, &mut layer_over(windows(LAST)), 7);
}

#[test]
fn neighbours_over_a_layer_over_tables(rt: HostRuntime) {
    let mut words = [0u64; 5120];
    spares_neighbours(&rt, &mut two_layers_over(tables(LAST, 10, &mut words)), 5);
}

// Two cards have bytes of one frame: card 0 bytes 0x100 and 0x101, card 1 bytes 0x102 and 0x103. Each reads its own and zeros, and what it
// writes beside them comes back to no one.
#[test]
fn one_frame_for_two_cards(rt: HostRuntime) {
    let mut engine = layer_over(windows(LAST));
    let mut memory = placed([0xee; 32768], 0, 0x100, &[1, 2, 3, 4]);
    const MAPS: &[Step] = &[
        (Map(0, 0, 0x100, 2), Ok(DEVICE)),
        (Map(1, 0, 0x102, 2), Ok(0xfffff102)),
    ];
    all_told(&rt, &mut engine, &mut memory, MAPS);
    let read = card_bytes(&mut engine, &mut memory, 0, DEVICE);
    assert_eq!(rt; read, Ok([1, 2, 0, 0, 0, 0, 0, 0]));
    let read = card_bytes(&mut engine, &mut memory, 1, DEVICE);
    assert_eq!(rt; read, Ok([0, 0, 3, 4, 0, 0, 0, 0]));
    const WRITES: &[Step] = &[
        (CardWrite(0, DEVICE, &[5; 64]), Ok(0)),
        (CardWrite(1, 0xfffff0f0, &[6; 64]), Ok(0)),
    ];
    all_told(&rt, &mut engine, &mut memory, WRITES);
    let before = memory;
    const UNMAPS: &[Step] = &[
        (Unmap(0, 0, DEVICE, 2), Ok(0)),
        (Unmap(1, 0, 0xfffff102, 2), Ok(0)),
    ];
    all_told(&rt, &mut engine, &mut memory, UNMAPS);
    assert!(rt; memory == placed(before, 0, 0x100, &[5, 5, 6, 6]));
}

// The pool frame keeps its bytes when it is free again, and is cleared before the next card reaches it: 64 bytes of card 0 were there.
fn old_bytes_are_gone<M: Mapper>(rt: &impl Abort, engine: &mut Engine<M>, pool: usize) {
    let start = placed([0xee; 32768], 0, 0x200, &[7; 64]);
    let cleared = placed(start, pool, 0, &[0; 4096]);
    let mut memory = start;
    const FIRST: &[Step] = &[
        (Map(0, 0, 0x200, 64), Ok(0xfffff200)),
        (Unmap(0, 0, 0xfffff200, 64), Ok(0)),
    ];
    all_told(rt, engine, &mut memory, FIRST);
    assert!(rt; memory == placed(cleared, pool, 0x200, &[7; 64]));
    const SECOND: &[Step] = &[(Map(1, 0, 0x23c, 4), Ok(0xfffff23c))];
    all_told(rt, engine, &mut memory, SECOND);
    assert!(rt; memory == placed(cleared, pool, 0x23c, &[7; 4]));
    reads_its_own(rt, engine, &mut memory);
}

// Card 1 reads its 4 bytes, and 0 before and behind them.
fn reads_its_own<M: Mapper>(rt: &impl Abort, engine: &mut Engine<M>, memory: &mut [u8]) {
    assert_eq!(rt; card_bytes(engine, memory, 1, 0xfffff234), Ok([0; 8]));
    assert_eq!(rt;
        card_bytes(engine, memory, 1, 0xfffff23c),
        Ok([7, 7, 7, 7, 0, 0, 0, 0])
    );
}

#[test]
fn old_bytes_over_tables(rt: HostRuntime) {
    let mut words = [0u64; 5120];
    old_bytes_are_gone(&rt, &mut layer_over(tables(LAST, 10, &mut words)), 7);
}

#[test]
fn old_bytes_over_a_layer_over_windows(rt: HostRuntime) {
    old_bytes_are_gone(&rt, &mut two_layers_over(windows(LAST)), 5);
}

// 2 bytes from 0xfff on lie in two frames. They take the two pool frames, first byte last in the lower one, and two pages; an access goes
// to one page.
fn over_a_frame_edge<M: Mapper>(
    rt: &impl Abort,
    engine: &mut Engine<M>,
    lower: usize,
    upper: usize,
) {
    let start = placed([0xee; 32768], 0, 0xfff, &[1, 2]);
    let emptied = placed(start, lower, 0, &[0; 4096]);
    let cleared = placed(emptied, upper, 0, &[0; 4096]);
    let mut memory = start;
    const FIRST: &[Step] = &[
        (Map(0, 0, 0xfff, 2), Ok(0xffffefff)),
        (CardWrite(0, 0xffffefff, &[5, 6]), Err((13, 0, 0xffffefff))),
    ];
    all_told(rt, engine, &mut memory, FIRST);
    assert!(rt; memory == placed(cleared, lower, 0xfff, &[1, 2]));
    const SECOND: &[Step] = &[
        (CardWrite(0, 0xffffefff, &[5]), Ok(0)),
        (CardWrite(0, 0xfffff000, &[6, 7]), Ok(0)),
        (Unmap(0, 0, 0xffffefff, 2), Ok(0)),
    ];
    all_told(rt, engine, &mut memory, SECOND);
    let written = placed(cleared, lower, 0xfff, &[5, 6, 7]);
    assert!(rt; memory == placed(written, 0, 0xfff, &[5, 6]));
}

#[test]
fn a_frame_edge_over_windows(rt: HostRuntime) {
    over_a_frame_edge(&rt, &mut layer_over(windows(LAST)), 6, 7);
}

#[test]
fn a_frame_edge_over_a_layer_over_tables(rt: HostRuntime) {
    let mut words = [0u64; 5120];
    over_a_frame_edge(
        &rt,
        &mut two_layers_over(tables(LAST, 10, &mut words)),
        4,
        5,
    );
}

// Four whole frames go down as they are: each lands at its own address, so what the card writes is there at once, and no call moves a byte.
fn whole_frames<M: Mapper>(rt: &impl Abort, engine: &mut Engine<M>) {
    let start = placed([0xee; 32768], 2, 0x10, &[1, 2]);
    let mut memory = start;
    const FIRST: &[Step] = &[(Map(0, 0, 0, 16384), Ok(0xffffc000))];
    all_told(rt, engine, &mut memory, FIRST);
    assert!(rt; memory == start);
    const SECOND: &[Step] = &[(CardWrite(0, 0xffffe010, &[5]), Ok(0))];
    all_told(rt, engine, &mut memory, SECOND);
    assert!(rt; memory == placed(start, 2, 0x10, &[5]));
    const THIRD: &[Step] = &[
        (ForCpu(0, 0xffffc000), Ok(0)),
        (CpuWrite(0x2011, &[7]), Ok(0)),
        (ForCard(0, 0xffffc000), Ok(0)),
        (Unmap(0, 0, 0xffffc000, 16384), Ok(0)),
    ];
    all_told(rt, engine, &mut memory, THIRD);
    assert!(rt; memory == placed(start, 2, 0x10, &[5, 7]));
}

#[test]
fn whole_frames_over_tables(rt: HostRuntime) {
    let mut words = [0u64; 5120];
    whole_frames(&rt, &mut layer_over(tables(LAST, 10, &mut words)));
}

#[test]
fn whole_frames_over_a_layer_over_windows(rt: HostRuntime) {
    whole_frames(&rt, &mut two_layers_over(windows(LAST)));
}
