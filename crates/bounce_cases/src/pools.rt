// Which frames of a pool a buffer takes, and when they are free again.
use crate::asking::Asked::{CpuWrite, Map, Unmap};
use crate::asking::{Step, all_told, are_open, card_bytes, held};
use crate::piles::{LAST, layer_over, pool_over, tables, two_layers_over, windows, windows_of};
use engine::Engine;
use mapper::Mapper;
use std::process::Abort;

// A pool of two frames is full after two buffers of one frame, has room for one again after an unmap, and is full after one buffer that
// lies in two frames. While it is full, a whole buffer is mapped as ever. These are the addresses of the two frames.
fn two_frames<M: Mapper>(rt: &impl Abort, engine: &mut Engine<M>, lower: u32, upper: u32) {
    let mut memory = [0x41; 32768];
    const FIRST: &[Step] = &[
        (Map(0, 0, 0x100, 2), Ok(0xfffff100)),
        (Map(1, 0, 0x1200, 2), Ok(0xfffff200)),
        (Map(0, 1, 0x300, 4), Err((9, 0, 1))),
        (Map(1, 2, 0xfff, 4098), Err((9, 0, 3))),
        (Map(0, 0, 0x1000, 8192), Ok(0xffffd000)),
    ];
    all_told(rt, engine, &mut memory, FIRST);
    are_open(
        rt,
        &engine.mapper,
        &[
            held(0, 0x100, 2, 0xfffff100, upper | 0x100),
            held(1, 0x1200, 2, 0xfffff200, lower | 0x200),
            held(0, 0x1000, 8192, 0xffffd000, 0x1000),
        ],
    );
    const SECOND: &[Step] = &[
        (Unmap(0, 0, 0xfffff100, 2), Ok(0)),
        (Map(0, 0, 0xfff, 2), Err((9, 0, 2))),
        (Map(1, 0, 0x300, 4), Ok(0xffffe300)),
    ];
    all_told(rt, engine, &mut memory, SECOND);
    let third = [held(1, 0x300, 4, 0xffffe300, upper | 0x300)];
    are_open(rt, &engine.mapper, &third);
    // Card 0's pages 0xffffd and 0xffffe are open, so it has two pages that adjoin only below them.
    const THIRD: &[Step] = &[
        (Unmap(1, 0, 0xfffff200, 2), Ok(0)),
        (Unmap(1, 0, 0xffffe300, 4), Ok(0)),
        (Map(0, 0, 0xfff, 2), Ok(0xffffbfff)),
        (Map(1, 0, 0x100, 2), Err((9, 0, 1))),
    ];
    all_told(rt, engine, &mut memory, THIRD);
    let both = [held(0, 0xfff, 2, 0xffffbfff, lower | 0xfff)];
    are_open(rt, &engine.mapper, &both);
}

#[test]
fn two_frames_over_windows(rt: HostRuntime) {
    two_frames(&rt, &mut layer_over(windows(LAST)), 0x6000, 0x7000);
}

#[test]
fn two_frames_over_tables(rt: HostRuntime) {
    let mut words = [0u64; 5120];
    two_frames(
        &rt,
        &mut layer_over(tables(LAST, 10, &mut words)),
        0x6000,
        0x7000,
    );
}

// The outer pool alone counts: it is full though the lower one has two frames, of which none is ever lent.
#[test]
fn two_frames_over_a_layer_over_tables(rt: HostRuntime) {
    let mut words = [0u64; 5120];
    let mut engine = two_layers_over(tables(LAST, 10, &mut words));
    let lower = engine.mapper.lower.pool;
    two_frames(&rt, &mut engine, 0x4000, 0x5000);
    assert_eq!(rt; engine.mapper.lower.pool, lower);
}

// What the layer below has open is the pool frame, whole, on its page. It lent nothing of its own, so the windows have just the same open.
#[test]
fn the_layer_below_sees_a_whole_frame(rt: HostRuntime) {
    let mut engine = two_layers_over(windows(LAST));
    const CALLS: &[Step] = &[(Map(0, 0, 0x100, 2), Ok(0xfffff100))];
    all_told(&rt, &mut engine, &mut [0x41; 32768], CALLS);
    let frame = [held(0, 0x5000, 4096, 0xfffff000, 0x5000)];
    are_open(&rt, &engine.mapper.lower, &frame);
    are_open(&rt, &engine.mapper.lower.lower, &frame);
}

// Pool frames 8 to 15 of 16 frames. Of the gaps with room the smallest is taken, of equal ones the higher, and there the highest frames.
#[test]
fn gaps_of_a_pool(rt: HostRuntime) {
    let mut engine = pool_over(windows_of(LAST, 16), 8, 8);
    let mut memory = [0x41; 65536];
    // From the top down: frames 14 and 15, then 13, 12 and 11, then 9 and 10; 8 is left. The pages go down likewise.
    const FIRST: &[Step] = &[
        (Map(0, 0, 0xfff, 2), Ok(0xffffefff)),
        (Map(0, 0, 0x10, 2), Ok(0xffffd010)),
        (Map(0, 0, 0x20, 2), Ok(0xffffc020)),
        (Map(0, 0, 0x30, 2), Ok(0xffffb030)),
        (Map(0, 0, 0x1fff, 2), Ok(0xffff9fff)),
    ];
    all_told(&rt, &mut engine, &mut memory, FIRST);
    are_open(
        &rt,
        &engine.mapper,
        &[
            held(0, 0xfff, 2, 0xffffefff, 0xefff),
            held(0, 0x10, 2, 0xffffd010, 0xd010),
            held(0, 0x20, 2, 0xffffc020, 0xc020),
            held(0, 0x30, 2, 0xffffb030, 0xb030),
            held(0, 0x1fff, 2, 0xffff9fff, 0x9fff),
        ],
    );
    // Frames 8 and 12 are free, and do not adjoin. Then the gaps are 8, 12, and 14 to 15. Card 1 takes 12, the higher of the smallest; then
    // 8, the smallest; then 15.
    const SECOND: &[Step] = &[
        (Unmap(0, 0, 0xffffc020, 2), Ok(0)),
        (Map(0, 0, 0xfff, 2), Err((9, 0, 2))),
        (Unmap(0, 0, 0xffffefff, 2), Ok(0)),
        (Map(1, 0, 0x40, 2), Ok(0xfffff040)),
        (Map(1, 0, 0x50, 2), Ok(0xffffe050)),
        (Map(1, 0, 0x60, 2), Ok(0xffffd060)),
    ];
    all_told(&rt, &mut engine, &mut memory, SECOND);
    are_open(
        &rt,
        &engine.mapper,
        &[
            held(1, 0x40, 2, 0xfffff040, 0xc040),
            held(1, 0x50, 2, 0xffffe050, 0x8050),
            held(1, 0x60, 2, 0xffffd060, 0xf060),
        ],
    );
}

// A buffer of 8 frames over the largest pool, frames 16 to 31 of 32: 28,689 bytes from 0x1010 on, of which the last, 0x8020, is in frame 8.
// It takes the higher half of the pool, a second one the other half, and then there is no room even for one byte.
#[test]
fn eight_frames_in_a_pool_of_sixteen(rt: HostRuntime) {
    let mut engine = pool_over(windows_of(LAST, 32), 16, 16);
    let mut memory = [0x41; 131072];
    const FIRST: &[Step] = &[
        (CpuWrite(0x1010, &[1]), Ok(0)),
        (CpuWrite(0x8020, &[2]), Ok(0)),
        (Map(0, 0, 0x1010, 28689), Ok(0xffff8010)),
    ];
    all_told(&rt, &mut engine, &mut memory, FIRST);
    // The first and the last byte, and what the card finds before and behind.
    let read = card_bytes(&mut engine, &mut memory, 0, 0xffff800e);
    assert_eq!(rt; read, Ok([0, 0, 1, 0x41, 0x41, 0x41, 0x41, 0x41]));
    let read = card_bytes(&mut engine, &mut memory, 0, 0xfffff01e);
    assert_eq!(rt; read, Ok([0x41, 0x41, 2, 0, 0, 0, 0, 0]));
    const SECOND: &[Step] = &[
        (Map(0, 0, 0x1010, 28689), Ok(0xffff0010)),
        (Map(1, 0, 0x1010, 28689), Err((9, 0, 8))),
        (Map(1, 0, 0, 1), Err((9, 0, 1))),
        (Map(1, 0, 0, 32768), Ok(0xffff8000)),
    ];
    all_told(&rt, &mut engine, &mut memory, SECOND);
    are_open(
        &rt,
        &engine.mapper,
        &[
            held(0, 0x1010, 28689, 0xffff8010, 0x18010),
            held(0, 0x1010, 28689, 0xffff0010, 0x10010),
        ],
    );
    const THIRD: &[Step] = &[
        (Unmap(0, 0, 0xffff8010, 28689), Ok(0)),
        (Map(1, 0, 0xfff, 4098), Ok(0xffff5fff)),
    ];
    all_told(&rt, &mut engine, &mut memory, THIRD);
    are_open(
        &rt,
        &engine.mapper,
        &[held(1, 0xfff, 4098, 0xffff5fff, 0x1dfff)],
    );
}
