// Layers that may not stand: 17.
use crate::asking::Asked::{
    CardRead, CardWrite, CpuRead, CpuWrite, ForCard, ForCpu, Map, Reported, Unmap,
};
use crate::asking::{Refused, all_refused, ask};
use crate::piles::{LAST, tables, windows, windows_of};
use bounce::Bounce;
use engine::Engine;
use mapper::Mapper;
use std::process::Abort;
use units::{Buffer, Card, DeviceAddress, Frame, Request};

// The layer tells 17, and has no cards, no frames and nothing reserved, open or held.
fn has_nothing<M: Mapper>(layer: &Bounce<M>) -> bool {
    layer.refusal().map(u8::from) == Some(17)
        && layer.cards() == 0
        && layer.frames() == 0
        && layer.open_count() == 0
        && !layer.is_reserved(Frame(6))
        && !layer.is_held(0x1000)
        && layer
            .mapping_at(Card(0), DeviceAddress(0xfffff000))
            .is_none()
}

// A refused layer has nothing: a call with a card is 1, and a CPU access is 3 or, of 0 bytes of memory, 4 with place 0.
fn stands_not<M: Mapper + Drop>(rt: &impl Abort, layer: Bounce<M>) {
    assert!(rt; has_nothing(&layer));
    let mut engine = Engine::over(layer);
    let mut memory = [0x41; 32768];
    const CALLS: &[Refused] = &[
        (Map(0, 0, 0x1000, 4096), (1, 0, 0)),
        (Map(1, 3, 0x100, 0), (1, 0, 1)),
        (Unmap(0, 0, 0xfffff000, 4096), (1, 0, 0)),
        (ForCpu(0, 0xfffff000), (1, 0, 0)),
        (ForCard(1, 0xfffff000), (1, 0, 1)),
        (CardRead(0, 0xfffff000, 1), (1, 0, 0)),
        (CardWrite(0, 0xfffff000, &[1]), (1, 0, 0)),
        (Reported(0), (1, 0, 0)),
        (CpuRead(0x100, 0), (3, 0, 0)),
        (CpuWrite(0x100, &[1; 65]), (3, 0, 65)),
        (CpuRead(0x1000, 1), (4, 0, 0)),
        (CpuWrite(0, &[1]), (4, 0, 0)),
    ];
    all_refused(rt, &mut engine, &mut memory, &[], CALLS);
    assert_eq!(rt;
        ask(&mut engine, &mut [0; 0], CpuRead(0, 1)),
        Err((4, 0, 0))
    );
}

// The layer tells no refusal, has the cards and frames below, and its pool reserved.
fn stands<M: Mapper + Drop>(rt: &impl Abort, layer: Bounce<M>, frames: u32, first: u32, last: u32) {
    assert!(rt; layer.refusal().is_none() && layer.cards() == 2 && layer.frames() == frames);
    assert!(rt; layer.is_reserved(Frame(first)) && layer.is_reserved(Frame(last)));
}

#[test]
fn a_pool_has_1_to_16_frames(rt: HostRuntime) {
    stands_not(&rt, Bounce::over(windows(LAST), Frame(6), 0));
    stands_not(&rt, Bounce::over(windows_of(LAST, 32), Frame(0), 17));
    stands(&rt, Bounce::over(windows(LAST), Frame(6), 1), 8, 6, 6);
    stands(
        &rt,
        Bounce::over(windows_of(LAST, 32), Frame(0), 16),
        32,
        0,
        15,
    );
}

#[test]
fn a_pool_ends_inside_memory(rt: HostRuntime) {
    stands_not(&rt, Bounce::over(windows(LAST), Frame(7), 2));
    stands_not(&rt, Bounce::over(windows(LAST), Frame(8), 1));
    stands_not(&rt, Bounce::over(windows(LAST), Frame(4294967295), 16));
    stands(&rt, Bounce::over(windows(LAST), Frame(7), 1), 8, 7, 7);
    // All of memory.
    stands(&rt, Bounce::over(windows(LAST), Frame(0), 8), 8, 0, 7);
}

#[test]
fn a_pool_over_tables(rt: HostRuntime) {
    let mut words = [0u64; 5120];
    let mut others = [0u64; 5120];
    let mut further = [0u64; 5120];
    stands_not(&rt, Bounce::over(tables(LAST, 10, &mut words), Frame(6), 0));
    stands_not(
        &rt,
        Bounce::over(tables(LAST, 10, &mut others), Frame(7), 2),
    );
    stands(
        &rt,
        Bounce::over(tables(LAST, 10, &mut further), Frame(6), 2),
        8,
        6,
        7,
    );
}

// Frames 4 and 5 are the pool below.
#[test]
fn no_frame_of_a_pool_is_reserved_below(rt: HostRuntime) {
    let lower = || Bounce::over(windows(LAST), Frame(4), 2);
    stands_not(&rt, Bounce::over(lower(), Frame(3), 2));
    stands_not(&rt, Bounce::over(lower(), Frame(4), 2));
    stands_not(&rt, Bounce::over(lower(), Frame(5), 1));
    stands_not(&rt, Bounce::over(lower(), Frame(2), 6));
    stands(&rt, Bounce::over(lower(), Frame(2), 2), 8, 2, 5);
    stands(&rt, Bounce::over(lower(), Frame(6), 2), 8, 4, 7);
}

// A refused mapper has no frames, so no pool ends inside its memory. The same of a refused layer.
#[test]
fn no_layer_stands_over_a_refused_mapper(rt: HostRuntime) {
    stands_not(&rt, Bounce::over(windows(0), Frame(0), 1));
    let lower = Bounce::over(windows(LAST), Frame(6), 0);
    stands_not(&rt, Bounce::over(lower, Frame(4), 2));
}

// One whole frame for card 0.
fn frame() -> Request {
    Request {
        card: Card(0),
        direction: 0,
        buffer: Buffer {
            address: 0x1000,
            length: 4096,
        },
    }
}

// With a mapping open below, which stays as it was, no layer stands; nor does one over a layer with a mapping open.
#[test]
fn no_layer_stands_over_open_windows(rt: HostRuntime) {
    let mut lower = windows(LAST);
    let mut memory = [0u8; 32768];
    assert_eq!(rt;
        lower.map(&mut memory, frame()),
        Ok(DeviceAddress(0xfffff000))
    );
    let table = lower.table;
    let layer = Bounce::over(lower, Frame(6), 2);
    assert!(rt; layer.lower.refusal().is_none() && layer.lower.open_count() == 1);
    assert!(rt; layer.lower.table == table);
    stands_not(&rt, layer);
}

#[test]
fn no_layer_stands_over_an_open_layer(rt: HostRuntime) {
    let mut words = [0u64; 5120];
    let mut lower = Bounce::over(tables(LAST, 10, &mut words), Frame(6), 2);
    let mut memory = [0u8; 32768];
    assert_eq!(rt;
        lower.map(&mut memory, frame()),
        Ok(DeviceAddress(0xfffff000))
    );
    let layer = Bounce::over(lower, Frame(4), 2);
    assert!(rt; layer.lower.refusal().is_none() && layer.lower.open_count() == 1);
    stands_not(&rt, layer);
}

// Once nothing is open below, one stands.
#[test]
fn a_layer_stands_once_all_is_unmapped(rt: HostRuntime) {
    let mut engine = Engine::over(windows(LAST));
    let mut memory = [0u8; 32768];
    assert_eq!(rt;
        ask(&mut engine, &mut memory, Map(0, 0, 0x1000, 4096)),
        Ok(0xfffff000)
    );
    assert_eq!(rt;
        ask(&mut engine, &mut memory, Unmap(0, 0, 0xfffff000, 4096)),
        Ok(0)
    );
    let Engine { mapper, .. } = engine;
    stands(&rt, Bounce::over(mapper, Frame(6), 2), 8, 6, 7);
}
