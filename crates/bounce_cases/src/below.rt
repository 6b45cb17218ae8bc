// The refusals of the choice, 9 to 12, and the blocks, 14 and 15, over one layer and over two. 9 is of the outermost layer, so its layer
// is 0; 10 to 12 come from below, and each layer adds one; the layer of a block stays 0.
use crate::asking::Asked::{CardRead, CardWrite, Map, Unmap};
use crate::asking::{Asked, Step, all_refused, all_told, ask, held};
use crate::piles::{LAST, layer_over, tables, two_layers_over, windows};
use engine::Engine;
use mapper::Mapper;
use std::process::Abort;
use units::{Block, Card, DeviceAddress, FaultKind, Report};

// What card 0 is given first in most of these tests: 2 bytes at 0x100, not whole, at its highest page.
const DEVICE: u64 = 0xfffff100;

// Each card has one device page. Where none is free it is 10; before that 9, of a buffer that is not whole and finds no pool frames.
fn one_page<M: Mapper>(rt: &impl Abort, engine: &mut Engine<M>, layers: u32) {
    let mut memory = [0x41; 32768];
    all_refused(
        rt,
        engine,
        &mut memory,
        &[],
        &[
            (Map(0, 0, 0xfff, 2), (10, layers, 2)),
            (Map(0, 0, 0, 8192), (10, layers, 2)),
            (Map(0, 0, 0xfff, 4098), (9, 0, 3)),
        ],
    );
    const FIRST: &[Step] = &[(Map(0, 0, 0x100, 2), Ok(0x1100))];
    all_told(rt, engine, &mut memory, FIRST);
    all_refused(
        rt,
        engine,
        &mut memory,
        &[],
        &[
            (Map(0, 1, 0x200, 2), (10, layers, 1)),
            (Map(0, 2, 0x1000, 4096), (10, layers, 1)),
            (Map(0, 0, 0xfff, 2), (9, 0, 2)),
        ],
    );
    // Card 1 has a page of its own, and takes the other pool frame.
    const SECOND: &[Step] = &[(Map(1, 0, 0x200, 2), Ok(0x1200))];
    all_told(rt, engine, &mut memory, SECOND);
    all_refused(
        rt,
        engine,
        &mut memory,
        &[],
        &[
            (Map(0, 0, 0x300, 2), (9, 0, 1)),
            (Map(0, 0, 0x1000, 4096), (10, layers, 1)),
        ],
    );
}

#[test]
fn one_page_over_windows(rt: HostRuntime) {
    one_page(&rt, &mut layer_over(windows(1)), 1);
}

#[test]
fn one_page_over_tables(rt: HostRuntime) {
    let mut words = [0u64; 5120];
    one_page(&rt, &mut layer_over(tables(1, 10, &mut words)), 1);
}

#[test]
fn one_page_over_a_layer_over_windows(rt: HostRuntime) {
    one_page(&rt, &mut two_layers_over(windows(1)), 2);
}

// All but two of the windows or records go to whole buffers of card 0, and these two to bounced buffers of card 1, which fill the pool.
// Then a bounced buffer finds no frame, 9, and a whole one no record, 11. With a pool frame free again, and no record, both are 11.
fn no_record<M: Mapper>(rt: &impl Abort, engine: &mut Engine<M>, layers: u32, records: u64) {
    let mut memory = [0x41; 32768];
    // Pages 0xfffff, 0xffffe and so on.
    let mut device = 0xfffff000;
    for _ in 2..records {
        assert_eq!(rt;
            ask(engine, &mut memory, Map(0, 0, 0x1000, 4096)),
            Ok(device)
        );
        device = device.saturating_sub(4096);
    }
    const FIRST: &[Step] = &[
        (Map(1, 0, 0x100, 2), Ok(DEVICE)),
        (Map(1, 0, 0x200, 2), Ok(0xffffe200)),
    ];
    all_told(rt, engine, &mut memory, FIRST);
    all_refused(
        rt,
        engine,
        &mut memory,
        &[held(0, 0x1000, 4096, 0xfffff000, 0x1000)],
        &[
            (Map(0, 0, 0x300, 2), (9, 0, 1)),
            (Map(0, 0, 0x2000, 4096), (11, layers, records)),
            (Map(1, 1, 0x2000, 4096), (11, layers, records)),
        ],
    );
    const SECOND: &[Step] = &[
        (Unmap(1, 0, 0xffffe200, 2), Ok(0)),
        (Map(1, 0, 0x1000, 4096), Ok(0xffffe000)),
    ];
    all_told(rt, engine, &mut memory, SECOND);
    all_refused(
        rt,
        engine,
        &mut memory,
        &[],
        &[
            (Map(0, 0, 0x300, 2), (11, layers, records)),
            (Map(1, 2, 0x300, 2), (11, layers, records)),
            (Map(0, 0, 0x2000, 4096), (11, layers, records)),
            (Map(0, 0, 0xfff, 2), (9, 0, 2)),
        ],
    );
}

#[test]
fn eight_windows(rt: HostRuntime) {
    no_record(&rt, &mut layer_over(windows(LAST)), 1, 8);
}

#[test]
fn eight_windows_below_two_layers(rt: HostRuntime) {
    no_record(&rt, &mut two_layers_over(windows(LAST)), 2, 8);
}

#[test]
fn thirty_two_records(rt: HostRuntime) {
    let mut words = [0u64; 5120];
    no_record(&rt, &mut layer_over(tables(LAST, 10, &mut words)), 1, 32);
}

#[test]
fn thirty_two_records_below_two_layers(rt: HostRuntime) {
    let mut words = [0u64; 5120];
    no_record(
        &rt,
        &mut two_layers_over(tables(LAST, 10, &mut words)),
        2,
        32,
    );
}

// Of 5 tables 2 are the cards' roots, and card 0 takes the other 3. Card 1 would lack 3. Card 0's next page lies in the same tables.
fn five_tables<M: Mapper>(rt: &impl Abort, engine: &mut Engine<M>, layers: u32) {
    let mut memory = [0x41; 32768];
    const CALLS: &[Step] = &[(Map(0, 0, 0x100, 2), Ok(DEVICE))];
    all_told(rt, engine, &mut memory, CALLS);
    all_refused(
        rt,
        engine,
        &mut memory,
        &[],
        &[
            (Map(1, 0, 0x200, 2), (12, layers, 3)),
            (Map(1, 0, 0x1000, 4096), (12, layers, 3)),
        ],
    );
    // With the pool full 9 comes first. The tables are free again once both mappings are closed.
    all_told(
        rt,
        engine,
        &mut memory,
        &[
            (Map(0, 0, 0x200, 2), Ok(0xffffe200)),
            (Map(1, 0, 0x300, 2), Err((9, 0, 1))),
            (Map(1, 0, 0x1000, 4096), Err((12, layers, 3))),
            (Unmap(0, 0, DEVICE, 2), Ok(0)),
            (Map(1, 0, 0x300, 2), Err((12, layers, 3))),
            (Unmap(0, 0, 0xffffe200, 2), Ok(0)),
            (Map(1, 0, 0x300, 2), Ok(0xfffff300)),
        ],
    );
}

#[test]
fn five_tables_below_one_layer(rt: HostRuntime) {
    let mut words = [0u64; 2560];
    five_tables(&rt, &mut layer_over(tables(LAST, 5, &mut words)), 1);
}

#[test]
fn five_tables_below_two_layers(rt: HostRuntime) {
    let mut words = [0u64; 2560];
    five_tables(&rt, &mut two_layers_over(tables(LAST, 5, &mut words)), 2);
}

// Of 5 tables 3 are free. A card's last page is the first of a table of level 1, so its last two pages lie in two: together they lack
// `pair` tables; and once the last is mapped, at `device`, the page before it lacks `next`.
fn at_a_border<M: Mapper>(
    rt: &impl Abort,
    engine: &mut Engine<M>,
    layers: u32,
    pair: u64,
    device: u64,
    next: u64,
) {
    let mut memory = [0x41; 32768];
    all_refused(
        rt,
        engine,
        &mut memory,
        &[],
        &[
            (Map(0, 0, 0xfff, 2), (12, layers, pair)),
            (Map(1, 0, 0x1000, 8192), (12, layers, pair)),
        ],
    );
    all_told(
        rt,
        engine,
        &mut memory,
        &[(Map(0, 0, 0x1000, 4096), Ok(device))],
    );
    all_refused(
        rt,
        engine,
        &mut memory,
        &[held(0, 0x1000, 4096, device, 0x1000)],
        &[
            (Map(0, 0, 0x100, 2), (12, layers, next)),
            (Map(0, 0, 0x1000, 4096), (12, layers, next)),
            (Map(1, 0, 0x100, 2), (12, layers, 3)),
        ],
    );
}

// Pages 511 and 512: two tables of level 1, one of level 2 and one of level 3. Page 511 alone then lacks its table of level 1.
#[test]
fn pages_of_two_tables_of_level_1(rt: HostRuntime) {
    let mut words = [0u64; 2560];
    let mut engine = layer_over(tables(512, 5, &mut words));
    at_a_border(&rt, &mut engine, 1, 4, 0x200000, 1);
}

// Pages 2^18 - 1 and 2^18: two tables of level 1, two of level 2 and one of level 3. The lower page alone then lacks two.
#[test]
fn pages_of_two_tables_of_level_2(rt: HostRuntime) {
    let mut words = [0u64; 2560];
    let mut engine = layer_over(tables(0x40000, 5, &mut words));
    at_a_border(&rt, &mut engine, 1, 5, 0x40000000, 2);
}

// Pages 2^27 - 1 and 2^27: two tables of each level from 1 to 3.
#[test]
fn pages_of_two_tables_of_level_3(rt: HostRuntime) {
    let mut words = [0u64; 2560];
    let mut engine = layer_over(tables(0x8000000, 5, &mut words));
    at_a_border(&rt, &mut engine, 1, 6, 0x8000000000, 3);
}

// What is told of a card of which so many accesses were blocked, and the latest since nothing is reached there.
fn absent(count: u32, device: u64, level: u64) -> Report {
    Report {
        count,
        latest: Some(Block {
            device: DeviceAddress(device),
            kind: FaultKind::Absent,
            level,
        }),
    }
}

// Card 0 may read at page 0xfffff and write at page 0xffffe, and card 1 reaches nothing. Over tables a block has the level where the walk
// ends, and over windows level 0. No byte changes.
fn all_blocked<M: Mapper>(
    rt: &impl Abort,
    engine: &mut Engine<M>,
    memory: &mut [u8; 32768],
    walks: bool,
) {
    const BLOCKED: &[(Asked, u8, u64)] = &[
        (CardWrite(0, DEVICE, &[1, 2]), 15, 1),
        (CardRead(0, 0xffffe200, 2), 15, 1),
        // Of the same table of level 1, then of level 2, then of level 3, then of the root alone.
        (CardRead(0, 0xffffd100, 1), 14, 1),
        (CardRead(0, 0xffdff100, 1), 14, 2),
        (CardWrite(0, 0x3ffff100, &[1]), 14, 3),
        (CardRead(0, 0, 1), 14, 3),
        (CardRead(0, 0x8000000000, 1), 14, 4),
        (CardWrite(0, 0xffffffffffff, &[1]), 14, 4),
        // Card 1's walk ends at its root.
        (CardRead(1, DEVICE, 1), 14, 4),
        (CardWrite(1, 0xffffe200, &[1]), 14, 4),
    ];
    let before = *memory;
    for &(asked, number, level) in BLOCKED {
        let level = if walks { level } else { 0 };
        assert_eq!(rt; ask(engine, memory, asked), Err((number, 0, level)));
        assert!(rt; *memory == before);
    }
}

// Each block is counted for its card, and the latest is told.
fn blocks<M: Mapper>(rt: &impl Abort, engine: &mut Engine<M>, walks: bool) {
    let mut memory = [0x41; 32768];
    const CALLS: &[Step] = &[
        (Map(0, 1, 0x100, 2), Ok(DEVICE)),
        (Map(0, 2, 0x200, 2), Ok(0xffffe200)),
        (CardRead(0, DEVICE, 2), Ok(0)),
        (CardWrite(0, 0xffffe200, &[1]), Ok(0)),
    ];
    all_told(rt, engine, &mut memory, CALLS);
    all_blocked(rt, engine, &mut memory, walks);
    let level = if walks { 4 } else { 0 };
    assert!(rt; engine.report(Card(0)) == Ok(absent(8, 0xffffffffffff, level)));
    assert!(rt; engine.report(Card(1)) == Ok(absent(2, 0xffffe200, level)));
}

#[test]
fn blocks_over_windows(rt: HostRuntime) {
    blocks(&rt, &mut layer_over(windows(LAST)), false);
}

#[test]
fn blocks_over_tables(rt: HostRuntime) {
    let mut words = [0u64; 5120];
    blocks(&rt, &mut layer_over(tables(LAST, 10, &mut words)), true);
}

#[test]
fn blocks_over_a_layer_over_tables(rt: HostRuntime) {
    let mut words = [0u64; 5120];
    blocks(
        &rt,
        &mut two_layers_over(tables(LAST, 10, &mut words)),
        true,
    );
}
