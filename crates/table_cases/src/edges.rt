// Spans that lie on either side of an edge between two tables. The last page of the card is chosen so that the highest pages, which
// a first map takes, straddle the edge.
use crate::asked::Asked::{Byte, CardRead, CardWrite, Map, Unmap, Words};
use crate::asked::{Step, Told, ask, engine, first_other};

// Pages 511 and 512, with indices 0, 0, 0, 511 and 0, 0, 1, 0: one table at levels 3 and 2 each, and two at level 1.
#[test]
fn across_a_level_1_edge(rt: HostRuntime) {
    let mut words = [0u64; 2560];
    let mut memory = [0u8; 32768];
    let mut engine = engine(1, 512, 8, 5, &mut words);
    memory[0x2fff] = 0x11;
    memory[0x3000] = 0x22;
    const STEPS: &[Step] = &[
        // Frames 2 and 3.
        (Map(0, 0, 0x2000, 8192), Ok(0x1ff000)),
        // One word of the root and of level 3 each, two of level 2, one in each of two tables of level 1.
        (Words, Ok(6)),
        (CardRead(0, 0x1fffff, 1), Ok(0x11)),
        (CardRead(0, 0x200000, 1), Ok(0x22)),
        (CardWrite(0, 0x1ffffe, &[0x33, 0x44]), Ok(0)),
        (CardWrite(0, 0x200000, &[0x55]), Ok(0)),
        // An access lies in one page, so none goes over the edge.
        (CardWrite(0, 0x1fffff, &[1, 2]), Err((13, 0, 0x1fffff))),
        (Byte(0x2ffe), Ok(0x33)),
        (Byte(0x2fff), Ok(0x44)),
        (Byte(0x3000), Ok(0x55)),
        (Byte(0x3001), Ok(0)),
        // Beside the span, page 510 and page 513: their tables of level 1 are there.
        (CardRead(0, 0x1fe000, 1), Err((14, 0, 1))),
        (CardRead(0, 0x201000, 1), Err((14, 0, 1))),
        // Page 0x400, indices 0, 0, 2, 0; page 0x40000, indices 0, 1, 0, 0; page 0x8000000, indices 1, 0, 0, 0.
        (CardRead(0, 0x400000, 1), Err((14, 0, 2))),
        (CardRead(0, 0x40000000, 1), Err((14, 0, 3))),
        (CardRead(0, 0x8000000000, 1), Err((14, 0, 4))),
        (Unmap(0, 0, 0x1ff000, 8192), Ok(0)),
        (Words, Ok(0)),
        (CardRead(0, 0x1fffff, 1), Err((14, 0, 4))),
        (CardRead(0, 0x200000, 1), Err((14, 0, 4))),
    ];
    assert_eq!(rt; first_other(&mut engine, &mut memory, STEPS), None);
}

// Pages 0x3ffff and 0x40000, with indices 0, 0, 511, 511 and 0, 1, 0, 0: one table at level 3, two at level 2, two at level 1.
#[test]
fn across_a_level_2_edge(rt: HostRuntime) {
    let mut words = [0u64; 3072];
    let mut memory = [0u8; 32768];
    let mut engine = engine(1, 0x40000, 8, 6, &mut words);
    memory[0x2fff] = 0x11;
    memory[0x3000] = 0x22;
    const STEPS: &[Step] = &[
        (Map(0, 0, 0x2000, 8192), Ok(0x3ffff000)),
        // One word of the root, two of level 3, one in each of two tables at levels 2 and 1.
        (Words, Ok(7)),
        (CardRead(0, 0x3fffffff, 1), Ok(0x11)),
        (CardRead(0, 0x40000000, 1), Ok(0x22)),
        (CardWrite(0, 0x3ffffffe, &[0x33, 0x44]), Ok(0)),
        (CardWrite(0, 0x40000000, &[0x55]), Ok(0)),
        (CardWrite(0, 0x3fffffff, &[1, 2]), Err((13, 0, 0x3fffffff))),
        (Byte(0x2ffe), Ok(0x33)),
        (Byte(0x2fff), Ok(0x44)),
        (Byte(0x3000), Ok(0x55)),
        (Byte(0x3001), Ok(0)),
        // Pages 0x3fffe and 0x40001.
        (CardRead(0, 0x3fffe000, 1), Err((14, 0, 1))),
        (CardRead(0, 0x40001000, 1), Err((14, 0, 1))),
        // Page 0x3fdff, indices 0, 0, 510, 511, and page 0x40200, indices 0, 1, 1, 0.
        (CardRead(0, 0x3fdff000, 1), Err((14, 0, 2))),
        (CardRead(0, 0x40200000, 1), Err((14, 0, 2))),
        // Page 0x80000, indices 0, 2, 0, 0, and page 0x8000000, indices 1, 0, 0, 0.
        (CardRead(0, 0x80000000, 1), Err((14, 0, 3))),
        (CardRead(0, 0x8000000000, 1), Err((14, 0, 4))),
        (Unmap(0, 0, 0x3ffff000, 8192), Ok(0)),
        (Words, Ok(0)),
        (CardRead(0, 0x3fffffff, 1), Err((14, 0, 4))),
        (CardRead(0, 0x40000000, 1), Err((14, 0, 4))),
    ];
    assert_eq!(rt; first_other(&mut engine, &mut memory, STEPS), None);
}

// Pages 0x7ffffff and 0x8000000, with indices 0, 511, 511, 511 and 1, 0, 0, 0: two tables at each level.
#[test]
fn across_a_level_3_edge(rt: HostRuntime) {
    let mut words = [0u64; 3584];
    let mut memory = [0u8; 32768];
    let mut engine = engine(1, 0x8000000, 8, 7, &mut words);
    memory[0x2fff] = 0x11;
    memory[0x3000] = 0x22;
    const STEPS: &[Step] = &[
        (Map(0, 0, 0x2000, 8192), Ok(0x7ffffff000)),
        // Two words at each level.
        (Words, Ok(8)),
        (CardRead(0, 0x7fffffffff, 1), Ok(0x11)),
        (CardRead(0, 0x8000000000, 1), Ok(0x22)),
        (CardWrite(0, 0x7ffffffffe, &[0x33, 0x44]), Ok(0)),
        (CardWrite(0, 0x8000000000, &[0x55]), Ok(0)),
        (
            CardWrite(0, 0x7fffffffff, &[1, 2]),
            Err((13, 0, 0x7fffffffff)),
        ),
        (Byte(0x2ffe), Ok(0x33)),
        (Byte(0x2fff), Ok(0x44)),
        (Byte(0x3000), Ok(0x55)),
        (Byte(0x3001), Ok(0)),
        // Pages 0x7fffffe and 0x8000001.
        (CardRead(0, 0x7fffffe000, 1), Err((14, 0, 1))),
        (CardRead(0, 0x8000001000, 1), Err((14, 0, 1))),
        // Page 0x8000200, indices 1, 0, 1, 0.
        (CardRead(0, 0x8000200000, 1), Err((14, 0, 2))),
        // Page 0x8040000, indices 1, 1, 0, 0, and page 0: of the table of level 3 above it only word 511 leads on.
        (CardRead(0, 0x8040000000, 1), Err((14, 0, 3))),
        (CardRead(0, 0, 1), Err((14, 0, 3))),
        // Page 0x10000000, indices 2, 0, 0, 0.
        (CardRead(0, 0x10000000000, 1), Err((14, 0, 4))),
        (Unmap(0, 0, 0x7ffffff000, 8192), Ok(0)),
        (Words, Ok(0)),
        (CardRead(0, 0x7fffffffff, 1), Err((14, 0, 4))),
        (CardRead(0, 0x8000000000, 1), Err((14, 0, 4))),
    ];
    assert_eq!(rt; first_other(&mut engine, &mut memory, STEPS), None);
}

// What a first map of two pages is told over new tables.
fn two_pages(last: u64, count: u8, words: &mut [u64]) -> Told {
    let mut memory = [0u8; 32768];
    let mut engine = engine(1, last, 8, count, words);
    ask(&mut engine, &mut memory, Map(0, 0, 0x2000, 8192))
}

// Within one table of level 1 a span lacks 3 tables, across an edge of level 1, 2 and 3 it lacks 4, 5 and 6. With the root that makes
// 4 to 7 tables, and with one less the map is refused. The place is all that it lacks, though only one of them is not free.
#[test]
fn each_higher_edge_takes_one_table_more(rt: HostRuntime) {
    let mut inside = [0u64; 2048];
    let mut first = [0u64; 2048];
    let mut second = [0u64; 2560];
    let mut third = [0u64; 3072];
    assert_eq!(rt; two_pages(511, 4, &mut inside), Ok(0x1fe000));
    assert_eq!(rt; two_pages(512, 4, &mut first), Err((12, 0, 4)));
    assert_eq!(rt; two_pages(0x40000, 5, &mut second), Err((12, 0, 5)));
    assert_eq!(rt; two_pages(0x8000000, 6, &mut third), Err((12, 0, 6)));
}

// Pages 508 to 515 are frames 0 to 7: the edge lies in the middle.
#[test]
fn eight_pages_across_an_edge(rt: HostRuntime) {
    let mut words = [0u64; 2560];
    let mut memory = [0u8; 32768];
    let mut engine = engine(1, 515, 8, 5, &mut words);
    const STEPS: &[Step] = &[
        (Map(0, 2, 0, 32768), Ok(0x1fc000)),
        // 1 of the root, 1 of level 3, 2 of level 2, 8 of level 1.
        (Words, Ok(12)),
        (CardWrite(0, 0x1fc000, &[0xa0]), Ok(0)),
        (CardWrite(0, 0x1ff123, &[0xa3]), Ok(0)),
        (CardWrite(0, 0x200123, &[0xa4]), Ok(0)),
        (CardWrite(0, 0x203fff, &[0xa7]), Ok(0)),
        // 64 bytes up to the edge.
        (CardWrite(0, 0x1fffc0, &[0xb3; 64]), Ok(0)),
        (Byte(0), Ok(0xa0)),
        (Byte(0x3123), Ok(0xa3)),
        (Byte(0x4123), Ok(0xa4)),
        (Byte(0x3fbf), Ok(0)),
        (Byte(0x3fc0), Ok(0xb3)),
        (Byte(0x3fff), Ok(0xb3)),
        (Byte(0x4000), Ok(0)),
        (Byte(0x7fff), Ok(0xa7)),
        (CardRead(0, 0x200123, 1), Err((15, 0, 1))),
        (CardWrite(0, 0x204000, &[0xa8]), Err((14, 0, 1))),
        (Unmap(0, 2, 0x1fc000, 32768), Ok(0)),
        (Words, Ok(0)),
    ];
    assert_eq!(rt; first_other(&mut engine, &mut memory, STEPS), None);
}

// The last byte of frame 0 and the first of frame 1, each in a page of its own on either side of the edge.
#[test]
fn two_bytes_across_an_edge(rt: HostRuntime) {
    let mut words = [0u64; 2560];
    let mut memory = [0u8; 32768];
    let mut engine = engine(1, 512, 8, 5, &mut words);
    const STEPS: &[Step] = &[
        (Map(0, 0, 0xfff, 2), Ok(0x1fffff)),
        (CardWrite(0, 0x1fffff, &[0x41]), Ok(0)),
        (CardWrite(0, 0x200000, &[0x42]), Ok(0)),
        (Byte(0xfff), Ok(0x41)),
        (Byte(0x1000), Ok(0x42)),
    ];
    assert_eq!(rt; first_other(&mut engine, &mut memory, STEPS), None);
}

// The highest pages of all, 2^36 - 2 and 2^36 - 1: indices 511, 511, 511 and then 510 and 511.
#[test]
fn the_highest_pages(rt: HostRuntime) {
    let mut words = [0u64; 2048];
    let mut memory = [0u8; 32768];
    let mut engine = engine(1, 0xfffffffff, 8, 4, &mut words);
    memory[0x3fff] = 0x66;
    const STEPS: &[Step] = &[
        (Map(0, 0, 0x2000, 8192), Ok(0xffffffffe000)),
        (CardRead(0, 0xffffffffffff, 1), Ok(0x66)),
        (
            CardRead(0, 0x1000000000000, 1),
            Err((13, 0, 0x1000000000000)),
        ),
        (CardRead(0, 0xffffffffd000, 1), Err((14, 0, 1))),
        (Unmap(0, 0, 0xffffffffe000, 8192), Ok(0)),
        (CardRead(0, 0xffffffffffff, 1), Err((14, 0, 4))),
        (Words, Ok(0)),
    ];
    assert_eq!(rt; first_other(&mut engine, &mut memory, STEPS), None);
}

// A page on either side of an edge, mapped one by one. The first lacks 3 tables and the second one; unmapping the first gives back
// its table of level 1 alone, for the other two stand above the second page as well.
#[test]
fn one_side_of_an_edge_is_unmapped(rt: HostRuntime) {
    let mut words = [0u64; 2560];
    let mut memory = [0u8; 32768];
    let mut engine = engine(1, 512, 8, 5, &mut words);
    memory[0x1000] = 0x77;
    const STEPS: &[Step] = &[
        (Map(0, 0, 0, 4096), Ok(0x200000)),
        (Words, Ok(4)),
        (Map(0, 0, 0x1000, 4096), Ok(0x1ff000)),
        (Words, Ok(6)),
        (Unmap(0, 0, 0x200000, 4096), Ok(0)),
        (Words, Ok(4)),
        (CardRead(0, 0x200000, 1), Err((14, 0, 2))),
        (CardRead(0, 0x1ff000, 1), Ok(0x77)),
        (Unmap(0, 0, 0x1ff000, 4096), Ok(0)),
        (Words, Ok(0)),
        (CardRead(0, 0x1ff000, 1), Err((14, 0, 4))),
    ];
    assert_eq!(rt; first_other(&mut engine, &mut memory, STEPS), None);
}
