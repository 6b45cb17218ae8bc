// The words that stand in the tables. A word is 4,096 times its number, and 1 to read, 2 to write, 3 for both.
use crate::asked::Asked::{CardRead, Map, Unmap, Words};
use crate::asked::{Step, engine, first_other, way};

// The words of a way that lead to tables have both rights and a number of their own.
fn leads_on(way: [u64; 4]) -> bool {
    let [root, third, second, _] = way;
    let both = root % 4096 == 3 && third % 4096 == 3 && second % 4096 == 3;
    both && root != third && third != second && root != second
}

// Device address 0xfffff100 has the indices 0, 3, 511, 511. The four words on that way are all that stand.
#[test]
fn the_words_of_frame_7_both_ways(rt: HostRuntime) {
    let mut words = [0u64; 3072];
    let mut memory = [0u8; 32768];
    let mut engine = engine(1, 0xfffff, 8, 6, &mut words);
    const STEPS: &[Step] = &[(Map(0, 0, 0x7100, 2), Ok(0xfffff100)), (Words, Ok(4))];
    assert_eq!(rt; first_other(&mut engine, &mut memory, STEPS), None);
    let found = way(&engine.mapper, 0, [0, 3, 511, 511]);
    assert!(rt; leads_on(found));
    assert_eq!(rt; found[3], 0x7003);
}

// The same way from the root of card 1, which is table 1. Frame 0 from the card has no bit but the right to write.
#[test]
fn the_words_of_frame_0_from_card_1(rt: HostRuntime) {
    let mut words = [0u64; 3072];
    let mut memory = [0u8; 32768];
    let mut engine = engine(2, 0xfffff, 8, 6, &mut words);
    const STEPS: &[Step] = &[(Map(1, 2, 0x100, 2), Ok(0xfffff100)), (Words, Ok(4))];
    assert_eq!(rt; first_other(&mut engine, &mut memory, STEPS), None);
    let found = way(&engine.mapper, 1, [0, 3, 511, 511]);
    assert!(rt; leads_on(found));
    assert_eq!(rt; found[3], 2);
}

// Two mappings below the same tables: the first to the card, at frame 0; the second from the card, at frames 2 and 3, whose pages
// are 0xffffd and 0xffffe.
#[test]
fn two_mappings_below_the_same_tables(rt: HostRuntime) {
    let mut words = [0u64; 3072];
    let mut memory = [0u8; 32768];
    let mut engine = engine(1, 0xfffff, 8, 6, &mut words);
    const OPENED: &[Step] = &[
        (Map(0, 1, 0x100, 2), Ok(0xfffff100)),
        (Words, Ok(4)),
        (Map(0, 2, 0x2000, 8192), Ok(0xffffd000)),
        (Words, Ok(6)),
        (CardRead(0, 0xffffd000, 1), Err((15, 0, 1))),
        (CardRead(0, 0xffffc000, 1), Err((14, 0, 1))),
        // Page 0x3ffff has the indices 0, 0, 511, 511.
        (CardRead(0, 0x3ffff000, 1), Err((14, 0, 3))),
    ];
    assert_eq!(rt; first_other(&mut engine, &mut memory, OPENED), None);
    assert_eq!(rt; way(&engine.mapper, 0, [0, 3, 511, 511])[3], 1);
    assert_eq!(rt; way(&engine.mapper, 0, [0, 3, 511, 509])[3], 0x2002);
    assert_eq!(rt; way(&engine.mapper, 0, [0, 3, 511, 510])[3], 0x3002);
    const CLOSED: &[Step] = &[
        (Unmap(0, 1, 0xfffff100, 2), Ok(0)),
        (Words, Ok(5)),
        (Unmap(0, 2, 0xffffd000, 8192), Ok(0)),
        (Words, Ok(0)),
    ];
    assert_eq!(rt; first_other(&mut engine, &mut memory, CLOSED), None);
}
