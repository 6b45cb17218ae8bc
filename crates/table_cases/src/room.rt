// Tables run out, and are given back.
use crate::asked::Asked::{CardRead, Map, Unmap, Words};
use crate::asked::{Step, engine, first_other};

// With one card and 4 tables, 3 are free. The first page, 512, takes them. The next, 511, lies below another table of level 1.
#[test]
fn three_tables_more_than_cards(rt: HostRuntime) {
    let mut words = [0u64; 2048];
    let mut memory = [0u8; 32768];
    let mut engine = engine(1, 512, 8, 4, &mut words);
    const STEPS: &[Step] = &[
        (Map(0, 0, 0, 4096), Ok(0x200000)),
        (Map(0, 0, 0, 4096), Err((12, 0, 1))),
        (Map(0, 0, 0, 8192), Err((12, 0, 1))),
        (Words, Ok(4)),
        (Unmap(0, 0, 0x200000, 4096), Ok(0)),
        // Pages 511 and 512 lack 4, of which 3 are free.
        (Map(0, 0, 0, 8192), Err((12, 0, 4))),
        (Words, Ok(0)),
        (Map(0, 0, 0, 4096), Ok(0x200000)),
        (Unmap(0, 0, 0x200000, 4096), Ok(0)),
        (Words, Ok(0)),
    ];
    assert_eq!(rt; first_other(&mut engine, &mut memory, STEPS), None);
}

// With two cards and 5 tables, 3 are free. One card takes them; the other lacks 3, though it would take the same page number.
#[test]
fn two_cards_and_tables_for_one(rt: HostRuntime) {
    let mut words = [0u64; 2560];
    let mut memory = [0u8; 32768];
    let mut engine = engine(2, 100, 8, 5, &mut words);
    const STEPS: &[Step] = &[
        (Map(0, 0, 0, 4096), Ok(0x64000)),
        (Map(1, 0, 0, 4096), Err((12, 0, 3))),
        (CardRead(1, 0x64000, 1), Err((14, 0, 4))),
        // More pages below the same tables lack none.
        (Map(0, 0, 0, 32768), Ok(0x5c000)),
        (Unmap(0, 0, 0x64000, 4096), Ok(0)),
        (Map(1, 0, 0, 4096), Err((12, 0, 3))),
        (Unmap(0, 0, 0x5c000, 32768), Ok(0)),
        (Map(1, 0, 0, 4096), Ok(0x64000)),
        (Map(0, 0, 0, 4096), Err((12, 0, 3))),
    ];
    assert_eq!(rt; first_other(&mut engine, &mut memory, STEPS), None);
}

// Where the chooser's pages lack tables, no other pages are tried. With 9 tables, 7 are free. Cards 0 and 1 each open pages 512 to
// 514, with 3 tables, and card 0 page 511, with one: all are in use. Card 0 closes 512 to 514, which gives back one table, and card 1
// takes it for page 511. Now card 0 has the gaps 1–510 and 512–514. One page goes into the smaller, at 514, and lacks a table there,
// while page 510 would lack none. Four pages go to 507–510, where they lack none.
#[test]
fn no_other_pages_are_tried(rt: HostRuntime) {
    let mut words = [0u64; 4608];
    let mut memory = [0u8; 32768];
    let mut engine = engine(2, 514, 8, 9, &mut words);
    const STEPS: &[Step] = &[
        (Map(0, 0, 0, 12288), Ok(0x200000)),
        (Map(1, 0, 0, 12288), Ok(0x200000)),
        (Map(0, 0, 0, 4096), Ok(0x1ff000)),
        (Unmap(0, 0, 0x200000, 12288), Ok(0)),
        (Map(1, 0, 0, 4096), Ok(0x1ff000)),
        (Map(0, 0, 0, 4096), Err((12, 0, 1))),
        (Map(0, 0, 0, 16384), Ok(0x1fb000)),
    ];
    assert_eq!(rt; first_other(&mut engine, &mut memory, STEPS), None);
}
