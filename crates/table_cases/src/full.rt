// All 32 records in use.
use crate::asked::Asked::{Map, Open, Unmap, Words};
use crate::asked::{Step, Told, ask, engine, first_other};
use engine::Engine;
use tables::Tables;

// Maps one page for card 0 32 times. Each is to be told the page below the one before, from the last page down; the first that is not
// is answered.
fn fill(engine: &mut Engine<Tables<'_>>, memory: &mut [u8], last: u32) -> Option<(u32, Told)> {
    for i in 0..32u32 {
        let told = ask(engine, memory, Map(0, 0, 0x1000, 4096));
        if told != Ok(last.saturating_sub(i) as u64 * 4096) {
            return Some((i, told));
        }
    }
    None
}

// 32 mappings of one buffer take pages 33 down to 2, and page 1 is free for a 33rd, of any card. After the unmap of page 20 the gaps
// are 1 and 20, and the higher is taken.
#[test]
fn the_33rd_mapping(rt: HostRuntime) {
    let mut words = [0u64; 4096];
    let mut memory = [0u8; 32768];
    let mut engine = engine(2, 33, 8, 8, &mut words);
    assert_eq!(rt; fill(&mut engine, &mut memory, 33), None);
    const STEPS: &[Step] = &[
        (Open, Ok(32)),
        (Map(0, 0, 0x1000, 4096), Err((11, 0, 32))),
        (Map(1, 0, 0x1000, 4096), Err((11, 0, 32))),
        // No gap holds two pages, which goes before.
        (Map(0, 0, 0x1000, 8192), Err((10, 0, 2))),
        (Open, Ok(32)),
        (Unmap(0, 0, 0x14000, 4096), Ok(0)),
        (Map(0, 0, 0x1000, 4096), Ok(0x14000)),
        (Map(0, 0, 0x1000, 4096), Err((11, 0, 32))),
        (Unmap(0, 0, 0x21000, 4096), Ok(0)),
        (Map(1, 0, 0x1000, 4096), Ok(0x21000)),
        (Open, Ok(32)),
    ];
    assert_eq!(rt; first_other(&mut engine, &mut memory, STEPS), None);
}

// 32 mappings take pages 32 down to 1: a 33rd has neither page nor record, and is told of the page.
#[test]
fn no_page_goes_before_no_record(rt: HostRuntime) {
    let mut words = [0u64; 2048];
    let mut memory = [0u8; 32768];
    let mut engine = engine(1, 32, 8, 4, &mut words);
    assert_eq!(rt; fill(&mut engine, &mut memory, 32), None);
    const STEPS: &[Step] = &[(Map(0, 0, 0x1000, 4096), Err((10, 0, 1))), (Open, Ok(32))];
    assert_eq!(rt; first_other(&mut engine, &mut memory, STEPS), None);
}

// 32 mappings take pages 543 down to 512, below all 3 tables that there are beside the root. Page 511 lacks a table and there is no
// record: no record goes before. With a record free again, two pages go to 510 and 511, since 543 is a gap of one.
#[test]
fn no_record_goes_before_no_table(rt: HostRuntime) {
    let mut words = [0u64; 2048];
    let mut memory = [0u8; 32768];
    let mut engine = engine(1, 543, 8, 4, &mut words);
    assert_eq!(rt; fill(&mut engine, &mut memory, 543), None);
    const STEPS: &[Step] = &[
        (Words, Ok(35)),
        (Map(0, 0, 0x1000, 4096), Err((11, 0, 32))),
        (Unmap(0, 0, 0x21f000, 4096), Ok(0)),
        (Map(0, 0, 0x1000, 8192), Err((12, 0, 1))),
        (Map(0, 0, 0x1000, 4096), Ok(0x21f000)),
    ];
    assert_eq!(rt; first_other(&mut engine, &mut memory, STEPS), None);
}
