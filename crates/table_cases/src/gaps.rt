// Where the chooser puts spans among the device pages of a card.
use crate::asked::Asked::{Map, Open, Unmap, Would};
use crate::asked::{Step, engine, first_other};

// Pages 1 to 6 with 3 and 4 in use: of the gaps 1–2 and 5–6 the higher is taken, and its highest page.
#[test]
fn of_equal_gaps_the_higher(rt: HostRuntime) {
    let mut words = [0u64; 2048];
    let mut memory = [0u8; 32768];
    let mut engine = engine(1, 6, 8, 4, &mut words);
    const STEPS: &[Step] = &[
        (Map(0, 0, 0, 8192), Ok(0x5000)),
        (Map(0, 0, 0, 8192), Ok(0x3000)),
        (Unmap(0, 0, 0x5000, 8192), Ok(0)),
        (Would(0, 0, 0, 8192), Ok(0x5000)),
        (Map(0, 0, 0, 4096), Ok(0x6000)),
        // The gaps are now 1–2 and 5: one page takes 5, and two take 1 and 2.
        (Would(0, 0, 0, 4096), Ok(0x5000)),
        (Would(0, 0, 0, 8192), Ok(0x1000)),
        (Would(0, 0, 0, 12288), Err((10, 0, 3))),
    ];
    assert_eq!(rt; first_other(&mut engine, &mut memory, STEPS), None);
}

// Pages 1 to 8 with 4 to 6 in use: of the gaps 1–3 and 7–8 the smaller is taken where it holds the span.
#[test]
fn the_smaller_gap(rt: HostRuntime) {
    let mut words = [0u64; 2048];
    let mut memory = [0u8; 32768];
    let mut engine = engine(1, 8, 8, 4, &mut words);
    const STEPS: &[Step] = &[
        (Map(0, 0, 0, 8192), Ok(0x7000)),
        (Map(0, 0, 0, 12288), Ok(0x4000)),
        (Unmap(0, 0, 0x7000, 8192), Ok(0)),
        (Would(0, 0, 0, 8192), Ok(0x7000)),
        (Would(0, 0, 0, 12288), Ok(0x1000)),
        (Would(0, 0, 0, 16384), Err((10, 0, 4))),
        (Map(0, 0, 0, 4096), Ok(0x8000)),
        (Open, Ok(2)),
    ];
    assert_eq!(rt; first_other(&mut engine, &mut memory, STEPS), None);
}

// Pages 1 to 10 and buffers at offset 0x20; two pages are freed at the end, and the gap 9–10 is smaller than 1–7.
#[test]
fn a_freed_gap_at_the_end(rt: HostRuntime) {
    let mut words = [0u64; 2048];
    let mut memory = [0u8; 32768];
    let mut engine = engine(1, 10, 8, 4, &mut words);
    const STEPS: &[Step] = &[
        (Map(0, 0, 0x1020, 4096), Ok(0x9020)),
        (Map(0, 0, 0x1020, 16), Ok(0x8020)),
        (Unmap(0, 0, 0x9020, 4096), Ok(0)),
        (Map(0, 0, 0x1020, 16), Ok(0xa020)),
    ];
    assert_eq!(rt; first_other(&mut engine, &mut memory, STEPS), None);
}

// A card's pages are its own: with one page each, both cards have page 1, and a second map of either is refused.
#[test]
fn one_page_for_each_card(rt: HostRuntime) {
    let mut words = [0u64; 4096];
    let mut memory = [0u8; 32768];
    let mut engine = engine(2, 1, 8, 8, &mut words);
    const STEPS: &[Step] = &[
        (Map(0, 0, 0, 4096), Ok(0x1000)),
        (Map(0, 0, 0, 4096), Err((10, 0, 1))),
        (Map(1, 0, 0, 8192), Err((10, 0, 2))),
        (Map(1, 0, 0, 4096), Ok(0x1000)),
        (Map(1, 0, 0, 4096), Err((10, 0, 1))),
        (Unmap(0, 0, 0x1000, 4096), Ok(0)),
        (Map(0, 0, 0, 4096), Ok(0x1000)),
    ];
    assert_eq!(rt; first_other(&mut engine, &mut memory, STEPS), None);
}
