// Set-ups with numbers in range and out of range.
use crate::asked::Asked::{Blocked, CardRead, CpuRead, Map, Open, Words};
use crate::asked::{Step, engine, first_other};
use engine::Engine;
use mapper::Mapper;
use tables::Tables;
use units::{DevicePage, Geometry};

// The number of the refusal of a set-up, in which each card has the same last page.
fn refusal_of(cards: u8, last: u64, frames: u32, count: u8, words: &mut [u64]) -> Option<u8> {
    let tables = Tables::set_up(
        Geometry {
            cards,
            lasts: [DevicePage(last); 4],
            frames,
        },
        count,
        words,
    );
    tables.refusal().map(u8::from)
}

// The least and the greatest of each number. Of 64 tables there are 32,768 words.
#[test]
fn numbers_in_range(rt: HostRuntime) {
    let mut four = [7u64; 2048];
    let mut seven = [7u64; 3584];
    let mut most = [7u64; 32768];
    assert_eq!(rt; refusal_of(1, 1, 1, 4, &mut four), None);
    assert_eq!(rt; refusal_of(4, 0xfffffffff, 1024, 7, &mut seven), None);
    assert_eq!(rt; refusal_of(1, 1, 1, 64, &mut most), None);
    // Accepted words are cleared.
    let clear = four.iter().all(|word| *word == 0)
        && seven.iter().all(|word| *word == 0)
        && most.iter().all(|word| *word == 0);
    assert!(rt; clear);
}

// Each number in turn is one too low or one too high, with words for just so many tables. Refused words stay.
#[test]
fn numbers_out_of_range(rt: HostRuntime) {
    let mut four = [7u64; 2048];
    let mut eight = [7u64; 4096];
    assert_eq!(rt; refusal_of(0, 1, 1, 4, &mut four), Some(16));
    assert_eq!(rt; refusal_of(5, 1, 1, 8, &mut eight), Some(16));
    assert_eq!(rt; refusal_of(1, 0, 1, 4, &mut four), Some(16));
    assert_eq!(rt; refusal_of(1, 0x1000000000, 1, 4, &mut four), Some(16));
    assert_eq!(rt; refusal_of(1, 1, 0, 4, &mut four), Some(16));
    assert_eq!(rt; refusal_of(1, 1, 1025, 4, &mut four), Some(16));
    let stay = four.iter().all(|word| *word == 7) && eight.iter().all(|word| *word == 7);
    assert!(rt; stay);
}

// Two tables more than cards; 65 tables; and for 4 tables one word less or more than 2,048, or none, and for 5 the words of 6.
#[test]
fn tables_out_of_range(rt: HostRuntime) {
    let mut three = [7u64; 1536];
    let mut six = [7u64; 3072];
    let mut past = [7u64; 33280];
    let mut less = [7u64; 2047];
    let mut more = [7u64; 2049];
    assert_eq!(rt; refusal_of(1, 1, 1, 3, &mut three), Some(16));
    assert_eq!(rt; refusal_of(4, 1, 1, 6, &mut six), Some(16));
    assert_eq!(rt; refusal_of(1, 1, 1, 65, &mut past), Some(16));
    assert_eq!(rt; refusal_of(1, 1, 1, 4, &mut less), Some(16));
    assert_eq!(rt; refusal_of(1, 1, 1, 4, &mut more), Some(16));
    assert_eq!(rt; refusal_of(1, 1, 1, 4, &mut []), Some(16));
    assert_eq!(rt; refusal_of(1, 1, 1, 5, &mut six), Some(16));
    let stay = three.iter().all(|word| *word == 7)
        && six.iter().all(|word| *word == 7)
        && past.iter().all(|word| *word == 7)
        && less.iter().all(|word| *word == 7)
        && more.iter().all(|word| *word == 7);
    assert!(rt; stay);
}

// There are no cards and no frames, and calls are told so.
#[test]
fn calls_after_a_refused_set_up(rt: HostRuntime) {
    let mut words = [7u64; 2048];
    let mut memory = [0u8; 4096];
    let mut engine = engine(1, 1, 1025, 4, &mut words);
    assert_eq!(rt; engine.mapper.cards(), 0);
    assert_eq!(rt; engine.mapper.frames(), 0);
    const STEPS: &[Step] = &[
        (Map(0, 0, 0, 1), Err((1, 0, 0))),
        (CardRead(0, 0x1000, 1), Err((1, 0, 0))),
        (Blocked(0), Err((1, 0, 0))),
        (CpuRead(0, 0), Err((3, 0, 0))),
        (CpuRead(0, 1), Err((4, 0, 0))),
        (Open, Ok(0)),
        // As they were: no word is 0.
        (Words, Ok(2048)),
    ];
    assert_eq!(rt; first_other(&mut engine, &mut memory, STEPS), None);
    // Memory of no bytes has the right size, and each access ends past it.
    assert_eq!(rt;
        first_other(&mut engine, &mut [], &[(CpuRead(0, 1), Err((4, 0, 0)))]),
        None
    );
}

// Each card has its own last page, and those past the last card are not looked at.
#[test]
fn the_last_page_of_each_card(rt: HostRuntime) {
    let mut words = [0u64; 4096];
    let mut memory = [0u8; 4096];
    let geometry = Geometry {
        cards: 2,
        lasts: [DevicePage(5), DevicePage(9), DevicePage(0), DevicePage(0)],
        frames: 1,
    };
    let mut engine = Engine::over(Tables::set_up(geometry, 8, &mut words));
    assert_eq!(rt; engine.mapper.refusal(), None);
    const STEPS: &[Step] = &[
        (Map(0, 0, 0, 1), Ok(0x5000)),
        (Map(1, 0, 0, 1), Ok(0x9000)),
        (Map(2, 0, 0, 1), Err((1, 0, 2))),
    ];
    assert_eq!(rt; first_other(&mut engine, &mut memory, STEPS), None);
}
