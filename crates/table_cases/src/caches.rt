// What the mapper's translation cache holds as cards access pages.
use crate::asked::Asked::{Byte, Cached, CardRead, CardWrite, Map, Unmap};
use crate::asked::{NOT_CACHED, Step, Told, ask, engine, first_other};

// Pages 2 to 9 are frames 0 to 7, page 1 is frame 8. Eight accesses fill the cache; a ninth page takes the place of the one that was
// added first, though that one was used again just before.
#[test]
fn the_page_that_was_added_first_goes(rt: HostRuntime) {
    let mut words = [0u64; 2048];
    let mut memory = [0u8; 36864];
    let mut engine = engine(1, 9, 9, 4, &mut words);
    const STEPS: &[Step] = &[
        (Map(0, 0, 0, 32768), Ok(0x2000)),
        (Map(0, 0, 0x8000, 4096), Ok(0x1000)),
        // Map puts nothing there.
        (Cached(0, 2), NOT_CACHED),
        (CardRead(0, 0x2000, 1), Ok(0)),
        (CardRead(0, 0x3000, 1), Ok(0)),
        (CardRead(0, 0x4000, 1), Ok(0)),
        (CardRead(0, 0x5000, 1), Ok(0)),
        (CardRead(0, 0x6000, 1), Ok(0)),
        (CardRead(0, 0x7000, 1), Ok(0)),
        (CardRead(0, 0x8000, 1), Ok(0)),
        (CardRead(0, 0x9000, 1), Ok(0)),
        (Cached(0, 2), Ok(0)),
        (Cached(0, 9), Ok(7)),
        (Cached(0, 1), NOT_CACHED),
        (CardRead(0, 0x2000, 1), Ok(0)),
        (CardRead(0, 0x1000, 1), Ok(0)),
        (Cached(0, 1), Ok(8)),
        (Cached(0, 2), NOT_CACHED),
        (Cached(0, 3), Ok(1)),
        // Page 2 comes back as the newest, and page 3 goes.
        (CardWrite(0, 0x2000, &[0x5a]), Ok(0)),
        (Byte(0), Ok(0x5a)),
        (Cached(0, 2), Ok(0)),
        (Cached(0, 3), NOT_CACHED),
        (Cached(0, 4), Ok(2)),
        // A blocked access adds nothing.
        (CardRead(0, 0xa000, 1), Err((14, 0, 1))),
        (Cached(0, 10), NOT_CACHED),
        (Cached(0, 4), Ok(2)),
    ];
    assert_eq!(rt; first_other(&mut engine, &mut memory, STEPS), None);
}

// Unmap takes the entries of its pages out, and the rest keep their order: of pages 9, 1, 2 and 3 in this order, 1 goes. Then there
// is room for five more, pages 4 to 8, and the entry that goes for page 10 is the one of page 9.
#[test]
fn unmap_keeps_the_order_of_the_rest(rt: HostRuntime) {
    let mut words = [0u64; 2048];
    let mut memory = [0u8; 32768];
    let mut engine = engine(1, 10, 8, 4, &mut words);
    const STEPS: &[Step] = &[
        // Pages 3 to 10 are frames 0 to 7, page 2 is frame 1 and page 1 frame 2.
        (Map(0, 0, 0, 32768), Ok(0x3000)),
        (Map(0, 0, 0x1000, 4096), Ok(0x2000)),
        (Map(0, 0, 0x2000, 4096), Ok(0x1000)),
        (CardRead(0, 0x9000, 1), Ok(0)),
        (CardRead(0, 0x1000, 1), Ok(0)),
        (CardRead(0, 0x2000, 1), Ok(0)),
        (CardRead(0, 0x3000, 1), Ok(0)),
        (Unmap(0, 0, 0x1000, 4096), Ok(0)),
        (Cached(0, 9), Ok(6)),
        (Cached(0, 1), NOT_CACHED),
        (Cached(0, 2), Ok(1)),
        (Cached(0, 3), Ok(0)),
        (CardRead(0, 0x4000, 1), Ok(0)),
        (CardRead(0, 0x5000, 1), Ok(0)),
        (CardRead(0, 0x6000, 1), Ok(0)),
        (CardRead(0, 0x7000, 1), Ok(0)),
        (CardRead(0, 0x8000, 1), Ok(0)),
        (Cached(0, 9), Ok(6)),
        (CardRead(0, 0xa000, 1), Ok(0)),
        (Cached(0, 9), NOT_CACHED),
        (Cached(0, 2), Ok(1)),
        (Cached(0, 10), Ok(7)),
        // All pages of a span go.
        (Unmap(0, 0, 0x3000, 32768), Ok(0)),
        (Cached(0, 3), NOT_CACHED),
        (Cached(0, 10), NOT_CACHED),
        (Cached(0, 2), Ok(1)),
    ];
    assert_eq!(rt; first_other(&mut engine, &mut memory, STEPS), None);
}

// An entry has the rights of its page, so an access that finds it is judged as the walk judges: 15 at level 1. A refused right adds
// no entry.
#[test]
fn an_entry_has_the_rights_of_its_page(rt: HostRuntime) {
    let mut words = [0u64; 2048];
    let mut memory = [0u8; 32768];
    let mut engine = engine(1, 9, 8, 4, &mut words);
    memory[0x3000] = 0x21;
    const STEPS: &[Step] = &[
        (Map(0, 1, 0x3000, 4096), Ok(0x9000)),
        (CardWrite(0, 0x9000, &[1]), Err((15, 0, 1))),
        (Cached(0, 9), NOT_CACHED),
        (CardRead(0, 0x9000, 1), Ok(0x21)),
        (Cached(0, 9), Ok(3)),
        (CardWrite(0, 0x9000, &[1]), Err((15, 0, 1))),
        (Byte(0x3000), Ok(0x21)),
    ];
    assert_eq!(rt; first_other(&mut engine, &mut memory, STEPS), None);
}

// The page goes to another buffer, with other rights: the old entry serves it no more.
#[test]
fn a_page_that_is_mapped_again(rt: HostRuntime) {
    let mut words = [0u64; 2048];
    let mut memory = [0u8; 32768];
    let mut engine = engine(1, 9, 8, 4, &mut words);
    memory[0x1000] = 0x31;
    memory[0x2000] = 0x32;
    const STEPS: &[Step] = &[
        (Map(0, 0, 0x1000, 4096), Ok(0x9000)),
        (CardRead(0, 0x9000, 1), Ok(0x31)),
        (Cached(0, 9), Ok(1)),
        (Unmap(0, 0, 0x9000, 4096), Ok(0)),
        (Map(0, 1, 0x2000, 4096), Ok(0x9000)),
        (CardRead(0, 0x9000, 1), Ok(0x32)),
        (Cached(0, 9), Ok(2)),
        (CardWrite(0, 0x9000, &[1]), Err((15, 0, 1))),
    ];
    assert_eq!(rt; first_other(&mut engine, &mut memory, STEPS), None);
}

// What a card is told at the start of its last page after that was mapped, accessed and unmapped, while the page before it is open.
fn after_unmap(device: u64, words: &mut [u64]) -> Told {
    let mut memory = [0u8; 32768];
    let last = device / 4096;
    let mut engine = engine(1, last, 8, 10, words);
    let steps = [
        (Map(0, 0, 0x1000, 4096), Ok(device)),
        (Map(0, 0, 0x2000, 4096), Ok(device.saturating_sub(4096))),
        (CardRead(0, device, 1), Ok(0)),
        (Cached(0, last), Ok(1)),
        (Unmap(0, 0, device, 4096), Ok(0)),
        (Cached(0, last), NOT_CACHED),
    ];
    match first_other(&mut engine, &mut memory, &steps) {
        None => ask(&mut engine, &mut memory, CardRead(0, device, 1)),
        Some((_, told)) => told,
    }
}

// The access after the unmap is blocked at the level at which the ways of the two pages part: 1 where they lie below the same table of
// level 1, and 2, 3 or 4 where an edge of level 1, 2 or 3 lies between them.
#[test]
fn an_entry_does_not_outlive_its_mapping(rt: HostRuntime) {
    let mut inside = [0u64; 5120];
    let mut first = [0u64; 5120];
    let mut second = [0u64; 5120];
    let mut third = [0u64; 5120];
    assert_eq!(rt; after_unmap(0xfffff000, &mut inside), Err((14, 0, 1)));
    assert_eq!(rt; after_unmap(0x200000, &mut first), Err((14, 0, 2)));
    assert_eq!(rt; after_unmap(0x40000000, &mut second), Err((14, 0, 3)));
    assert_eq!(rt; after_unmap(0x8000000000, &mut third), Err((14, 0, 4)));
}
