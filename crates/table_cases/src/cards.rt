// Two cards, each with device pages of its own, though the numbers are the same.
use crate::asked::Asked::{Byte, Cached, CardRead, CardWrite, Map, Unmap, Words};
use crate::asked::{NOT_CACHED, Step, engine, first_other};

// Page 100 of card 0 is frame 1, page 100 of card 1 is frame 2. What one card does there stays in its frame, and its unmap leaves the
// other's mapping, also in the translation cache.
#[test]
fn the_same_page_of_two_cards(rt: HostRuntime) {
    let mut words = [0u64; 4096];
    let mut memory = [0u8; 32768];
    let mut engine = engine(2, 100, 8, 8, &mut words);
    const STEPS: &[Step] = &[
        (Map(0, 0, 0x1000, 4096), Ok(0x64000)),
        (Words, Ok(4)),
        (Map(1, 0, 0x2000, 4096), Ok(0x64000)),
        // No table stands above pages of both cards.
        (Words, Ok(8)),
        (CardWrite(0, 0x64010, &[0xaa]), Ok(0)),
        (CardWrite(1, 0x64010, &[0xbb]), Ok(0)),
        (Byte(0x1010), Ok(0xaa)),
        (Byte(0x2010), Ok(0xbb)),
        (CardRead(0, 0x64010, 1), Ok(0xaa)),
        (CardRead(1, 0x64010, 1), Ok(0xbb)),
        (Cached(0, 100), Ok(1)),
        (Cached(1, 100), Ok(2)),
        (Unmap(0, 0, 0x64000, 4096), Ok(0)),
        (Cached(0, 100), NOT_CACHED),
        (Cached(1, 100), Ok(2)),
        (CardRead(0, 0x64010, 1), Err((14, 0, 4))),
        (CardRead(1, 0x64010, 1), Ok(0xbb)),
        (Words, Ok(4)),
        (Unmap(1, 0, 0x64000, 4096), Ok(0)),
        (CardRead(1, 0x64010, 1), Err((14, 0, 4))),
        (Words, Ok(0)),
    ];
    assert_eq!(rt; first_other(&mut engine, &mut memory, STEPS), None);
}

// An entry that card 1's access left is not used for card 0, which has nothing there, nor can card 0 close card 1's mapping.
#[test]
fn an_entry_is_of_one_card(rt: HostRuntime) {
    let mut words = [0u64; 4096];
    let mut memory = [0u8; 32768];
    let mut engine = engine(2, 100, 8, 8, &mut words);
    const STEPS: &[Step] = &[
        (Map(1, 0, 0x2000, 4096), Ok(0x64000)),
        (CardWrite(1, 0x64000, &[0xbb]), Ok(0)),
        (Cached(1, 100), Ok(2)),
        (CardRead(0, 0x64000, 1), Err((14, 0, 4))),
        (Cached(0, 100), NOT_CACHED),
        (Unmap(0, 0, 0x64000, 4096), Err((6, 0, 0x64000))),
        (CardRead(1, 0x64000, 1), Ok(0xbb)),
    ];
    assert_eq!(rt; first_other(&mut engine, &mut memory, STEPS), None);
}
