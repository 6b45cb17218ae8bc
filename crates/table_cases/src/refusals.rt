// Each refusal of a call, and that it leaves all as it was: two cards with pages 1 to 0xfffff, 8 frames and 10 tables.
use crate::asked::Asked::{
    Blocked, CardRead, CardWrite, CpuRead, CpuWrite, Map, SyncForCard, SyncForCpu, Unmap, Would,
};
use crate::asked::{Step, ask, count_words, engine, first_other};
use engine::Engine;
use mapper::Mapper;
use tables::Tables;
use units::{Block, Card, DeviceAddress, FaultKind, Report};

// As it is before each refused call, and to be afterwards: open are 2 bytes at 0x100 to card 0, at its last page. The four words on the
// way there stand, a next buffer would go one page lower, the card holds its bytes, and each byte of memory is 0x5a.
fn as_before(engine: &mut Engine<Tables<'_>>, memory: &mut [u8]) -> bool {
    count_words(&engine.mapper) == 4
        && engine.mapper.open_count() == 1
        && engine.mapper.is_held(0x101)
        && memory.iter().all(|byte| *byte == 0x5a)
        && ask(engine, memory, Would(0, 0, 0x200, 2)) == Ok(0xffffe200)
        && ask(engine, memory, CardRead(0, 0xfffff101, 1)) == Ok(0x5a)
}

// Makes calls that are refused, and answers the first that is told something else or leaves something changed, by its place.
fn first_change(
    engine: &mut Engine<Tables<'_>>,
    memory: &mut [u8],
    steps: &[Step<'_>],
) -> Option<usize> {
    for (i, (asked, want)) in steps.iter().enumerate() {
        if ask(engine, memory, *asked) != *want || !as_before(engine, memory) {
            return Some(i);
        }
    }
    None
}

#[test]
fn refused_maps_and_unmaps(rt: HostRuntime) {
    let mut words = [0u64; 5120];
    let mut memory = [0x5au8; 32768];
    let mut engine = engine(2, 0xfffff, 8, 10, &mut words);
    let opened = ask(&mut engine, &mut memory, Map(0, 1, 0x100, 2));
    assert_eq!(rt; opened, Ok(0xfffff100));
    const STEPS: &[Step] = &[
        (Map(2, 0, 0x200, 2), Err((1, 0, 2))),
        (Map(255, 0, 0x200, 2), Err((1, 0, 255))),
        (Map(0, 3, 0x200, 2), Err((2, 0, 3))),
        (Map(0, 0, 0x200, 0), Err((3, 0, 0))),
        // Bytes 1 to 32,768 touch 9 frames.
        (Map(0, 0, 1, 32768), Err((3, 0, 32768))),
        (Map(0, 0, 0x7fff, 2), Err((4, 0, 32768))),
        (Map(0, 0, 0xffffffff, 1), Err((4, 0, 32768))),
        (Would(2, 0, 0x200, 2), Err((1, 0, 2))),
        (Would(0, 3, 0x200, 2), Err((2, 0, 3))),
        (Would(0, 0, 0x200, 0), Err((3, 0, 0))),
        (Would(0, 0, 0x7fff, 2), Err((4, 0, 32768))),
        (Unmap(2, 1, 0xfffff100, 2), Err((1, 0, 2))),
        (Unmap(0, 3, 0xfffff100, 2), Err((2, 0, 3))),
        (Unmap(0, 1, 0xfffff101, 2), Err((6, 0, 0xfffff101))),
        (Unmap(1, 1, 0xfffff100, 2), Err((6, 0, 0xfffff100))),
        (Unmap(0, 1, 0xfffff100, 3), Err((7, 0, 2))),
        (Unmap(0, 0, 0xfffff100, 2), Err((7, 0, 2))),
    ];
    assert_eq!(rt; first_change(&mut engine, &mut memory, STEPS), None);
    let closed = ask(&mut engine, &mut memory, Unmap(0, 1, 0xfffff100, 2));
    assert_eq!(rt; closed, Ok(0));
}

#[test]
fn refused_syncs_and_accesses_of_the_cpu(rt: HostRuntime) {
    let mut words = [0u64; 5120];
    let mut memory = [0x5au8; 32768];
    let mut engine = engine(2, 0xfffff, 8, 10, &mut words);
    let opened = ask(&mut engine, &mut memory, Map(0, 1, 0x100, 2));
    assert_eq!(rt; opened, Ok(0xfffff100));
    const STEPS: &[Step] = &[
        (SyncForCpu(2, 0xfffff100), Err((1, 0, 2))),
        (SyncForCpu(0, 0xfffff101), Err((6, 0, 0xfffff101))),
        (SyncForCard(1, 0xfffff100), Err((6, 0, 0xfffff100))),
        (SyncForCard(0, 0xfffff100), Err((8, 0, 0xfffff100))),
        (CpuRead(0, 0), Err((3, 0, 0))),
        (CpuRead(0, 65), Err((3, 0, 65))),
        (CpuWrite(0, &[]), Err((3, 0, 0))),
        (CpuWrite(0, &[0; 65]), Err((3, 0, 65))),
        (CpuRead(0x7fff, 2), Err((4, 0, 32768))),
        (CpuWrite(0xffffffff, &[0; 64]), Err((4, 0, 32768))),
        (CpuRead(0x101, 1), Err((8, 0, 0x101))),
        (CpuWrite(0xf0, &[0; 64]), Err((8, 0, 0x100))),
    ];
    assert_eq!(rt; first_change(&mut engine, &mut memory, STEPS), None);
}

// Of the card's refusals the two kinds of block are counted, 14 and 15.
#[test]
fn refused_accesses_of_a_card(rt: HostRuntime) {
    let mut words = [0u64; 5120];
    let mut memory = [0x5au8; 32768];
    let mut engine = engine(2, 0xfffff, 8, 10, &mut words);
    let opened = ask(&mut engine, &mut memory, Map(0, 1, 0x100, 2));
    assert_eq!(rt; opened, Ok(0xfffff100));
    const STEPS: &[Step] = &[
        (CardRead(2, 0xfffff100, 1), Err((1, 0, 2))),
        (CardWrite(2, 0xfffff100, &[1]), Err((1, 0, 2))),
        (CardRead(0, 0xfffff100, 0), Err((3, 0, 0))),
        (CardRead(0, 0xfffff100, 65), Err((3, 0, 65))),
        (CardWrite(0, 0xfffff100, &[]), Err((3, 0, 0))),
        (CardWrite(0, 0xfffff100, &[0; 65]), Err((3, 0, 65))),
        (CardRead(0, 0xffffffff, 2), Err((13, 0, 0xffffffff))),
        (CardWrite(0, 0xffffffc1, &[0; 64]), Err((13, 0, 0xffffffc1))),
        (
            CardRead(0, 0x1000000000000, 1),
            Err((13, 0, 0x1000000000000)),
        ),
        (
            CardRead(0, 0xffffffffffffffff, 1),
            Err((13, 0, 0xffffffffffffffff)),
        ),
        (Blocked(2), Err((1, 0, 2))),
        // The page is open to the card only.
        (CardWrite(0, 0xfffff100, &[1]), Err((15, 0, 1))),
        // Pages 0xffffe, 0xffdff, 0xbffff and 0x8000000; their indices are 0, 3, 511, 510; 0, 3, 510, 511; 0, 2, 511, 511; 1, 0, 0, 0.
        (CardRead(0, 0xffffe000, 1), Err((14, 0, 1))),
        (CardWrite(0, 0xffdff000, &[1]), Err((14, 0, 2))),
        (CardRead(0, 0xbffff000, 1), Err((14, 0, 3))),
        (CardRead(0, 0x8000000040, 1), Err((14, 0, 4))),
        (CardRead(1, 0xfffff100, 1), Err((14, 0, 4))),
    ];
    assert_eq!(rt; first_change(&mut engine, &mut memory, STEPS), None);
    let latest = Block {
        device: DeviceAddress(0x8000000040),
        kind: FaultKind::Absent,
        level: 4,
    };
    assert_eq!(rt;
        engine.report(Card(0)),
        Ok(Report {
            count: 5,
            latest: Some(latest),
        })
    );
    assert_eq!(rt; ask(&mut engine, &mut memory, Blocked(1)), Ok(1));
}

// Memory that is smaller or larger than 8 frames: each call that is handed it is refused, and the mapping stays.
#[test]
fn memory_of_another_size(rt: HostRuntime) {
    let mut words = [0u64; 5120];
    let mut memory = [0x5au8; 32768];
    let mut small = [0u8; 4096];
    let mut large = [0u8; 36864];
    let mut engine = engine(2, 0xfffff, 8, 10, &mut words);
    let opened = ask(&mut engine, &mut memory, Map(0, 1, 0x100, 2));
    assert_eq!(rt; opened, Ok(0xfffff100));
    const STEPS: &[Step] = &[
        (Map(0, 0, 0, 1), Err((4, 0, 32768))),
        (Would(0, 0, 0, 1), Err((4, 0, 32768))),
        (Unmap(0, 1, 0xfffff100, 2), Err((4, 0, 32768))),
        (SyncForCpu(0, 0xfffff100), Err((4, 0, 32768))),
        (SyncForCard(0, 0xfffff100), Err((4, 0, 32768))),
        (CardRead(0, 0xfffff100, 1), Err((4, 0, 32768))),
        (CardWrite(0, 0xfffff100, &[1]), Err((4, 0, 32768))),
        (CpuRead(0, 1), Err((4, 0, 32768))),
        (CpuWrite(0, &[1]), Err((4, 0, 32768))),
        // A report looks at no memory.
        (Blocked(0), Ok(0)),
    ];
    assert_eq!(rt; first_other(&mut engine, &mut small, STEPS), None);
    assert_eq!(rt; first_other(&mut engine, &mut large, STEPS), None);
    assert!(rt; as_before(&mut engine, &mut memory));
}

// Where several things are wrong, the first in the order of the checks is told; each line mends what the one before was told.
#[test]
fn the_order_of_the_checks(rt: HostRuntime) {
    let mut words = [0u64; 5120];
    let mut memory = [0x5au8; 32768];
    let mut small = [0u8; 4096];
    let mut engine = engine(2, 0xfffff, 8, 10, &mut words);
    let opened = ask(&mut engine, &mut memory, Map(0, 1, 0x7fff, 1));
    assert_eq!(rt; opened, Ok(0xffffffff));
    const WITH_LITTLE_MEMORY: &[Step] = &[
        (Map(2, 3, 0, 0), Err((1, 0, 2))),
        (Map(0, 3, 0, 0), Err((2, 0, 3))),
        (Map(0, 0, 0, 0), Err((3, 0, 0))),
        (Map(0, 0, 0, 1), Err((4, 0, 32768))),
        (Unmap(2, 3, 0, 0), Err((1, 0, 2))),
        (Unmap(0, 3, 0, 0), Err((2, 0, 3))),
        (Unmap(0, 0, 0, 0), Err((4, 0, 32768))),
        (SyncForCard(2, 0), Err((1, 0, 2))),
        (SyncForCard(0, 0), Err((4, 0, 32768))),
        (CardRead(2, 0xffffffffffffffff, 0), Err((1, 0, 2))),
        (CardRead(0, 0xffffffffffffffff, 0), Err((3, 0, 0))),
        (CardRead(0, 0xffffffffffffffff, 1), Err((4, 0, 32768))),
        (CpuRead(0x7fff, 0), Err((3, 0, 0))),
        (CpuRead(0x7fff, 2), Err((4, 0, 32768))),
    ];
    assert_eq!(rt;
        first_other(&mut engine, &mut small, WITH_LITTLE_MEMORY),
        None
    );
    const WITH_ITS_MEMORY: &[Step] = &[
        (Unmap(0, 0, 0, 0), Err((6, 0, 0))),
        (Unmap(0, 0, 0xffffffff, 0), Err((7, 0, 1))),
        (SyncForCard(0, 0), Err((6, 0, 0))),
        (SyncForCard(0, 0xffffffff), Err((8, 0, 0xffffffff))),
        (
            CardRead(0, 0xffffffffffffffff, 1),
            Err((13, 0, 0xffffffffffffffff)),
        ),
        (CardRead(0, 0x8000000000, 1), Err((14, 0, 4))),
        (CardWrite(0, 0xffffffff, &[1]), Err((15, 0, 1))),
        // Its first byte is held and its second lies past the memory.
        (CpuRead(0x7fff, 2), Err((4, 0, 32768))),
        (CpuRead(0x7fff, 1), Err((8, 0, 0x7fff))),
    ];
    assert_eq!(rt;
        first_other(&mut engine, &mut memory, WITH_ITS_MEMORY),
        None
    );
}
