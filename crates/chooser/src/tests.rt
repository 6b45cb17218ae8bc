// Worked choices.
use crate::gap::Range;
use crate::space::Space;
use units::{DevicePage, Fault, FaultKind, Frame};

// Of the gaps 1 to 2 and 5 to 6 the higher is taken.
#[test]
fn takes_the_higher_of_equal_gaps(rt: HostRuntime) {
    let used = [Range {
        first: DevicePage(3),
        count: 2,
    }];
    let space = Space {
        lo: DevicePage(1),
        hi: DevicePage(6),
        used: &used,
    };
    assert_eq!(rt; space.choose(1), Ok(DevicePage(6)));
}

// Of the gaps 1 to 3 and 7 to 8 the smaller is taken.
#[test]
fn takes_the_smaller_gap(rt: HostRuntime) {
    let used = [
        Range {
            first: DevicePage(6),
            count: 1,
        },
        Range {
            first: DevicePage(4),
            count: 2,
        },
    ];
    let space = Space {
        lo: DevicePage(1),
        hi: DevicePage(8),
        used: &used,
    };
    assert_eq!(rt; space.choose(1), Ok(DevicePage(8)));
}

// No gap among 1 to 3 holds 4, neither of pages nor of frames.
#[test]
fn refuses_where_no_gap_holds_n(rt: HostRuntime) {
    let pages = Space {
        lo: DevicePage(1),
        hi: DevicePage(3),
        used: &[],
    };
    assert_eq!(rt; pages.choose(4), Err(FaultKind::NoPages.at(4)));
    let frames = Space {
        lo: Frame(1),
        hi: Frame(3),
        used: &[],
    };
    assert_eq!(rt; frames.choose(4), Err(FaultKind::NoFrames.at(4)));
    assert_eq!(rt; u8::from(FaultKind::NoPages), 10);
    assert_eq!(rt; u8::from(FaultKind::NoFrames), 9);
}
