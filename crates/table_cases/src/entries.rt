// The translation cache by itself.
use cache::{Cache, Translation};
use units::{Card, DevicePage, Frame, Reach, Rights};

// An entry of a card's page, with a frame.
pub(crate) fn entry(card: u8, page: u64, frame: u32) -> Translation {
    let rights = Rights {
        read: true,
        write: true,
    };
    Translation {
        card: Card(card),
        page: DevicePage(page),
        reach: Reach {
            frame: Frame(frame),
            rights,
        },
    }
}

// The frame that the cache names for a page of card 0.
pub(crate) fn frame(cache: &Cache, page: u64) -> Option<u32> {
    cache
        .find(Card(0), DevicePage(page))
        .map(|reach| reach.frame.0)
}

// The frames of four pages of card 0.
fn frames(cache: &Cache, pages: [u64; 4]) -> [Option<u32>; 4] {
    let [first, second, third, fourth] = pages;
    [
        frame(cache, first),
        frame(cache, second),
        frame(cache, third),
        frame(cache, fourth),
    ]
}

// Pages 1 to 9 are added, and 8 are held: page 1 is gone, though it was found just before. Then pages 10 and 11 take the places of
// pages 2 and 3.
#[test]
fn the_ninth_entry_takes_the_place_of_the_first(rt: HostRuntime) {
    let mut cache = Cache::new();
    assert_eq!(rt; frame(&cache, 1), None);
    for page in 1..9u32 {
        cache.add(entry(0, page as u64, page));
    }
    assert_eq!(rt;
        frames(&cache, [1, 2, 8, 9]),
        [Some(1), Some(2), Some(8), None]
    );
    cache.add(entry(0, 9, 9));
    assert_eq!(rt;
        frames(&cache, [1, 2, 8, 9]),
        [None, Some(2), Some(8), Some(9)]
    );
    cache.add(entry(0, 10, 10));
    cache.add(entry(0, 11, 11));
    assert_eq!(rt;
        frames(&cache, [2, 3, 4, 11]),
        [None, None, Some(4), Some(11)]
    );
}

// Pages 1 to 8 are held and page 3 is removed. Page 9 fills the cache again; then pages 10, 11 and 12 push out 1, 2 and 4.
#[test]
fn removal_keeps_the_order(rt: HostRuntime) {
    let mut cache = Cache::new();
    for page in 1..9u32 {
        cache.add(entry(0, page as u64, page));
    }
    cache.remove(Card(0), DevicePage(3));
    cache.add(entry(0, 9, 9));
    assert_eq!(rt;
        frames(&cache, [1, 2, 3, 9]),
        [Some(1), Some(2), None, Some(9)]
    );
    cache.add(entry(0, 10, 10));
    cache.add(entry(0, 11, 11));
    assert_eq!(rt;
        frames(&cache, [1, 2, 4, 5]),
        [None, None, Some(4), Some(5)]
    );
    cache.add(entry(0, 12, 12));
    assert_eq!(rt;
        frames(&cache, [4, 5, 9, 12]),
        [None, Some(5), Some(9), Some(12)]
    );
}

// Card 0 has two entries of page 5. The older is found, card 1's is another, and removal takes both of card 0 and leaves card 1's.
#[test]
fn entries_of_one_page(rt: HostRuntime) {
    let mut cache = Cache::new();
    cache.add(entry(1, 5, 3));
    cache.add(entry(0, 5, 1));
    cache.add(entry(0, 5, 2));
    assert_eq!(rt; frame(&cache, 5), Some(1));
    cache.remove(Card(0), DevicePage(5));
    assert_eq!(rt; frame(&cache, 5), None);
    let other = cache.find(Card(1), DevicePage(5));
    assert_eq!(rt; other.map(|reach| reach.frame.0), Some(3));
}
