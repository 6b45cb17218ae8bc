// The invalidation queue by itself.
use crate::entries::{entry, frame};
use cache::{Cache, Descriptor, Queue};
use units::{Card, DevicePage};

// A removal of a page of card 0.
fn page(number: u64) -> Descriptor {
    Descriptor::Page(Card(0), DevicePage(number))
}

// A cache with pages 1 to 4 of card 0, each at the frame of its number.
fn four_pages() -> Cache {
    let mut cache = Cache::new();
    cache.add(entry(0, 1, 1));
    cache.add(entry(0, 2, 2));
    cache.add(entry(0, 3, 3));
    cache.add(entry(0, 4, 4));
    cache
}

// Which of pages 1 to 4 the cache names.
fn held(cache: &Cache) -> [bool; 4] {
    [
        frame(cache, 1).is_some(),
        frame(cache, 2).is_some(),
        frame(cache, 3).is_some(),
        frame(cache, 4).is_some(),
    ]
}

// Page 1, a wait, pages 2 and 3, a wait, page 4: nothing is removed by posting, a run goes to the next wait, and the last one to the end.
#[test]
fn a_run_goes_to_the_first_wait(rt: HostRuntime) {
    let mut cache = four_pages();
    let mut queue = Queue::new();
    let posted = queue.post(page(1))
        && queue.post(Descriptor::Wait)
        && queue.post(page(2))
        && queue.post(page(3))
        && queue.post(Descriptor::Wait)
        && queue.post(page(4));
    assert!(rt; posted);
    assert_eq!(rt; held(&cache), [true, true, true, true]);
    queue.run(&mut cache);
    assert_eq!(rt; held(&cache), [false, true, true, true]);
    queue.run(&mut cache);
    assert_eq!(rt; held(&cache), [false, false, false, true]);
    queue.run(&mut cache);
    assert_eq!(rt; held(&cache), [false, false, false, false]);
}

// There is room for 16 descriptors. A 17th is not posted: the run that takes the 16 does not remove its page.
#[test]
fn the_17th_descriptor(rt: HostRuntime) {
    let mut cache = four_pages();
    let mut queue = Queue::new();
    let mut posted = true;
    for _ in 0..16u32 {
        posted = queue.post(page(1)) && posted;
    }
    assert!(rt; posted);
    assert_eq!(rt; queue.post(page(2)), false);
    queue.run(&mut cache);
    queue.run(&mut cache);
    assert_eq!(rt; held(&cache), [false, true, true, true]);
    assert_eq!(rt; queue.post(page(2)), true);
    queue.run(&mut cache);
    assert_eq!(rt; held(&cache), [false, false, true, true]);
}

// A span of pages 2 and 3 is invalidated: their entries go, and the rest stay.
#[test]
fn a_span_is_invalidated(rt: HostRuntime) {
    let mut cache = four_pages();
    let mut queue = Queue::new();
    queue.invalidate(&mut cache, Card(0), DevicePage(2), 2);
    assert_eq!(rt; held(&cache), [true, false, false, true]);
    // Of another card nothing is removed.
    queue.invalidate(&mut cache, Card(1), DevicePage(1), 8);
    assert_eq!(rt; held(&cache), [true, false, false, true]);
}
