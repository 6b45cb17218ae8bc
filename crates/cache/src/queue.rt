// The invalidation queue: removals from the translation cache that are posted and still to be run.
ghost use Rattle.std.specs.Prelude.{◌≡◌, ◌+◌, ◌^◌, ◌<◌, ◌≤◌, min, [], length, drop};
ghost use Rattle.cache.specs.Descriptors.{after_run, after_wait, has_room, posted_behind};
ghost use Rattle.cache.specs.Entries.{without_span};
ghost use Rattle.cache.specs.Held.{held};

use crate::cache::Cache;
use units::{Card, DevicePage};

// What is asked of the translation cache, in the order of the queue.
#[derive(Clone, Copy, Debug, PartialEq, Eq)]
pub enum Descriptor {
    // That no entry of the card's page is held.
    Page(Card, DevicePage),
    // That all before it is done.
    Wait,
}

// Up to 16 descriptors, in the order in which they were posted.
#[derive(Drop)]
pub struct Queue {
    // The first `count` are posted, and all 16 where that is more; the places behind them tell nothing. No ghost field, as in `Cache`.
    descriptors: [Descriptor; 16],
    count: usize,
}

impl Queue {
    ghost use Rattle.cache.specs.Posted.{posted};

    // An empty queue.
    #[tactic(auto, unfolding(crate::specs::Posted::posted))]
    pub fn new() -> Queue
        ensures { posted result ≡ [] }
    {
        Queue {
            descriptors: [Descriptor::Wait; 16],
            count: 0,
        }
    }

    // How many descriptors are posted.
    fn len(&self) -> usize
        ensures { result ≡ min self.now.count 16 }
    {
        self.count.min(16)
    }

    // Posts a descriptor behind the others, if there is room for it, and tells whether there was.
    pub fn post(&mut self, descriptor: Descriptor) -> bool
        ensures told { result ≡ has_room (posted self.old) }
        ensures left { posted self.new ≡ posted_behind (posted self.old) descriptor }
    {
        if self.count >= self.descriptors.len() {
            return false;
        }
        self.descriptors[self.count] = descriptor;
        self.count += 1;
        true
    }

    // Takes the descriptors up to and with the first wait, or all where there is no wait; each removes the entries of its page.
    pub fn run(&mut self, cache: &mut Cache)
        ensures queue { posted self.new ≡ after_wait (posted self.old) }
        ensures cache { held cache.new ≡ after_run (posted self.old) (held cache.old) }
    {
        let count = self.len();
        let taken = run_to_wait(&self.descriptors[..count], cache);
        self.descriptors.copy_within(taken..count, 0);
        self.count = count - taken;
    }

    // Removes the entries of `count` pages of the card from the first: posts one descriptor for each page, the pages rising, and
    // a wait behind them, and runs the queue to the wait.
    pub fn invalidate(&mut self, cache: &mut Cache, card: Card, first: DevicePage, count: u64)
        requires empty { posted self.old ≡ [] }
        requires few { count ≤ 8 }
        requires pages { first.0 + count < 2 ^ 64 }
        ensures queue { posted self.new ≡ [] }
        ensures cache { held cache.new ≡ without_span card.0 first.0 count (held cache.old) }
    {
        for i in 0..count {
            self.post(Descriptor::Page(card, DevicePage(first.0 + i)));
        }
        self.post(Descriptor::Wait);
        self.run(cache);
    }
}

// Runs the descriptors up to and with the first wait, and counts those that it took.
fn run_to_wait(descriptors: &[Descriptor], cache: &mut Cache) -> usize
    ensures count { result ≤ length descriptors.now }
    ensures queue { drop result descriptors.now ≡ after_wait descriptors.now }
    ensures cache { held cache.new ≡ after_run descriptors.now (held cache.old) }
{
    for (i, descriptor) in descriptors.iter().enumerate() {
        match *descriptor {
            Descriptor::Page(card, page) => cache.remove(card, page),
            Descriptor::Wait => return i + 1,
        }
    }
    descriptors.len()
}
