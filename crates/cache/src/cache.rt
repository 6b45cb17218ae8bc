// The translation cache: what walks of the page tables found, so that an access of the same page need not walk again.
ghost use Rattle.std.specs.Prelude.{◌≡◌, min, []};
ghost use Rattle.cache.specs.Entries.{added, cached, is_of, without};

use units::{Card, DevicePage, Frame, Reach, Rights};

// What a card reaches at a device page, as an allowed walk found it.
#[derive(Clone, Copy, Debug, PartialEq, Eq)]
pub struct Translation {
    pub card: Card,
    pub page: DevicePage,
    pub reach: Reach,
}

// Up to 8 translations, oldest first. The oldest is the one that was added first: being found does not renew an entry.
#[derive(Drop)]
pub struct Cache {
    // The first `count` are held, and all 8 where that is more; the places behind them tell nothing. No ghost field bounds the count:
    // a mapper with lent words that holds such a struct is not covered where it stands for a type parameter.
    entries: [Translation; 8],
    count: usize,
}

impl Translation {
    // The entry is of that card and page.
    fn is_of(&self, card: Card, page: DevicePage) -> bool
        ensures { result ≡ is_of card.0 page.0 self.now }
    {
        self.card == card && self.page == page
    }
}

impl Cache {
    ghost use Rattle.cache.specs.Held.{held};

    // A cache that holds nothing.
    #[tactic(auto, unfolding(crate::specs::Held::held))]
    pub fn new() -> Cache
        ensures { held result ≡ [] }
    {
        let unused = Translation {
            card: Card(0),
            page: DevicePage(0),
            reach: Reach {
                frame: Frame(0),
                rights: Rights {
                    read: false,
                    write: false,
                },
            },
        };
        Cache {
            entries: [unused; 8],
            count: 0,
        }
    }

    // How many entries are held.
    fn len(&self) -> usize
        ensures { result ≡ min self.now.count 8 }
    {
        self.count.min(8)
    }

    // The entries that are held.
    fn held(&self) -> &[Translation]
        ensures { result.now ≡ held self.now }
    {
        &self.entries[..self.len()]
    }

    // What the card reaches at the device page, by the oldest entry of that card and page, if there is one.
    #[tactic(auto, unfolding(crate::specs::Entries::cached))]
    pub fn find(&self, card: Card, page: DevicePage) -> Option<Reach>
        ensures { result ≡ cached (held self.now) card.0 page.0 }
    {
        self.held()
            .iter()
            .find(|entry| entry.is_of(card, page))
            .map(|entry| entry.reach)
    }

    // Adds an entry as the newest; where 8 are held, the oldest goes.
    pub fn add(&mut self, entry: Translation)
        ensures { held self.new ≡ added (held self.old) entry }
    {
        if self.count < self.entries.len() {
            self.entries[self.count] = entry;
            self.count += 1;
        } else {
            self.entries.copy_within(1.., 0);
            self.entries[7] = entry;
        }
    }

    // Removes the entries of the card and page; the rest keep their order.
    pub fn remove(&mut self, card: Card, page: DevicePage)
        ensures { held self.new ≡ without card.0 page.0 (held self.old) }
    {
        let mut kept = 0;
        for i in 0..self.len() {
            let entry = self.entries[i];
            if entry.is_of(card, page) {
                continue;
            }
            self.entries[kept] = entry;
            kept += 1;
        }
        self.count = kept;
    }
}
