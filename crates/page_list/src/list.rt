// The list of the pages that a card reaches.
ghost use Rattle.std.specs.Prelude.{◌≡◌, ◌+◌, ◌^◌, min, IfOk};
ghost use Rattle.walk.specs.Told.{with_frame};
ghost use Rattle.walk.specs.Walks.{reach_in};
ghost use Rattle.page_list.specs.Lists.{Listed};

use crate::next::next_page;
use std::alloc::{AllocError, Global};
use units::{Card, DevicePage, Reach};
use walk::reach;

// A device page, and what a card finds there.
#[derive(Clone, Copy, Debug, PartialEq, Eq)]
pub struct PageReach {
    pub page: DevicePage,
    pub reach: Reach,
}

// The device pages up to `last` that a card, of so many, reaches by walks of the words, rising, with what it finds at each.
pub fn reached_pages(
    alloc: Global,
    words: &[u64],
    cards: u8,
    card: Card,
    last: DevicePage,
) -> Result<Vec<PageReach>, AllocError>
    ensures { IfOk result (λ v. Listed (λ p. with_frame (reach_in cards words.now card.0 p)) (min (last.0 + 1) (2 ^ 36)) v.items) }
{
    let mut pages = Vec::new(alloc);
    let end = last.0.saturating_add(1).min(0x10_0000_0000);
    let mut page = 0;
    while page < end {
        match reach(words, cards, card, DevicePage(page)) {
            Some(reach) => {
                pages.push(PageReach {
                    page: DevicePage(page),
                    reach,
                })?;
                page += 1;
            }
            None => page = next_page(words, card, page).min(end),
        }
    }
    Ok(pages)
}
