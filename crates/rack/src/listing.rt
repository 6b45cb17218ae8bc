// The device pages that a card reaches through the tables.
ghost use Rattle.std.specs.Prelude.{◌≡◌, IfOk};
ghost use Rattle.units.specs.Geometry.{last_page as last_page_of};
ghost use Rattle.meaning.specs.Mappings.{reach_of};
ghost use Rattle.slots.specs.Slots.{opened_of};
ghost use Rattle.page_list.specs.Lists.{AllListed};

use page_list::{PageReach, reached_pages};
use std::alloc::{AllocError, Global};
use tables::Tables;
use units::{Card, DevicePage, Geometry};

// The device pages that a card reaches by walks of the tables' words, rising, with what it finds at each: those of its open mappings,
// and no other.
pub fn open_pages(
    alloc: Global,
    tables: &Tables<'_>,
    card: Card,
) -> Result<Vec<PageReach>, AllocError>
    ensures { IfOk result (λ v. AllListed (reach_of (opened_of tables.now.records.slots) card.0) v.items) }
{
    let last = last_page(&tables.geometry, card);
    reached_pages(alloc, tables.words, tables.geometry.cards, card, last)
}

// The last device page of a card, or 0 past the numbers of a set-up.
fn last_page(geometry: &Geometry, card: Card) -> DevicePage
    ensures { result.0 ≡ last_page_of geometry.now card.0 }
{
    geometry
        .lasts
        .get(card.0 as usize)
        .copied()
        .unwrap_or(DevicePage(0))
}
