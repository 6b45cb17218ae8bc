// A card's access through its tables, from the root to the entry of the page.
ghost use Rattle.std.specs.Prelude.{◌≡◌, ◌<◌, ◌^◌};
ghost use Rattle.walk.specs.Told.{Tells};
ghost use Rattle.walk.specs.Walks.{arrives, cell, passing, walked};

use crate::index::page_indices;
use entry::Entry;
use units::{Access, Card, DevicePage, Fault, FaultKind};

// The entry of the page that a card accesses, or the fault of the first level whose entry is absent or lacks the wanted right.
// The card's root is the table with its number.
pub fn walk(words: &[u64], card: Card, page: DevicePage, access: Access) -> Result<Entry, Fault>
    ensures { Tells (walked access words.now card.0 page.0) result }
{
    let [fourth, third, second, first] = page_indices(page);
    let upper = step(words, u64::from(card.0), fourth, 4, access)?;
    let middle = step(words, upper.number(), third, 3, access)?;
    let lower = step(words, middle.number(), second, 2, access)?;
    step(words, lower.number(), first, 1, access)
}

// One level: the entry at an index of a table. Past the last word, and where a word can be no entry, nothing is present.
fn step(words: &[u64], table: u64, index: u64, level: u64, access: Access) -> Result<Entry, Fault>
    requires table { table < 2 ^ 40 }
    requires index { index < 512 }
    ensures { Tells (passing level access (cell words.now table index) (arrives (cell words.now table index))) result }
{
    let entry = words
        .get((table * 512 + index) as usize)
        .and_then(Entry::of)
        .filter(|entry| entry.is_present())
        .ok_or(FaultKind::Absent.at(level))?;
    if !entry.rights().allow(access) {
        return Err(FaultKind::Lacking.at(level));
    }
    Ok(entry)
}
