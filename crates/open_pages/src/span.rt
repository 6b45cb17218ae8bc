// Pages in a row are opened, onto frames in a row.
ghost use Rattle.std.specs.Prelude.{◌≡◌, ℕ, ◌+◌, ◌*◌, ◌^◌, ◌<◌, ◌≤◌, List, ◌++◌};
ghost use Rattle.units.specs.Directions.{rights_of};
ghost use Rattle.entry.specs.Words.{word_of};
ghost use Rattle.tree.specs.Places.{Stay};
ghost use Rattle.tree.specs.Layout.{Fits, put_span};
ghost use Rattle.tree.specs.Counts.{free_count, lacking, pages_from};
ghost use Rattle.open_pages.specs.Opening.{Fitted};

use crate::page::open_page;
use entry::Entry;
use tree::Table;
use units::{Direction, Frame};

// Each page leads to its frame, with the rights of the direction; tables in use stay where they stand.
pub fn open_span(
    words: &mut [u64],
    tables: &mut [Table],
    first: u64,
    count: u64,
    frame: Frame,
    direction: Direction,
)
    requires fitted { Fitted tables.old words.old (first + count) }
    requires room { lacking tables.old first count ≤ free_count tables.old }
    requires frames { frame.0 + count < 2 ^ 32 }
    ensures opened { (C T : ℕ) (leaf : ℕ → ℕ) (qs : List ℕ) → Fits C T tables.old leaf qs words.old → first + count ≤ C * 2 ^ 36
        → Fits C T tables.new (put_span leaf first count (λ j. word_of (rights_of direction) (frame.0 + j))) (pages_from first count ++ qs) words.new }
    ensures stay { Stay tables.old tables.new }
    ensures taken { free_count tables.new + lacking tables.old first count ≡ free_count tables.old }
{
    for j in 0..count {
        open_page(
            words,
            tables,
            first + j,
            Entry::page(Frame(frame.0 + j as u32), direction),
        );
    }
}
