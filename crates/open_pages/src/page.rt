// One page is opened: a table at each level on the way to it, and its word.
ghost use Rattle.std.specs.Prelude.{◌≡◌, ℕ, suc, ◌+◌, ◌*◌, ◌^◌, ◌<◌, ◌≤◌, List, ◌∷◌, Some};
ghost use Rattle.walk.specs.Indices.{prefix};
ghost use Rattle.tree.specs.Places.{table_for, Stay};
ghost use Rattle.tree.specs.Layout.{Fits, put};
ghost use Rattle.tree.specs.Counts.{free_count, lacks, lacks_at};
ghost use Rattle.open_pages.specs.Opening.{Hung, Hangs, Fitted, Made};

use entry::Entry;
use tree::{Place, Table, free_table, index, prefix, table_for};

// The table of the level on the way to the page: the one that stands there, or else a free one, hung below the table above.
fn table_below(words: &mut [u64], tables: &mut [Table], above: usize, level: u8, page: u64) -> usize
    requires hangs { Hangs tables.old words.old }
    requires low { 1 ≤ level }
    requires high { level ≤ 3 }
    requires stands { table_for tables.old (suc level) (prefix (suc level) page) ≡ Some above }
    requires room { lacks_at tables.old level page ≤ free_count tables.old }
    ensures hangs { Hangs tables.new words.new }
    ensures hung { (C T : ℕ) (leaf : ℕ → ℕ) → Hung C T tables.old leaf words.old → Hung C T tables.new leaf words.new }
    ensures made { Made tables.old tables.new level (prefix level page) result }
    ensures stay { Stay tables.old tables.new }
    ensures taken { free_count tables.new + lacks_at tables.old level page ≡ free_count tables.old }
{
    let prefix = prefix(level, page);
    if let Some(table) = table_for(tables, level, prefix) {
        return table;
    }
    // The caller has counted the free tables.
    let Some(fresh) = free_table(tables) else {
        unreachable!()
    };
    words[above * 512 + index(level, page)] = Entry::table(fresh as u32).word();
    tables[fresh] = Table::Used(Place { level, prefix });
    fresh
}

// The page has the entry, and each table on the way to it.
pub(crate) fn open_page(words: &mut [u64], tables: &mut [Table], page: u64, entry: Entry)
    requires fitted { Fitted tables.old words.old (page + 1) }
    requires room { lacks tables.old page ≤ free_count tables.old }
    requires present { 0 < entry.word }
    ensures opened { (C T : ℕ) (leaf : ℕ → ℕ) (qs : List ℕ) → Fits C T tables.old leaf qs words.old → page < C * 2 ^ 36 → Fits C T tables.new (put leaf page entry.word) (page ∷ qs) words.new }
    ensures stay { Stay tables.old tables.new }
    ensures taken { free_count tables.new + lacks tables.old page ≡ free_count tables.old }
{
    let root = prefix(4, page) as usize;
    let third = table_below(words, tables, root, 3, page);
    let second = table_below(words, tables, third, 2, page);
    let first = table_below(words, tables, second, 1, page);
    words[first * 512 + index(0, page)] = entry.word();
}
