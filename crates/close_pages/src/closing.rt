// Pages closed one after the other.
ghost use Rattle.std.specs.Prelude.{◌≡◌, ◌+◌, ◌*◌, ◌^◌, ◌<◌, ◌≤◌, true, false, length, slice_set};
ghost use Rattle.walk.specs.Indices.{index};
ghost use Rattle.tree.specs.Places.{Stay};
ghost use Rattle.close_pages.specs.Closing.{AreOpen, Closed, ClosedOne, Given, IsClosing, Kept, is_blank};

use tree::{Table, index, prefix, table_for};

// Each word of the table is 0.
fn is_blank(words: &[u64], table: usize) -> bool
    requires { table * 512 + 512 ≤ length words.now }
    ensures { result ≡ is_blank words.now table }
{
    let start = table * 512;
    words[start..start + 512].iter().all(|word| *word == 0)
}

// Clears the page's word in a table of the level above the given one.
fn clear_word(words: &mut [u64], table: usize, level: u8, page: u64)
    requires low { level ≤ 3 }
    requires few { table < 64 }
    requires inside { table * 512 + 512 ≤ length words.old }
    ensures { words.new ≡ slice_set words.old (table * 512 + index level page) 0 }
{
    words[table * 512 + index(level, page)] = 0;
}

// Gives the page's table of the level back, and clears the word that led to it, if each of its words is 0. It answers whether it did.
fn give_back(words: &mut [u64], tables: &mut [Table], level: u8, page: u64) -> bool
    requires low { 1 ≤ level }
    requires high { level < 4 }
    requires closing { IsClosing level page tables.old words.old }
    ensures given { result ≡ true → Given level page tables.old words.old tables.new words.new }
    ensures kept { result ≡ false → Kept level page tables.old words.old tables.new words.new }
    ensures stay { Stay tables.new tables.old }
{
    let Some(table) = table_for(tables, level, prefix(level, page)) else {
        return false;
    };
    let Some(above) = table_for(tables, level + 1, prefix(level + 1, page)) else {
        return false;
    };
    if !is_blank(words, table) {
        return false;
    }
    clear_word(words, above, level, page);
    tables[table] = Table::Free;
    true
}

// Clears the page's word and gives back each table on its way that then has no word, from level 1 up.
fn close_page(words: &mut [u64], tables: &mut [Table], page: u64)
    requires { AreOpen tables.old words.old page 1 }
    ensures closed { ClosedOne tables.old words.old tables.new words.new page }
    ensures stay { Stay tables.new tables.old }
{
    let Some(table) = table_for(tables, 1, prefix(1, page)) else {
        return;
    };
    clear_word(words, table, 0, page);
    for level in 1..4 {
        if !give_back(words, tables, level, page) {
            return;
        }
    }
}

// Closes the pages of a span: clears their words and gives back each table below a root that then has no word.
pub fn close_span(words: &mut [u64], tables: &mut [Table], first: u64, count: u64)
    requires opened { AreOpen tables.old words.old first count }
    requires span { first + count < 2 ^ 64 }
    ensures closed { Closed tables.old words.old tables.new words.new first count }
    ensures stay { Stay tables.new tables.old }
{
    for i in 0..count {
        close_page(words, tables, first + i);
    }
}
