// Tables counted by what they are for.
ghost use Rattle.std.specs.Prelude.{◌≡◌, ◌+◌, ◌^◌, ◌<◌, ◌≤◌};
ghost use Rattle.tree.specs.Counts.{free_count, lacking, lacks_next};

use tree::{Table, prefix, table_for};

// How many tables are free.
pub fn free_count(tables: &[Table]) -> usize
    ensures { result ≡ free_count tables.now }
{
    tables.iter().filter(|table| table.is_free()).count()
}

// 1 if page `first + n` lacks a table of the level that the page before it, from `first` on, does not share, and else 0.
fn lacks_next(tables: &[Table], level: u8, first: u64, n: u64) -> usize
    requires high { level ≤ 4 }
    requires span { first + n < 2 ^ 64 }
    ensures value { result ≡ lacks_next tables.now level first n }
    ensures one { result ≤ 1 }
{
    let next = prefix(level, first + n);
    if n > 0 && prefix(level, first + (n - 1)) == next {
        return 0;
    }
    usize::from(table_for(tables, level, next).is_none())
}

// How many tables below the roots the pages of a span lack.
pub fn lacking(tables: &[Table], first: u64, count: u64) -> usize
    requires few { count ≤ 8 }
    requires span { first + count < 2 ^ 64 }
    ensures { result ≡ lacking tables.now first count }
{
    let mut lacks = 0;
    for n in 0..count {
        lacks += lacks_next(tables, 1, first, n)
            + lacks_next(tables, 2, first, n)
            + lacks_next(tables, 3, first, n);
    }
    lacks
}
