// Which table stands where, looked up.
ghost use Rattle.std.specs.Prelude.{◌≡◌, ◌<◌, ◌≤◌, position};
ghost use Rattle.walk.specs.Indices.{index, prefix};
ghost use Rattle.tree.specs.Places.{is_free, stands, table_for};

use crate::place::Table;

// The page's number without the lowest parts, one for each level: what all pages below a table of the level have in common.
#[tactic(auto, using(crate::proofs::Prefixes::prefix_shift))]
pub fn prefix(level: u8, page: u64) -> u64
    requires { level ≤ 4 }
    ensures { result ≡ prefix level page }
{
    page >> (9 * u32::from(level))
}

// Where a page's word, or the link towards it, stands in a table of the level above the given one.
pub fn index(level: u8, page: u64) -> usize
    requires { level ≤ 4 }
    ensures value { result ≡ index level page }
    ensures below { result < 512 }
{
    (prefix(level, page) % 512) as usize
}

impl Table {
    // The table is in use at the level for the prefix.
    pub(crate) fn stands_at(&self, level: u8, prefix: u64) -> bool
        ensures { result ≡ stands level prefix self.now }
    {
        matches!(self, Table::Used(place) if place.level == level && place.prefix == prefix)
    }

    // The table is free.
    pub fn is_free(&self) -> bool
        ensures { result ≡ is_free self.now }
    {
        matches!(self, Table::Free)
    }
}

// The table that stands at the level for the prefix, if there is one.
#[tactic(auto, unfolding(crate::specs::Places::table_for))]
pub fn table_for(tables: &[Table], level: u8, prefix: u64) -> Option<usize>
    ensures { result ≡ table_for tables.now level prefix }
{
    tables
        .iter()
        .position(|table| table.stands_at(level, prefix))
}

// The first free table, if there is one.
pub fn free_table(tables: &[Table]) -> Option<usize>
    ensures { result ≡ position is_free tables.now }
{
    tables.iter().position(|table| table.is_free())
}
