// The tables at set-up.
ghost use Rattle.std.specs.Prelude.{◌≡◌, ◌<◌, ◌≤◌};
ghost use Rattle.table_meaning.specs.Starting.{Started, start_of};

use std::array;
use tree::{Place, Table};

// Each card's root is the table of its number; the others of `count` tables are free.
pub fn first_tables(cards: u8, count: u8) -> [Table; 64]
    requires { count ≤ 64 }
    ensures { Started cards count result }
{
    array::from_fn(
        |t|
            requires { t < 64 }
            ensures { result ≡ start_of cards count t }
        { first_use(cards, count, t) },
    )
}

// What table t is for at first.
fn first_use(cards: u8, count: u8, t: usize) -> Table
    ensures { result ≡ start_of cards count t }
{
    if t >= count as usize {
        Table::Missing
    } else if t < cards as usize {
        Table::Used(Place {
            level: 4,
            prefix: t as u64,
        })
    } else {
        Table::Free
    }
}
