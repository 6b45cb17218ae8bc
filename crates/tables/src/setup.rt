// Setting the tables up over lent words.
ghost use Rattle.std.specs.Prelude.{◌≡◌, ◌<◌, List, [], length};
ghost use Rattle.units.specs.declared.mapping.Mapping.{Mapping as Opened};
ghost use Rattle.units.specs.declared.mapping.Request.{Request as RequestOf};
ghost use Rattle.cache.specs.Held.{held};
ghost use Rattle.slots.specs.Slots.{opened_of};
ghost use Rattle.table_meaning.specs.Choosing.{accepts, granted, granted_tables, setup_of, setup_refusal, told_by, table_choice, Chooses};
ghost use Rattle.table_meaning.specs.Starting.{words_left};

use crate::tables::Tables;
use cache::{Cache, Queue};
use records::RecordTable;
use table_meaning::first_tables;
use units::Geometry;

impl<'t> Tables<'t> {
    // Tables over lent words, which are cleared, with nothing open; where a number is out of range or the words are not 512 for each
    // table, with no cards and no frames, and the words are left as they are. `choosing` tells how requests will be placed.
    #[tactic(auto, using(table_meaning::proofs::Granting::granted_possible, table_meaning::proofs::Granting::granted_told, table_meaning::proofs::Choice::choice_words))]
    pub fn set_up(geometry: Geometry, count: u8, words: &'t mut [u64]) -> Tables<'t>
        ensures numbers { result.geometry ≡ granted geometry count (length words.old) }
        ensures tables { result.count ≡ granted_tables geometry count (length words.old) }
        ensures refusal { told_by result.geometry ≡ setup_refusal geometry count (length words.old) }
        ensures words { result.words.now ≡ words_left geometry count words.old }
        ensures lent { result.words.ghost_name ≡ words.entry.ghost_name }
        ensures opens { opened_of result.records.slots ≡ [] }
        ensures cache { held result.cache ≡ [] }
        ensures choosing { (o : List Opened) (q : RequestOf) → 0 < q.buffer.length → Chooses (setup_of result.geometry result.count) o q (table_choice (setup_of result.geometry result.count) o q) }
    {
        let size = words.len();
        clear(words, geometry, count);
        let numbers = granted(geometry, count, size);
        let count = granted_tables(geometry, count, size);
        Tables {
            geometry: numbers,
            count,
            words,
            tables: first_tables(numbers.cards, count),
            records: RecordTable::new(),
            cache: Cache::new(),
            queue: Queue::new(),
        }
    }
}

// The numbers are in range: 3 tables more than there are cards up to 64, and `size` words for exactly so many.
fn accepts(geometry: Geometry, count: u8, size: usize) -> bool
    ensures { result ≡ accepts geometry count size }
{
    geometry.is_in_range()
        && geometry.cards as u32 + 3 <= count as u32
        && count <= 64
        && size == count as usize * 512
}

// The numbers as they are given or, where they are refused, no cards and no frames.
fn granted(geometry: Geometry, count: u8, size: usize) -> Geometry
    ensures { result ≡ granted geometry count size }
{
    if accepts(geometry, count, size) {
        geometry
    } else {
        Geometry {
            cards: 0,
            frames: 0,
            ..geometry
        }
    }
}

// The tables as they are given or, where the numbers are refused, none.
fn granted_tables(geometry: Geometry, count: u8, size: usize) -> u8
    ensures { result ≡ granted_tables geometry count size }
{
    if accepts(geometry, count, size) {
        count
    } else {
        0
    }
}

// Clears the words, where the numbers are accepted.
fn clear(words: &mut [u64], geometry: Geometry, count: u8)
    ensures { words.new ≡ words_left geometry count words.old }
{
    if accepts(geometry, count, words.len()) {
        words.fill(0);
    }
}
