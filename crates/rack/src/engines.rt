// Engines with the rack's numbers, new: nothing open and nothing counted.
ghost use Rattle.std.specs.Prelude.{◌≡◌, [], length, replicate};
ghost use Rattle.cache.specs.Held.{held};
ghost use Rattle.engine.specs.Made.{no_reports};
ghost use Rattle.slots.specs.Slots.{opened_of};
ghost use Rattle.table_meaning.specs.Choosing.{granted, granted_tables};
ghost use Rattle.table_meaning.specs.Starting.{words_left};
ghost use Rattle.rack.specs.Numbers.{numbers as rack_numbers};

use engine::Engine;
use tables::Tables;
use units::{DevicePage, Geometry};
use windows::Windows;

// 2 cards with last device page 1,048,575 each, and 8 frames of memory.
fn numbers() -> Geometry
    ensures { result ≡ rack_numbers }
{
    Geometry {
        cards: 2,
        lasts: [DevicePage(1_048_575); 4],
        frames: 8,
    }
}

// An engine over bare windows.
pub fn bare_windows() -> Engine<Windows>
    ensures numbers { result.mapper.geometry ≡ rack_numbers }
    ensures empty { opened_of result.mapper.table.slots ≡ [] }
    ensures counted { result.reports ≡ no_reports }
{
    Engine::over(Windows::set_up(numbers()))
}

// An engine over 10 bare tables in lent words: of 5,120 words all are cleared; any other number of them is refused and left as it is.
pub fn bare_tables(words: &mut [u64]) -> Engine<Tables<'_>>
    ensures numbers { result.mapper.geometry ≡ granted rack_numbers 10 (length words.old) }
    ensures tables { result.mapper.count ≡ granted_tables rack_numbers 10 (length words.old) }
    ensures words { result.mapper.words.now ≡ words_left rack_numbers 10 words.old }
    ensures lent { result.mapper.words.ghost_name ≡ words.entry.ghost_name }
    ensures empty { opened_of result.mapper.records.slots ≡ [] }
    ensures cache { held result.mapper.cache ≡ [] }
    ensures counted { result.reports ≡ no_reports }
    ensures enough { length words.old ≡ 5120 → (result.mapper.geometry ≡ rack_numbers) × (result.mapper.count ≡ 10) × (result.mapper.words.now ≡ replicate (length words.old) 0) }
{
    Engine::over(Tables::set_up(numbers(), 10, words))
}
