// Device pages are free again only once the translation cache names none of them.
ghost use Rattle.std.specs.Prelude.{◌≡◌, true};
ghost use Rattle.meaning.specs.Mappings.{remove};
ghost use Rattle.meaning.specs.Worlds.{Setup};
ghost use Rattle.pages.specs.Lawful.{lawful};
ghost use Rattle.table_meaning.specs.Coherent.{Unnamed};
ghost use Rattle.cache.specs.Held.{held};
ghost use Rattle.slots.specs.Slots.{freed, opened_of};

use cache::Cache;
use records::RecordTable;
use units::Mapping;

// Frees the device pages of a mapping: no entry of the cache may name one.
pub(crate) fn release(records: &mut RecordTable, cache: &Cache, mapping: Mapping)
    requires { Unnamed (held cache.now) mapping }
    ensures closes { (S : Setup) → lawful S (opened_of records.old.slots) ≡ true → opened_of records.new.slots ≡ remove mapping.card.0 mapping.device.0 (opened_of records.old.slots) }
    ensures first { records.new.slots ≡ freed mapping.card.0 mapping.device.0 records.old.slots }
{
    records.close(mapping.card, mapping.device);
}
