// What holds of the tables of every mapper: that walks are exact, and that room is counted in tables.
ghost use Rattle.std.specs.Prelude.{◌≡◌, ℕ, ◌^◌, ◌<◌, nat_le};
ghost use Rattle.units.specs.declared.direction.Access.{Access as AccessOf};
ghost use Rattle.units.specs.declared.mapping.Request.{Request as RequestOf};
ghost use Rattle.units.specs.Buffers.{span};
ghost use Rattle.meaning.specs.Checks.{allowed};
ghost use Rattle.meaning.specs.Mappings.{reach_of};
ghost use Rattle.slots.specs.Slots.{opened_of};
ghost use Rattle.tree.specs.Counts.{free_count, lacking};
ghost use Rattle.tree.specs.Places.{page_of};
ghost use Rattle.walk.specs.Walks.{reach_in, walked};
ghost use Rattle.table_meaning.specs.Choosing.{room_for, setup_of, table_level, tables_lacking};
ghost use Rattle.table_meaning.specs.Judging.{verdict_of};

use crate::tables::Tables;

impl Tables<'_> {
    // `reach`: walks of the words come to the open mappings, each page's frame and rights, and to nothing else. `judged`: a walk passes
    // or is blocked as they say, and at the level that they say. `room`: there is room for a request on pages from p on exactly when as
    // many tables are free as it lacks, and `lacks` how many those are.
    pub fn walks_are_exact(&self)
        ensures reach { (c p : ℕ) → reach_in self.now.geometry.cards self.now.words.now c p ≡ reach_of (opened_of self.now.records.slots) c p }
        ensures judged { (a : AccessOf) (c p : ℕ) → c < self.now.geometry.cards → p < 2 ^ 36
            → verdict_of (walked a self.now.words.now c p) ≡ allowed (reach_of (opened_of self.now.records.slots) c p) (table_level (setup_of self.now.geometry self.now.count) (opened_of self.now.records.slots) c p) a }
        ensures room { (r : RequestOf) (p : ℕ) → nat_le (lacking self.now.tables (page_of r.card.0 p) (span r.buffer.address r.buffer.length)) (free_count self.now.tables)
            ≡ room_for (setup_of self.now.geometry self.now.count) (opened_of self.now.records.slots) r p }
        ensures lacks { (r : RequestOf) (p : ℕ) → lacking self.now.tables (page_of r.card.0 p) (span r.buffer.address r.buffer.length) ≡ tables_lacking (opened_of self.now.records.slots) r p }
    {}
}
