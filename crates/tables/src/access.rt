// What a walk of the tables lets a card do.
ghost use Rattle.std.specs.Prelude.{◌≡◌, Some, MatchResult};
ghost use Rattle.units.specs.Directions.{allows};
ghost use Rattle.meaning.specs.Checks.{allowed, errs, fine};
ghost use Rattle.meaning.specs.Mappings.{reach_of};
ghost use Rattle.slots.specs.Slots.{opened_of};
ghost use Rattle.table_meaning.specs.Choosing.{setup_of, table_level};

use crate::tables::Tables;
use units::{Access, Card, DevicePage, Fault, FaultKind, Frame, Reach};
use walk::walk;

impl Tables<'_> {
    // The frame and rights that a walk comes to, where it lets the access pass. There is no card past the last, and a device page has 36 bits.
    pub(crate) fn walk(&self, card: Card, page: DevicePage, access: Access) -> Result<Reach, Fault>
        ensures { MatchResult result
            (λ s. (reach_of (opened_of self.now.records.slots) card.0 page.0 ≡ Some s)
            × (allowed (Some s) (table_level (setup_of self.now.geometry self.now.count) (opened_of self.now.records.slots) card.0 page.0) access ≡ fine))
            (λ f. allowed (reach_of (opened_of self.now.records.slots) card.0 page.0) (table_level (setup_of self.now.geometry self.now.count) (opened_of self.now.records.slots) card.0 page.0) access ≡ errs f) }
    {
        if card.0 >= self.geometry.cards || page.0 >= 0x10_0000_0000 {
            return Err(FaultKind::Absent.at(4));
        }
        let entry = walk(self.words, card, page, access)?;
        Ok(Reach {
            frame: Frame(entry.number() as u32),
            rights: entry.rights(),
        })
    }
}
