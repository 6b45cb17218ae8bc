// A fixed table of slots, one lent at a time to open, turn or close it.
ghost use Rattle.std.specs.Prelude.{◌≡◌, ◌<◌, ◌≤◌, true, length, ◌≢◌, nat_le, [], slice_index_or};
ghost use Rattle.units.specs.declared.mapping.Mapping.{Mapping as Opened};
ghost use Rattle.meaning.specs.Mappings.{In, key, insert, remove, starts, turn, find, held, reach_of};
ghost use Rattle.meaning.specs.Worlds.{Setup};
ghost use Rattle.pages.specs.Lawful.{lawful};
ghost use Rattle.slots.specs.Slots.{free_slot, has, place_in, opened_of, all_pages, pages_in, taken, freed, passed};

use crate::slot::Slot;
use chooser::Range;
use std::array;
use units::{Card, DeviceAddress, DevicePage, Holder, Mapping, Reach};

// N is a number of the mapper that keeps its open mappings here.
#[derive(Clone, Copy, Debug, PartialEq, Eq)]
pub struct SlotTable<const N: usize> {
    pub slots: [Slot; N],
}

// Card and device address are two parameters, as in `Mapper`.
impl<const N: usize> SlotTable<N> {
    // A table whose slots are all free.
    #[tactic(auto, using(crate::proofs::Slots::opened_none))]
    pub fn new() -> SlotTable<N>
        ensures { opened_of result.slots ≡ [] }
    {
        SlotTable {
            slots: [Slot { mapping: None }; N],
        }
    }

    // How many slots hold a mapping.
    #[tactic(auto, using(crate::proofs::Slots::count_most))]
    pub fn count(&self) -> usize
        ensures value { result ≡ length (opened_of self.now.slots) }
        ensures within { result ≤ N }
    {
        count_held(&self.slots)
    }

    // All slots hold a mapping.
    pub fn is_full(&self) -> bool
        ensures { result ≡ nat_le N (length (opened_of self.now.slots)) }
    {
        !self.slots.iter().any(|slot| slot.is_free())
    }

    // The pages of the card that each slot takes.
    pub fn used_pages(&self, card: Card) -> [Range<DevicePage>; N]
        ensures { result ≡ all_pages card.0 self.now.slots }
    {
        array::from_fn(
            |i|
                requires { i < N }
                ensures { result ≡ pages_in card.0 (slice_index_or self.entry.now.slots i free_slot) }
            { self.slots[i].pages(card) },
        )
    }

    // The place of the first slot whose mapping starts at the card's device address. A function of its own, so that a call which
    // looks for a mapping and then changes it searches once.
    fn place_at(&self, card: Card, device: DeviceAddress) -> Option<usize>
        ensures { result ≡ place_in (has (starts card.0 device.0)) self.now.slots }
    {
        self.slots
            .iter()
            .position(|slot| slot.starts_at(card, device))
    }

    // The mapping of the card that starts at the device address.
    // That the open mappings are lawful is a premise here and below, and no invariant: `open` would then ask it of its caller.
    pub fn mapping_at(&self, card: Card, device: DeviceAddress) -> Option<Mapping>
        ensures { (S : Setup) → lawful S (opened_of self.now.slots) ≡ true → result ≡ find (opened_of self.now.slots) card.0 device.0 }
    {
        let place = self.place_at(card, device)?;
        self.slots[place].mapping
    }

    // A card holds the byte.
    pub fn is_held(&self, address: u32) -> bool
        ensures { result ≡ held (opened_of self.now.slots) address }
    {
        is_any_held(&self.slots, address)
    }

    // What the card reaches at the device page.
    pub fn reach(&self, card: Card, page: DevicePage) -> Option<Reach>
        ensures { (S : Setup) → lawful S (opened_of self.now.slots) ≡ true → result ≡ reach_of (opened_of self.now.slots) card.0 page.0 }
    {
        self.slots
            .iter()
            .find(|slot| slot.has_page(card, page))?
            .reach(card, page)
    }

    // The first free slot takes the mapping, if there is one. It is found by its place, here and below: once a slot that `iter_mut` found
    // is given back, a proof knows no slot of the table.
    pub fn open(&mut self, mapping: Mapping)
        ensures opens { length (opened_of self.old.slots) < N → ((n : Opened) → In n (opened_of self.old.slots) → key n ≢ key mapping) → opened_of self.new.slots ≡ insert mapping (opened_of self.old.slots) }
        ensures full { N ≤ length (opened_of self.old.slots) → self.new ≡ self.old }
        ensures first { self.new.slots ≡ taken mapping self.old.slots }
    {
        if let Some(i) = self.slots.iter().position(|slot| slot.is_free()) {
            self.slots[i].open(mapping);
        }
    }

    // The slot whose mapping starts at the card's device address becomes free.
    pub fn close(&mut self, card: Card, device: DeviceAddress)
        ensures closes { (S : Setup) → lawful S (opened_of self.old.slots) ≡ true → opened_of self.new.slots ≡ remove card.0 device.0 (opened_of self.old.slots) }
        ensures first { self.new.slots ≡ freed card.0 device.0 self.old.slots }
    {
        if let Some(place) = self.place_at(card, device) {
            self.slots[place].close();
        }
    }

    // The mapping that starts at the card's device address passes to another holder.
    pub fn turn(&mut self, card: Card, device: DeviceAddress, holder: Holder)
        ensures turns { (S : Setup) → lawful S (opened_of self.old.slots) ≡ true → opened_of self.new.slots ≡ turn holder card.0 device.0 (opened_of self.old.slots) }
        ensures first { self.new.slots ≡ passed holder card.0 device.0 self.old.slots }
    {
        if let Some(place) = self.place_at(card, device) {
            self.slots[place].turn(holder);
        }
    }
}

// How many of the slots hold a mapping.
fn count_held(slots: &[Slot]) -> usize
    ensures { result ≡ length (opened_of slots.now) }
{
    slots.iter().filter(|slot| !slot.is_free()).count()
}

// A card holds the byte through one of the slots.
fn is_any_held(slots: &[Slot], address: u32) -> bool
    ensures { result ≡ held (opened_of slots.now) address }
{
    slots.iter().any(|slot| slot.holds_byte(address))
}
