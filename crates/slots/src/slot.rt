// One slot: free, or with one open mapping.
ghost use Rattle.std.specs.Prelude.{◌≡◌, ◌&&◌, Some, None};
ghost use Rattle.units.specs.declared.mapping.Mapping.{Mapping as Opened};
ghost use Rattle.meaning.specs.Mappings.{card_holds, covers, on_page, starts, turned};
ghost use Rattle.slots.specs.Slots.{free_slot, has, holding, is_free, pages_in, reach_by};

use chooser::Range;
use meaning::{is_held_at, is_on_page, reach_by, starts_at};
use units::{Card, DeviceAddress, DevicePage, Holder, Mapping, Reach};

#[derive(Clone, Copy, Debug, PartialEq, Eq)]
pub struct Slot {
    pub mapping: Option<Mapping>,
}

// Card and device address, or page, are two parameters, as in `Mapper`.
impl Slot {
    // The slot takes the mapping.
    pub fn open(&mut self, mapping: Mapping)
        ensures { self.new ≡ holding mapping }
    {
        self.mapping = Some(mapping);
    }

    // The slot becomes free.
    pub fn close(&mut self)
        ensures { self.new ≡ free_slot }
    {
        self.mapping = None;
    }

    // The slot's mapping passes to another holder.
    pub fn turn(&mut self, holder: Holder)
        ensures held { (m : Opened) → self.old.mapping ≡ Some m → self.new ≡ holding (turned holder m) }
        ensures free { self.old.mapping ≡ None → self.new ≡ self.old }
    {
        if let Some(mapping) = &mut self.mapping {
            mapping.holder = holder;
        }
    }

    // The slot holds no mapping.
    pub(crate) fn is_free(&self) -> bool
        ensures { result ≡ is_free self.now }
    {
        self.mapping.is_none()
    }

    // Its mapping starts at the card's device address.
    pub(crate) fn starts_at(&self, card: Card, device: DeviceAddress) -> bool
        ensures { result ≡ has (starts card.0 device.0) self.now }
    {
        self.mapping
            .is_some_and(|mapping| starts_at(&mapping, card, device))
    }

    // Its mapping has the card's device page.
    pub(crate) fn has_page(&self, card: Card, page: DevicePage) -> bool
        ensures { result ≡ has (on_page card.0 page.0) self.now }
    {
        self.mapping
            .is_some_and(|mapping| is_on_page(&mapping, card, page))
    }

    // The byte is in its buffer, and the card holds that.
    pub(crate) fn holds_byte(&self, address: u32) -> bool
        ensures { result ≡ has (λ m. card_holds m.holder && covers m address) self.now }
    {
        self.mapping
            .is_some_and(|mapping| is_held_at(&mapping, address))
    }

    // The pages of the card that the slot takes. A range of none and no `Option`: the chooser goes through a lent list of ranges, in fixed memory.
    pub fn pages(&self, card: Card) -> Range<DevicePage>
        ensures { result ≡ pages_in card.0 self.now }
    {
        match self.mapping {
            Some(mapping) if mapping.card == card => Range {
                first: mapping.device.page(),
                count: mapping.buffer.span(),
            },
            _ => Range {
                first: DevicePage(0),
                count: 0,
            },
        }
    }

    // What the card reaches through the slot at a device page.
    pub fn reach(&self, card: Card, page: DevicePage) -> Option<Reach>
        ensures { result ≡ reach_by card.0 page.0 self.now }
    {
        self.mapping
            .and_then(|mapping| reach_by(&mapping, card, page))
    }
}
