// The words for an open mapping, in code. Card and device address, or page, are two parameters, as a mapper's calls have them.
ghost use Rattle.std.specs.Prelude.{◌≡◌, ◌+◌, ◌-◌, ◌/◌, ◌<◌, ◌≤◌, true, ◌&&◌, if◌then◌else◌, None};
ghost use Rattle.meaning.specs.Mappings.{card_holds, covers, on_page, reach_through, starts};
ghost use Rattle.meaning.specs.Effects.{new_mapping};

use units::{
    Card, DeviceAddress, DevicePage, Direction, Frame, Holder, Mapping, Placement, Reach, Request,
};

// What an accepted map request opens: the card holds the buffer.
pub fn new_mapping(request: Request, placement: Placement) -> Mapping
    ensures { result ≡ new_mapping request placement }
{
    Mapping {
        card: request.card,
        direction: Direction::try_from(request.direction).unwrap_or(Direction::Both),
        buffer: request.buffer,
        device: placement.device,
        landing: placement.landing,
        holder: Holder::ByCard,
    }
}

// The mapping starts at the card's device address.
pub fn starts_at(mapping: &Mapping, card: Card, device: DeviceAddress) -> bool
    ensures { result ≡ starts card.0 device.0 mapping.now }
{
    mapping.card == card && mapping.device == device
}

// The card's device page is one of the mapping's. Comparisons and no range with `contains`: with that the proof did not close.
pub fn is_on_page(mapping: &Mapping, card: Card, page: DevicePage) -> bool
    ensures test { result ≡ on_page card.0 page.0 mapping.now }
    ensures near { result ≡ true → (mapping.now.device.0 / 4096 ≤ page.0) × (page.0 - mapping.now.device.0 / 4096 < 1048577) }
{
    let first = mapping.device.page();
    mapping.card == card && first <= page && page.0 - first.0 < mapping.buffer.span()
}

// The byte is in the mapping's buffer, and the card holds that.
pub fn is_held_at(mapping: &Mapping, address: u32) -> bool
    ensures { result ≡ (card_holds mapping.now.holder && covers mapping.now address) }
{
    let bytes = mapping.buffer.address as u64..mapping.buffer.end();
    mapping.holder == Holder::ByCard && bytes.contains(&(address as u64))
}

// The frame and rights that the card finds through the mapping at a device page.
pub fn reach_by(mapping: &Mapping, card: Card, page: DevicePage) -> Option<Reach>
    ensures { result ≡ (if on_page card.0 page.0 mapping.now then reach_through mapping.now page.0 else None) }
{
    if !is_on_page(mapping, card, page) {
        return None;
    }
    let ahead = page.0 - mapping.device.page().0;
    Some(Reach {
        frame: Frame(Frame::of(mapping.landing).0 + ahead as u32),
        rights: mapping.direction.rights(),
    })
}
