// Pages numbered over all cards.
ghost use Rattle.std.specs.Prelude.{◌≡◌, ◌^◌, ◌<◌};
ghost use Rattle.tree.specs.Places.{page_of};

use units::{Card, DevicePage};

// The number of a card's device page, which has 36 bits, over all cards.
pub fn page_number(card: Card, page: DevicePage) -> u64
    requires { page.0 < 2 ^ 36 }
    ensures { result ≡ page_of card.0 page.0 }
{
    u64::from(card.0) * 0x10_0000_0000 + page.0
}
