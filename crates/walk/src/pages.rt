// What a card may do at a page, for tools that list it.
ghost use Rattle.std.specs.Prelude.{◌≡◌};
ghost use Rattle.walk.specs.Told.{with_frame};
ghost use Rattle.walk.specs.Walks.{reach_in};

use crate::access::walk;
use units::{Access, Card, DevicePage, Frame, Reach, Rights};

// What a card, of so many, reaches at a device page; nothing where the walk leads to a number above that of any frame.
pub fn reach(words: &[u64], cards: u8, card: Card, page: DevicePage) -> Option<Reach>
    ensures { result ≡ with_frame (reach_in cards words.now card.0 page.0) }
{
    if card.0 >= cards || page.0 >= 0x10_0000_0000 {
        return None;
    }
    let read = walk(words, card, page, Access::Read).ok();
    let write = walk(words, card, page, Access::Write).ok();
    let entry = read.or(write)?;
    let frame = u32::try_from(entry.number()).ok()?;
    Some(Reach {
        frame: Frame(frame),
        rights: Rights {
            read: read.is_some(),
            write: write.is_some(),
        },
    })
}
