// Where to look on behind a page that is not reached.
ghost use Rattle.std.specs.Prelude.{◌≡◌, ℕ, ◌^◌, ◌<◌, ◌≤◌, None};
ghost use Rattle.walk.specs.Indices.{prefix};
ghost use Rattle.walk.specs.Told.{with_frame};
ghost use Rattle.walk.specs.Walks.{reach_in};
ghost use Rattle.page_list.specs.Lists.{Alike};

use units::{Access, Card, DevicePage, FaultKind};
use walk::walk;

// A page behind one that is not reached, with none that is reached between them: behind all that lie below the same absent word.
pub(crate) fn next_page(words: &[u64], card: Card, page: u64) -> u64
    requires { page < 2 ^ 36 }
    ensures after { page < result }
    ensures none { (cards : ℕ) → with_frame (reach_in cards words.now card.0 page) ≡ None → (p : ℕ) → page ≤ p → p < result → with_frame (reach_in cards words.now card.0 p) ≡ None }
{
    match walk(words, card, DevicePage(page), Access::Read) {
        Err(fault) if fault.kind == FaultKind::Absent => behind(page, fault.place),
        _ => page + 1,
    }
}

// The first page that does not lie below the same word of a level as this page.
fn behind(page: u64, level: u64) -> u64
    requires { page < 2 ^ 36 }
    ensures after { page < result }
    ensures alike { Alike level page result }
{
    match level {
        4 => (page / 0x800_0000 + 1) * 0x800_0000,
        3 => (page / 0x4_0000 + 1) * 0x4_0000,
        2 => (page / 512 + 1) * 512,
        _ => page + 1,
    }
}
