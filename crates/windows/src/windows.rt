// The windows with the numbers of their set-up.
ghost use Rattle.std.specs.Prelude.{◌≡◌, ◌<◌, true, List, []};
ghost use Rattle.units.specs.declared.mapping.Mapping.{Mapping as Opened};
ghost use Rattle.units.specs.declared.mapping.Request.{Request as RequestOf};
ghost use Rattle.pages.specs.Lawful.{Ranged, lawful};
ghost use Rattle.window_table.specs.Choosing.{granted, setup_refusal, setup_of, told_by, window_choice, Chooses};
ghost use Rattle.slots.specs.Slots.{opened_of};

use chooser::Space;
use units::{DeviceAddress, DevicePage, Fault, FaultKind, Geometry, Placement, Request};
use window_table::WindowTable;

#[derive(Drop)]
pub struct Windows {
    pub geometry: Geometry,
    pub table: WindowTable,
    ghost ranged: { Ranged (setup_of geometry) },
    ghost kept: { lawful (setup_of geometry) (opened_of table.slots) ≡ true },
}

impl Windows {
    // Windows with nothing open; where a number is out of range, with no cards and no frames. `choosing` tells how requests will be placed.
    #[tactic(auto, using(window_table::proofs::Laws::choice_words, window_table::proofs::Laws::granted_ranged, window_table::proofs::Laws::fresh))]
    pub fn set_up(geometry: Geometry) -> Windows
        ensures numbers { result.geometry ≡ granted geometry }
        ensures refusal { told_by result.geometry ≡ setup_refusal geometry }
        ensures empty { opened_of result.table.slots ≡ [] }
        ensures choosing { (o : List Opened) (q : RequestOf) → 0 < q.buffer.length → Chooses (setup_of result.geometry) o q (window_choice (setup_of result.geometry) o q) }
    {
        Windows {
            geometry: accepted(geometry),
            table: WindowTable::new(),
        }
    }

    // Why the set-up was refused: a number was out of range. A refused set-up is a mapper all the same, with no cards and no frames,
    // whose calls answer as any mapper's do; so `set_up` gives no `Result`.
    pub fn refusal(&self) -> Option<FaultKind>
        ensures { result ≡ told_by self.now.geometry }
    {
        (self.geometry.cards == 0).then_some(FaultKind::WrongSetup)
    }

    // Where a request of a card would be put: the chooser's pages, and a window.
    pub(crate) fn place(&self, request: Request) -> Result<Placement, Fault>
        requires card { request.card.0 < self.now.geometry.cards }
        requires some { 0 < request.buffer.length }
        ensures { result ≡ window_choice (setup_of self.now.geometry) (opened_of self.now.table.slots) request }
    {
        let used = self.table.used_pages(request.card);
        let pages = Space {
            lo: DevicePage(1),
            hi: self.geometry.lasts[request.card.0 as usize],
            used: &used,
        };
        let page = pages.choose(request.buffer.span())?;
        if self.table.is_full() {
            return Err(FaultKind::NoRecord.at(8));
        }
        let device = DeviceAddress(page.0 * 4096 + request.buffer.address as u64 % 4096);
        Ok(Placement {
            device,
            landing: request.buffer.address,
        })
    }
}

// The numbers as they are given or, where one is out of range, no cards and no frames.
fn accepted(geometry: Geometry) -> Geometry
    ensures { result ≡ granted geometry }
{
    if geometry.is_in_range() {
        geometry
    } else {
        Geometry {
            cards: 0,
            frames: 0,
            ..geometry
        }
    }
}
