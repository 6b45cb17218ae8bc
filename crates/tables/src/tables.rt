// The tables with the numbers of their set-up, and where a request would be put.
ghost use Rattle.std.specs.Prelude.{◌≡◌, ◌+◌, ◌^◌, ◌<◌, ◌≤◌, List, [], length, MatchResult};
ghost use Rattle.units.specs.declared.fault.FaultKind.TheVariants.{NoTables};
ghost use Rattle.units.specs.declared.mapping.Mapping.{Mapping as Opened};
ghost use Rattle.units.specs.declared.mapping.Request.{Request as RequestOf};
ghost use Rattle.units.specs.Buffers.{span};
ghost use Rattle.meaning.specs.Checks.{allowed, errs};
ghost use Rattle.meaning.specs.Mappings.{reach_of};
ghost use Rattle.mapper.specs.Called.{Checked};
ghost use Rattle.slots.specs.Slots.{opened_of};
ghost use Rattle.cache.specs.Held.{held};
ghost use Rattle.cache.specs.Posted.{posted};
ghost use Rattle.tree.specs.Layout.{Fits};
ghost use Rattle.table_meaning.specs.Choosing.{granted, granted_tables, setup_of, setup_refusal, told_by, table_choice, tables_lacking, room_for, Chooses, TablesPossible};
ghost use Rattle.table_meaning.specs.Coherent.{Coherent};
ghost use Rattle.table_meaning.specs.Opened.{leaf_of, pages_of};

use cache::{Cache, Queue};
use chooser::Space;
use records::RecordTable;
use table_count::{free_count, lacking};
use table_meaning::{first_tables, page_number};
use tree::Table;
use units::{DeviceAddress, DevicePage, Fault, FaultKind, Geometry, Placement, Request};

#[derive(Drop)]
pub struct Tables<'t> {
    pub geometry: Geometry,
    // How many tables are lent, of 512 words each.
    pub count: u8,
    pub words: &'t mut [u64],
    // Where each table stands; those past the last of the lent ones are missing.
    pub tables: [Table; 64],
    pub records: RecordTable,
    pub cache: Cache,
    pub queue: Queue,
    ghost possible: { TablesPossible (setup_of geometry count) (opened_of records.slots) },
    ghost fits: { Fits geometry.cards count tables (leaf_of (opened_of records.slots)) (pages_of (opened_of records.slots)) words.now },
    ghost coherent: { Coherent (held cache) (opened_of records.slots) },
    ghost idle: { posted queue ≡ [] },
}

impl<'t> Tables<'t> {
    // Why the set-up was refused: a number was out of range, or the words were too few or too many.
    pub fn refusal(&self) -> Option<FaultKind>
        ensures { result ≡ told_by self.now.geometry }
    {
        (self.geometry.cards == 0).then_some(FaultKind::WrongSetup)
    }

    // Where a request of a card would be put: the chooser's pages, a record, and tables.
    pub(crate) fn place(&self, request: Request) -> Result<Placement, Fault>
        requires card { request.card.0 < self.now.geometry.cards }
        requires some { 0 < request.buffer.length }
        requires short { span request.buffer.address request.buffer.length ≤ 8 }
        ensures { result ≡ table_choice (setup_of self.now.geometry self.now.count) (opened_of self.now.records.slots) request }
    {
        let used = self.records.used_pages(request.card);
        let pages = Space {
            lo: DevicePage(1),
            hi: self.geometry.lasts[request.card.0 as usize],
            used: &used,
        };
        let page = pages.choose(request.buffer.span())?;
        if self.records.is_full() {
            return Err(FaultKind::NoRecord.at(32));
        }
        self.check_tables(request, page)?;
        Ok(Placement {
            device: DeviceAddress(page.0 * 4096 + request.buffer.address as u64 % 4096),
            landing: request.buffer.address,
        })
    }

    // As many tables are free as a request lacks on pages from `page` on.
    fn check_tables(&self, request: Request, page: DevicePage) -> Result<(), Fault>
        requires card { request.card.0 < self.now.geometry.cards }
        requires some { 0 < request.buffer.length }
        requires short { span request.buffer.address request.buffer.length ≤ 8 }
        requires pages { page.0 + span request.buffer.address request.buffer.length ≤ 2 ^ 36 }
        ensures { Checked (room_for (setup_of self.now.geometry self.now.count) (opened_of self.now.records.slots) request page.0) NoTables (tables_lacking (opened_of self.now.records.slots) request page.0) result }
    {
        let first = page_number(request.card, page);
        let lacking = lacking(&self.tables, first, request.buffer.span());
        if lacking <= free_count(&self.tables) {
            Ok(())
        } else {
            Err(FaultKind::NoTables.at(lacking as u64))
        }
    }
}
