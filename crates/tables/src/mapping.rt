// The tables as a mapper.
ghost use Rattle.std.specs.Prelude.{false};

use crate::release::release;
use crate::tables::Tables;
use cache::Translation;
use close_pages::close_span;
use mapper::{Mapper, judge};
use meaning::new_mapping;
use open_pages::open_span;
use table_meaning::page_number;
use units::{
    Access, Card, DeviceAddress, DevicePage, Fault, Frame, Mapping, Request, Sync, UnmapRequest,
};

impl Mapper for Tables<'_> {
    fn cards(&self) -> u8 {
        self.geometry.cards
    }

    fn frames(&self) -> u32 {
        self.geometry.frames
    }

    fn open_count(&self) -> u32 {
        self.records.count() as u32
    }

    fn is_reserved(&self, _frame: Frame) -> bool {
        false
    }

    fn is_held(&self, address: u32) -> bool {
        self.records.is_held(address)
    }

    fn mapping_at(&self, card: Card, device: DeviceAddress) -> Option<Mapping> {
        self.records.mapping_at(card, device)
    }

    #[tactic(auto, using(pages::proofs::Calls::asked, pages::proofs::Calls::would_refuse, pages::proofs::Calls::would_fail, pages::proofs::Calls::would_place), unfolding(meaning::specs::Checks::verdict))]
    fn would(&self, memory: &[u8], request: Request) -> Result<DeviceAddress, Fault> {
        self.admit(memory, request)?;
        let place = self.place(request)?;
        Ok(place.device)
    }

    #[tactic(auto, using(crate::proofs::Calls::refused_call, crate::proofs::Calls::refused_chosen), unfolding(meaning::specs::Checks::verdict))]
    fn map(&mut self, memory: &mut [u8], request: Request) -> Result<DeviceAddress, Fault> {
        self.admit(memory, request)?;
        let placement = self.place(request)?;
        let mapping = new_mapping(request, placement);
        let first = page_number(mapping.card, mapping.device.page());
        let words = &mut *self.words;
        open_span(
            words,
            &mut self.tables,
            first,
            mapping.buffer.span(),
            Frame::of(mapping.landing),
            mapping.direction,
        );
        self.records.open(mapping);
        Ok(placement.device)
    }

    #[tactic(auto, using(crate::proofs::Calls::refused_call), unfolding(meaning::specs::Checks::verdict))]
    fn unmap(&mut self, memory: &mut [u8], request: UnmapRequest) -> Result<(), Fault> {
        let mapping = self.closing(memory, request)?;
        let page = mapping.device.page();
        let span = mapping.buffer.span();
        let words = &mut *self.words;
        close_span(
            words,
            &mut self.tables,
            page_number(mapping.card, page),
            span,
        );
        self.queue
            .invalidate(&mut self.cache, mapping.card, page, span);
        release(&mut self.records, &self.cache, mapping);
        Ok(())
    }

    #[tactic(auto, using(crate::proofs::Calls::refused_call), unfolding(meaning::specs::Checks::verdict))]
    fn sync(
        &mut self,
        memory: &mut [u8],
        call: Sync,
        card: Card,
        device: DeviceAddress,
    ) -> Result<(), Fault> {
        self.turning(memory, call, card, device)?;
        self.records.turn(card, device, call.holder());
        Ok(())
    }

    fn translate(&mut self, card: Card, page: DevicePage, access: Access) -> Result<Frame, Fault> {
        if let Some(reach) = self.cache.find(card, page) {
            return judge(Some(reach), 1, access);
        }
        let reach = self.walk(card, page, access)?;
        self.cache.add(Translation { card, page, reach });
        Ok(reach.frame)
    }
}
