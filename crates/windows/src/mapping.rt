// The windows as a mapper.
ghost use Rattle.std.specs.Prelude.{false};

use crate::windows::Windows;
use mapper::{Mapper, judge};
use meaning::new_mapping;
use units::{
    Access, Card, DeviceAddress, DevicePage, Fault, Frame, Mapping, Request, Sync, UnmapRequest,
};

impl Mapper for Windows {
    fn cards(&self) -> u8 {
        self.geometry.cards
    }

    fn frames(&self) -> u32 {
        self.geometry.frames
    }

    fn open_count(&self) -> u32 {
        self.table.count() as u32
    }

    fn is_reserved(&self, _frame: Frame) -> bool {
        false
    }

    fn is_held(&self, address: u32) -> bool {
        self.table.is_held(address)
    }

    fn mapping_at(&self, card: Card, device: DeviceAddress) -> Option<Mapping> {
        self.table.mapping_at(card, device)
    }

    #[tactic(auto, using(crate::proofs::Calls::asked, pages::proofs::Calls::would_refuse, pages::proofs::Calls::would_fail, pages::proofs::Calls::would_place), unfolding(meaning::specs::Checks::verdict))]
    fn would(&self, memory: &[u8], request: Request) -> Result<DeviceAddress, Fault> {
        self.admit(memory, request)?;
        let placement = self.place(request)?;
        Ok(placement.device)
    }

    #[tactic(auto, using(crate::proofs::Calls::asked, crate::proofs::Calls::refused_call, crate::proofs::Calls::refused_chosen), unfolding(meaning::specs::Checks::verdict))]
    fn map(&mut self, memory: &mut [u8], request: Request) -> Result<DeviceAddress, Fault> {
        self.admit(memory, request)?;
        let placement = self.place(request)?;
        self.table.open(new_mapping(request, placement));
        Ok(placement.device)
    }

    #[tactic(auto, using(crate::proofs::Calls::refused_call, pages::proofs::Facts::lawful_remove), unfolding(meaning::specs::Checks::verdict))]
    fn unmap(&mut self, memory: &mut [u8], request: UnmapRequest) -> Result<(), Fault> {
        self.closing(memory, request)?;
        self.table.close(request.card, request.device);
        Ok(())
    }

    #[tactic(auto, using(crate::proofs::Calls::refused_call, pages::proofs::Facts::lawful_turn), unfolding(meaning::specs::Checks::verdict))]
    fn sync(
        &mut self,
        memory: &mut [u8],
        call: Sync,
        card: Card,
        device: DeviceAddress,
    ) -> Result<(), Fault> {
        self.turning(memory, call, card, device)?;
        self.table.turn(card, device, call.holder());
        Ok(())
    }

    fn translate(&mut self, card: Card, page: DevicePage, access: Access) -> Result<Frame, Fault> {
        judge(self.table.reach(card, page), 0, access)
    }
}
