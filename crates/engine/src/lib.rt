// The engine: any mapper, the CPU's accesses, and what was blocked.
#![tactic(auto)]

ghost use Rattle.std.specs.Prelude.{◌≡◌, ℕ, ◌-◌, ◌*◌, ◌<◌, true, List, length};
ghost use Rattle.units.specs.Faults.{is_block_kind};
ghost use Rattle.meaning.specs.Calls.{map, unmap, sync, cpu_read, cpu_write, card_read, card_write, report};
ghost use Rattle.meaning.specs.Checks.{cpu_checks, errs, fine};
ghost use Rattle.meaning.specs.Effects.{answer, noted};
ghost use Rattle.meaning.specs.Told.{tells_at, tells_done, tells_bytes, tells_report, passes};
ghost use Rattle.mapper.specs.Called.{here};
ghost use Rattle.engine.specs.Made.{no_reports, reports_of, state, Made, MadeRead};

use mapper::{Mapper, check_access};
use meaning::{read_bytes, write_bytes};
use units::{
    Block, Buffer, Card, DeviceAddress, Fault, FaultKind, Report, Request, Sync, UnmapRequest,
};

#[derive(Drop)]
pub struct Engine<M: Mapper> {
    pub mapper: M,
    // Of up to 4 cards: memory is fixed.
    pub reports: [Report; 4],
}

// A block adds one to its card's count, which stops at 4,294,967,295, and becomes the card's latest; no other fault does.
#[tactic(auto, using(crate::proofs::Making::noted_set))]
fn note(reports: &mut [Report], card: Card, device: DeviceAddress, fault: Fault)
    requires { is_block_kind fault.kind ≡ true → card.0 < length reports.old }
    ensures { reports_of reports.new ≡ noted card.0 device.0 (errs fault) (reports_of reports.old) }
{
    if fault.kind.is_block() {
        let at = card.0 as usize;
        reports[at] = Report {
            count: reports[at].count.saturating_add(1),
            latest: Some(Block {
                device,
                kind: fault.kind,
                level: fault.place,
            }),
        };
    }
}

// Memory, card and device address are parameters of their own, as in `Mapper`.
impl<M: Mapper> Engine<M> {
    // An engine over a mapper, with nothing counted.
    pub fn over(mapper: M) -> Engine<M>
        ensures mapper { result.mapper ≡ mapper }
        ensures counted { result.reports ≡ no_reports }
    {
        Engine {
            mapper,
            reports: [Report {
                count: 0,
                latest: None,
            }; 4],
        }
    }

    // Opens a mapping for a card, and answers its device address.
    pub fn map(&mut self, memory: &mut [u8], request: Request) -> Result<DeviceAddress, Fault>
        ensures { Made M.Meaning self.old self.new memory.old memory.new (map request) (tells_at result) }
    {
        self.mapper.map(memory, request)
    }

    // Closes a mapping; where the card may write, the buffer's bytes are then what the card left.
    pub fn unmap(&mut self, memory: &mut [u8], request: UnmapRequest) -> Result<(), Fault>
        ensures { Made M.Meaning self.old self.new memory.old memory.new (unmap request.card.0 request.direction request.device.0 request.length) (tells_done result) }
    {
        self.mapper.unmap(memory, request)
    }

    // Hands a mapped buffer to the CPU, or back to the card.
    pub fn sync(
        &mut self,
        memory: &mut [u8],
        call: Sync,
        card: Card,
        device: DeviceAddress,
    ) -> Result<(), Fault>
        ensures { Made M.Meaning self.old self.new memory.old memory.new (sync call card.0 device.0) (tells_done result) }
    {
        self.mapper.sync(memory, call, card, device)
    }

    // Reads for a card; a block is counted. The count stands beside the buffer, whose further bytes stay.
    #[tactic(auto, using(crate::proofs::Making::read_blocked, crate::proofs::Making::few_cards))]
    pub fn card_read(
        &mut self,
        memory: &[u8],
        card: Card,
        device: DeviceAddress,
        count: usize,
        out: &mut [u8],
    ) -> Result<(), Fault>
        ensures { MadeRead M.Meaning self.old self.new memory.now out.old out.new (card_read card.0 device.0 count out.old) (tells_bytes result out.new) }
    {
        let answer = self.mapper.card_read(memory, card, device, count, out);
        if let Err(fault) = answer {
            note(&mut self.reports, card, device, fault);
        }
        answer
    }

    // Writes for a card; a block is counted.
    #[tactic(auto, using(crate::proofs::Making::write_blocked, crate::proofs::Making::few_cards))]
    pub fn card_write(
        &mut self,
        memory: &mut [u8],
        card: Card,
        device: DeviceAddress,
        bytes: &[u8],
    ) -> Result<(), Fault>
        ensures { Made M.Meaning self.old self.new memory.old memory.new (card_write card.0 device.0 bytes.now) (tells_done result) }
    {
        let answer = self.mapper.card_write(memory, card, device, bytes);
        if let Err(fault) = answer {
            note(&mut self.reports, card, device, fault);
        }
        answer
    }

    // What an access of the CPU checks: length, memory, reserved frames, buffers that a card holds.
    // The count stands beside the room, since more than there is room for is refused.
    fn reaches(&self, memory: &[u8], address: u32, count: usize, room: usize) -> Result<(), Fault>
        ensures { cpu_checks (here M.Meaning self.now.mapper memory.now) (M.opened self.now.mapper) address count room ≡ passes result fine }
    {
        check_access(count, room)?;
        let access = Buffer {
            address,
            length: count as u32,
        };
        self.mapper.check_inside(memory, access)?;
        if let Some(frame) = self
            .mapper
            .lowest_reserved(address / 4096, access.span() as u32)
        {
            return Err(FaultKind::ReservedFrame.at(frame as u64));
        }
        match self.mapper.lowest_held(address, count as u32) {
            Some(byte) => Err(FaultKind::WrongHolder.at(byte as u64)),
            None => Ok(()),
        }
    }

    // Reads 1 to 64 bytes for the CPU. The count stands beside the buffer, whose further bytes stay.
    #[tactic(auto, unfolding(meaning::specs::Checks::verdict))]
    pub fn cpu_read(
        &self,
        memory: &[u8],
        address: u32,
        count: usize,
        out: &mut [u8],
    ) -> Result<(), Fault>
        ensures { MadeRead M.Meaning self.now self.now memory.now out.old out.new (cpu_read address count out.old) (tells_bytes result out.new) }
    {
        self.reaches(memory, address, count, out.len())?;
        read_bytes(memory, address as usize, count, out);
        Ok(())
    }

    // Writes 1 to 64 bytes for the CPU.
    #[tactic(auto, unfolding(meaning::specs::Checks::verdict))]
    pub fn cpu_write(&self, memory: &mut [u8], address: u32, bytes: &[u8]) -> Result<(), Fault>
        ensures { Made M.Meaning self.now self.now memory.old memory.new (cpu_write address bytes.now) (tells_done result) }
    {
        self.reaches(memory, address, bytes.len(), bytes.len())?;
        write_bytes(memory, address as usize, bytes);
        Ok(())
    }

    // How often a card was blocked, and its latest block.
    #[tactic(auto, using(crate::proofs::Making::few_cards), unfolding(meaning::specs::Checks::verdict, crate::specs::Made::reports_of))]
    pub fn report(&self, card: Card) -> Result<Report, Fault>
        ensures { (x : List ℕ) → tells_report result ≡ answer (here M.Meaning self.now.mapper x) (state (M.opened self.now.mapper) x self.now.reports) (report card.0) }
    {
        self.mapper.check_card(card)?;
        Ok(self.reports[card.0 as usize])
    }
}
