// The mapper: its meaning, its laws, and the calls, with the checks that every mapper shares.
#![tactic(auto)]

ghost use Rattle.std.specs.Prelude.{◌≡◌, ◌+◌, ◌*◌, ◌/◌, ◌%◌, ◌^◌, ◌<◌, Option, length, nat_lt, nat_le, ◌==◌, ◌&&◌};
ghost use Rattle.meaning.specs.Mappings.{find, held};
ghost use Rattle.meaning.specs.Calls.{map, unmap, sync, card_read, card_write};
ghost use Rattle.meaning.specs.Checks.{Verdict, admitted, unmap_checks, sync_checks, card_checks, none_reserved, none_held};
ghost use Rattle.meaning.specs.Effects.{answer};
ghost use Rattle.meaning.specs.Told.{tells_at, tells_done, tells_bytes, passes, lowest, Names};
ghost use Rattle.units.specs.declared.fault.FaultKind.TheVariants.{NoCard, WrongLength, OutsideMemory, ReservedFrame, WrongHolder};
ghost use Rattle.mapper.specs.Called.{here, seen, Checked, Called, Read, Translated, Targeted, Judged};

mod laws;

pub use laws::Meaning;
use meaning::{read_bytes, write_bytes};
use units::{
    Access, Buffer, Card, DeviceAddress, DevicePage, Direction, Fault, FaultKind, Frame, Mapping,
    Reach, Request, Sync, UnmapRequest,
};

// Memory is lent at each call and is no part of a mapper.
// Card and device address are two parameters, as a request on the bus has a source and an address: a struct of the two would say no more.
pub trait Mapper: Meaning {
    // How many cards there are.
    fn cards(&self) -> u8
        ensures { result ≡ (Self.setup self.now).cards };

    // How many frames of memory there are.
    fn frames(&self) -> u32
        ensures { result ≡ (Self.setup self.now).frames };

    // How many mappings are open.
    fn open_count(&self) -> u32
        ensures { result ≡ length (Self.opened self.now) };

    // Is the frame reserved?
    fn is_reserved(&self, frame: Frame) -> bool
        ensures { result ≡ Self.kind.reserved (Self.setup self.now) frame.0 };

    // Is the byte in a buffer whose holder is a card?
    fn is_held(&self, address: u32) -> bool
        ensures { result ≡ held (Self.opened self.now) address };

    // The open mapping of the card that starts at the device address.
    fn mapping_at(&self, card: Card, device: DeviceAddress) -> Option<Mapping>
        ensures { result ≡ find (Self.opened self.now) card.0 device.0 };

    // What map would answer; changes nothing.
    fn would(&self, memory: &[u8], request: Request) -> Result<DeviceAddress, Fault>
        ensures { tells_at result ≡ answer (here Self.Meaning self.now memory.now) (seen (Self.opened self.now) memory.now) (map request) };

    // Opens a mapping, holder card, and answers its device address.
    fn map(&mut self, memory: &mut [u8], request: Request) -> Result<DeviceAddress, Fault>
        ensures { Called Self.Meaning self.old self.new memory.old memory.new (map request) (tells_at result) };

    // Closes the mapping that starts at the device address, with that length and direction.
    fn unmap(&mut self, memory: &mut [u8], request: UnmapRequest) -> Result<(), Fault>
        ensures { Called Self.Meaning self.old self.new memory.old memory.new (unmap request.card.0 request.direction request.device.0 request.length) (tells_done result) };

    // Turns the holder of the mapping that starts at the device address.
    fn sync(
        &mut self,
        memory: &mut [u8],
        call: Sync,
        card: Card,
        device: DeviceAddress,
    ) -> Result<(), Fault>
        ensures { Called Self.Meaning self.old self.new memory.old memory.new (sync call card.0 device.0) (tells_done result) };

    // The frame that a card's access to a device page reaches, or the block.
    fn translate(&mut self, card: Card, page: DevicePage, access: Access) -> Result<Frame, Fault>
        ensures { Translated Self.Meaning self.old self.new card.0 page.0 access result };

    // The card is one of the set-up's.
    fn check_card(&self, card: Card) -> Result<(), Fault>
        ensures { Checked (nat_lt card.0 (Self.setup self.now).cards) NoCard card.0 result }
    {
        if card.0 < self.cards() {
            Ok(())
        } else {
            Err(FaultKind::NoCard.at(card.0 as u64))
        }
    }

    // The memory has the size of the set-up.
    fn check_memory(&self, memory: &[u8]) -> Result<(), Fault>
        ensures { Checked (length memory.now == (Self.setup self.now).frames * 4096) OutsideMemory ((Self.setup self.now).frames * 4096) result }
    {
        let end = self.frames() as u64 * 4096;
        if memory.len() as u64 == end {
            Ok(())
        } else {
            Err(FaultKind::OutsideMemory.at(end))
        }
    }

    // The memory has the size of the set-up, and the buffer lies in it.
    fn check_inside(&self, memory: &[u8], buffer: Buffer) -> Result<(), Fault>
        ensures { let end = (Self.setup self.now).frames * 4096 in Checked (length memory.now == end && nat_le (buffer.address + buffer.length) end) OutsideMemory end result }
    {
        let end = self.frames() as u64 * 4096;
        if memory.len() as u64 == end && buffer.end() <= end {
            Ok(())
        } else {
            Err(FaultKind::OutsideMemory.at(end))
        }
    }

    // The lowest reserved frame among `count` from `first` on.
    fn lowest_reserved(&self, first: u32, count: u32) -> Option<u32>
        requires { first + count < 2 ^ 32 }
        ensures { lowest ReservedFrame result ≡ none_reserved (Self.kind.reserved (Self.setup self.now)) first count }
    {
        (first..first + count).find(|&frame| self.is_reserved(Frame(frame)))
    }

    // The lowest byte among `count` from `first` on that lies in a buffer whose holder is a card.
    fn lowest_held(&self, first: u32, count: u32) -> Option<u32>
        requires { first + count < 2 ^ 32 }
        ensures { lowest WrongHolder result ≡ none_held (Self.opened self.now) first count }
    {
        (first..first + count).find(|&byte| self.is_held(byte))
    }

    // What map and would check before the choice: card, direction, length, memory, reserved frames.
    fn admit(&self, memory: &[u8], request: Request) -> Result<(), Fault>
        ensures { (v : Verdict) → admitted (here Self.Meaning self.now memory.now) request v ≡ passes result v }
    {
        let buffer = request.buffer;
        self.check_card(request.card)?;
        Direction::try_from(request.direction).map_err(|kind| kind.at(request.direction as u64))?;
        if buffer.length == 0 || buffer.span() > 8 {
            return Err(FaultKind::WrongLength.at(buffer.length as u64));
        }
        self.check_inside(memory, buffer)?;
        match self.lowest_reserved(buffer.address / 4096, buffer.span() as u32) {
            Some(frame) => Err(FaultKind::ReservedFrame.at(frame as u64)),
            None => Ok(()),
        }
    }

    // What unmap checks: card, direction, memory, and the mapping that it closes.
    fn closing(&self, memory: &[u8], request: UnmapRequest) -> Result<Mapping, Fault>
        ensures { Names (unmap_checks (here Self.Meaning self.now memory.now) (Self.opened self.now) request.card.0 request.direction request.device.0 request.length) (find (Self.opened self.now) request.card.0 request.device.0) result }
    {
        self.check_card(request.card)?;
        let direction = Direction::try_from(request.direction).map_err(|kind| kind.at(
            request.direction as u64,
        ))?;
        self.check_memory(memory)?;
        let mapping = self
            .mapping_at(request.card, request.device)
            .ok_or(FaultKind::NotOpen.at(request.device.0))?;
        if mapping.buffer.length != request.length || mapping.direction != direction {
            return Err(FaultKind::OtherMapping.at(mapping.buffer.length as u64));
        }
        Ok(mapping)
    }

    // What a sync checks: card, memory, and the mapping whose holder it turns.
    fn turning(
        &self,
        memory: &[u8],
        call: Sync,
        card: Card,
        device: DeviceAddress,
    ) -> Result<Mapping, Fault>
        ensures { Names (sync_checks (here Self.Meaning self.now memory.now) (Self.opened self.now) call card.0 device.0) (find (Self.opened self.now) card.0 device.0) result }
    {
        self.check_card(card)?;
        self.check_memory(memory)?;
        let mapping = self
            .mapping_at(card, device)
            .ok_or(FaultKind::NotOpen.at(device.0))?;
        match mapping.holder.turn(call) {
            Some(_) => Ok(mapping),
            None => Err(FaultKind::WrongHolder.at(device.0)),
        }
    }

    // What a card's access checks before its reach is judged: card, length, memory, one device page.
    // The count stands beside the room, since more than there is room for is refused.
    fn accessing(
        &self,
        memory: &[u8],
        card: Card,
        device: DeviceAddress,
        count: usize,
        room: usize,
    ) -> Result<(), Fault>
        ensures { (v : Verdict) → card_checks (here Self.Meaning self.now memory.now) card.0 device.0 count room v ≡ passes result v }
    {
        self.check_card(card)?;
        check_access(count, room)?;
        self.check_memory(memory)?;
        if device.0 % 4096 + count as u64 > 4096 || device.0 >= 0x1_0000_0000_0000 {
            return Err(FaultKind::CrossesPage.at(device.0));
        }
        Ok(())
    }

    // The memory address of the bytes that a card's access reaches, once all of its checks let it pass; count and room as in `accessing`.
    fn target(
        &mut self,
        memory: &[u8],
        card: Card,
        device: DeviceAddress,
        count: usize,
        room: usize,
        access: Access,
    ) -> Result<usize, Fault>
        ensures { Targeted Self.Meaning self.old self.new memory.now card.0 device.0 count room access result }
    {
        self.accessing(memory, card, device, count, room)?;
        let frame = self.translate(card, device.page(), access)?;
        Ok(frame.0 as usize * 4096 + device.offset() as usize)
    }

    // Reads 1 to 64 bytes in one device page for a card. The count stands beside the buffer, whose further bytes stay.
    #[tactic(auto, unfolding(meaning::specs::Checks::verdict))]
    fn card_read(
        &mut self,
        memory: &[u8],
        card: Card,
        device: DeviceAddress,
        count: usize,
        out: &mut [u8],
    ) -> Result<(), Fault>
        ensures { Read Self.Meaning self.old self.new memory.now out.old out.new (card_read card.0 device.0 count out.old) (tells_bytes result out.new) }
    {
        let at = self.target(memory, card, device, count, out.len(), Access::Read)?;
        read_bytes(memory, at, count, out);
        Ok(())
    }

    // Writes 1 to 64 bytes in one device page for a card.
    #[tactic(auto, unfolding(meaning::specs::Checks::verdict))]
    fn card_write(
        &mut self,
        memory: &mut [u8],
        card: Card,
        device: DeviceAddress,
        bytes: &[u8],
    ) -> Result<(), Fault>
        ensures { Called Self.Meaning self.old self.new memory.old memory.new (card_write card.0 device.0 bytes.now) (tells_done result) }
    {
        let at = self.target(
            memory,
            card,
            device,
            bytes.len(),
            bytes.len(),
            Access::Write,
        )?;
        write_bytes(memory, at, bytes);
        Ok(())
    }
}

// An access of 1 to 64 bytes, with room for them: more than there is room for is refused.
pub fn check_access(count: usize, room: usize) -> Result<(), Fault>
    ensures { Checked (nat_lt 0 count && (nat_le count 64 && nat_le count room)) WrongLength count result }
{
    if count == 0 || count > 64 || count > room {
        return Err(FaultKind::WrongLength.at(count as u64));
    }
    Ok(())
}

// The frame that a reach lets a card access, or the block: absent, or the right is lacking.
pub fn judge(reach: Option<Reach>, level: u64, access: Access) -> Result<Frame, Fault>
    ensures { Judged reach level access result }
{
    match reach {
        None => Err(FaultKind::Absent.at(level)),
        Some(reach) if reach.rights.allow(access) => Ok(reach.frame),
        Some(_) => Err(FaultKind::Lacking.at(level)),
    }
}
