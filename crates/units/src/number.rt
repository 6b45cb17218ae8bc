// What is numbered: each kind of number is a type of its own, so that one never passes for another.
ghost use Rattle.std.specs.Prelude.{◌≡◌, ◌/◌, ◌%◌, ◌<◌};
ghost use Rattle.std.specs.List.{list_all};
ghost use Rattle.units.specs.Geometry.{in_range, may_be_last};

// A frame of main memory, 4,096 bytes.
#[derive(Clone, Copy, Debug, PartialEq, Eq)]
pub struct Frame(pub u32);

// A page of a card's device address space, 4,096 bytes.
#[derive(Clone, Copy, Debug, PartialEq, Eq, PartialOrd, Ord)]
pub struct DevicePage(pub u64);

// What a card puts on the bus: device page times 4,096 plus offset.
#[derive(Clone, Copy, Debug, PartialEq, Eq)]
pub struct DeviceAddress(pub u64);

#[derive(Clone, Copy, Debug, PartialEq, Eq)]
pub struct Card(pub u8);

impl Frame {
    // The frame that a memory address lies in.
    pub fn of(address: u32) -> Frame
        ensures value { result.0 ≡ address / 4096 }
        ensures below { result.0 < 1048576 }
    {
        Frame(address / 4096)
    }
}

impl DeviceAddress {
    // The device page that the address lies in.
    pub fn page(self) -> DevicePage
        ensures { result.0 ≡ self.0 / 4096 }
    {
        DevicePage(self.0 / 4096)
    }

    // How far into its page, or its frame, the address lies.
    pub fn offset(self) -> u32
        ensures { result ≡ self.0 % 4096 }
    {
        (self.0 % 4096) as u32
    }
}

// The numbers of a set-up: how many cards, the last device page of each, and how many frames of memory.
#[derive(Clone, Copy, Debug, PartialEq, Eq)]
pub struct Geometry {
    // Beside a fixed array and no slice of it: a set-up that asks for more than 4 cards is refused, and memory is fixed.
    pub cards: u8,
    pub lasts: [DevicePage; 4],
    pub frames: u32,
}

impl Geometry {
    // 1 to 4 cards, each with a last page from 1 to 2^36 - 1, and 1 to 1,024 frames.
    pub fn is_in_range(&self) -> bool
        ensures { result ≡ in_range self.now }
    {
        // Comparisons and no ranges with `contains`: with those the proof did not close.
        self.cards >= 1
            && self.cards <= 4
            && self.frames >= 1
            && self.frames <= 1024
            && are_last_pages(&self.lasts[..self.cards as usize])
    }
}

// Each page may be a card's last.
fn are_last_pages(pages: &[DevicePage]) -> bool
    ensures { result ≡ list_all (λ p. may_be_last p.0) pages.now }
{
    pages
        .iter()
        .all(|page| (1..0x10_0000_0000).contains(&page.0))
}
