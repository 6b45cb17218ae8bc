// What the examples share: tables, what is asked of them and what they are told, and the words of the tables.
use engine::Engine;
use mapper::Mapper;
use runs::{Command, Reply, make};
use tables::Tables;
use units::{
    Buffer, Card, DeviceAddress, DevicePage, Fault, Geometry, Request, Sync, UnmapRequest,
};

// Number, layer and place.
type Refusal = (u8, u32, u64);

// What something that is asked is told.
pub(crate) type Told = Result<u64, Refusal>;

// A step of an example: what is asked, and what it is to be told.
pub(crate) type Step<'a> = (Asked<'a>, Told);

// One thing that is asked in the course of an example. In numbers alone, so that lists of steps are constants.
#[derive(Clone, Copy)]
pub(crate) enum Asked<'a> {
    // Card, direction, address, length; would is what map would answer.
    Map(u8, u8, u32, u32),
    Would(u8, u8, u32, u32),
    // Card, direction, device address, length.
    Unmap(u8, u8, u64, u32),
    // Card and device address.
    SyncForCpu(u8, u64),
    SyncForCard(u8, u64),
    // Address, and count or bytes.
    CpuRead(u32, usize),
    CpuWrite(u32, &'a [u8]),
    // Card, device address, and count or bytes.
    CardRead(u8, u64, usize),
    CardWrite(u8, u64, &'a [u8]),
    // How often the card was blocked.
    Blocked(u8),
    // The byte of memory at an address.
    Byte(u32),
    // How many mappings are open.
    Open,
    // How many lent words are not 0.
    Words,
    // The frame that the translation cache names for a card's page.
    Cached(u8, u64),
}

// What is told of a page that the translation cache does not name.
pub(crate) const NOT_CACHED: Told = Err((0, 0, 0));

// A refusal, by its number.
fn numbered(fault: Fault) -> Refusal {
    (u8::from(fault.kind), fault.layer, fault.place)
}

// An engine over new tables; each card has device pages 1 to `last`.
pub(crate) fn engine(
    cards: u8,
    last: u64,
    frames: u32,
    count: u8,
    words: &mut [u64],
) -> Engine<Tables<'_>> {
    let geometry = Geometry {
        cards,
        lasts: [DevicePage(last); 4],
        frames,
    };
    Engine::over(Tables::set_up(geometry, count, words))
}

// One call. It is told a map's device address, the first byte of a read, the count of a report, or else 0; or the refusal.
fn call(engine: &mut Engine<Tables<'_>>, memory: &mut [u8], command: Command<'_>) -> Told {
    let mut out = [0u8; 64];
    match make(engine, memory, command, &mut out) {
        Ok(Reply::At(device)) => Ok(device.0),
        Ok(Reply::Bytes) => Ok(out[0] as u64),
        Ok(Reply::Told(report)) => Ok(report.count as u64),
        Ok(Reply::Done) => Ok(0),
        Err(fault) => Err(numbered(fault)),
    }
}

// The direction is a number, as in a call.
fn request(card: u8, direction: u8, address: u32, length: u32) -> Request {
    Request {
        card: Card(card),
        direction,
        buffer: Buffer { address, length },
    }
}

// What map would answer.
fn would_answer(tables: &Tables<'_>, memory: &[u8], request: Request) -> Told {
    match tables.would(memory, request) {
        Ok(device) => Ok(device.0),
        Err(fault) => Err(numbered(fault)),
    }
}

// The frame that the translation cache names for a card's page.
fn cached_frame(tables: &Tables<'_>, card: u8, page: u64) -> Told {
    match tables.cache.find(Card(card), DevicePage(page)) {
        Some(reach) => Ok(reach.frame.0 as u64),
        None => NOT_CACHED,
    }
}

// How many lent words are not 0.
pub(crate) fn count_words(tables: &Tables<'_>) -> usize {
    tables.words.iter().filter(|word| **word != 0).count()
}

// The call of a sync.
fn sync(call: Sync, card: u8, device: u64) -> Command<'static> {
    Command::Sync {
        call,
        card: Card(card),
        device: DeviceAddress(device),
    }
}

// Asks one thing.
pub(crate) fn ask(engine: &mut Engine<Tables<'_>>, memory: &mut [u8], asked: Asked<'_>) -> Told {
    let command = match asked {
        Asked::Map(card, direction, address, length) => {
            Command::Map(request(card, direction, address, length))
        }
        Asked::Unmap(card, direction, device, length) => Command::Unmap(UnmapRequest {
            card: Card(card),
            direction,
            device: DeviceAddress(device),
            length,
        }),
        Asked::SyncForCpu(card, device) => sync(Sync::ForCpu, card, device),
        Asked::SyncForCard(card, device) => sync(Sync::ForCard, card, device),
        Asked::CpuRead(address, count) => Command::CpuRead { address, count },
        Asked::CpuWrite(address, bytes) => Command::CpuWrite { address, bytes },
        Asked::CardRead(card, device, count) => Command::CardRead {
            card: Card(card),
            device: DeviceAddress(device),
            count,
        },
        Asked::CardWrite(card, device, bytes) => Command::CardWrite {
            card: Card(card),
            device: DeviceAddress(device),
            bytes,
        },
        Asked::Blocked(card) => Command::Report { card: Card(card) },
        Asked::Would(card, direction, address, length) => {
            return would_answer(
                &engine.mapper,
                memory,
                request(card, direction, address, length),
            );
        }
        Asked::Byte(address) => {
            return Ok(memory.get(address as usize).copied().unwrap_or(0) as u64);
        }
        Asked::Open => return Ok(engine.mapper.open_count() as u64),
        Asked::Words => return Ok(count_words(&engine.mapper) as u64),
        Asked::Cached(card, page) => return cached_frame(&engine.mapper, card, page),
    };
    call(engine, memory, command)
}

// Asks one after the other, and answers the first that is told something else than it is to be: its place, and what it is told.
pub(crate) fn first_other(
    engine: &mut Engine<Tables<'_>>,
    memory: &mut [u8],
    steps: &[Step<'_>],
) -> Option<(usize, Told)> {
    for (i, (asked, want)) in steps.iter().enumerate() {
        let told = ask(engine, memory, *asked);
        if told != *want {
            return Some((i, told));
        }
    }
    None
}

// The word at an index of a table, and 0 past the lent words.
fn word_of(tables: &Tables<'_>, table: u32, index: u16) -> u64 {
    let place = table as u64 * 512 + index as u64;
    tables.words.get(place as usize).copied().unwrap_or(0)
}

// The word at an index of the table to which the word above leads.
fn word_below(tables: &Tables<'_>, above: u64, index: u16) -> u64 {
    word_of(tables, (above / 4096 % 64) as u32, index)
}

// The four words on a card's way to a page, from its root on: table c is the root of card c. The page is given by its indices.
pub(crate) fn way(tables: &Tables<'_>, card: u8, indices: [u16; 4]) -> [u64; 4] {
    let root = word_of(tables, card as u32, indices[0]);
    let third = word_below(tables, root, indices[1]);
    let second = word_below(tables, third, indices[2]);
    [root, third, second, word_below(tables, second, indices[3])]
}
