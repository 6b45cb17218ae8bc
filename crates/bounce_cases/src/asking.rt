// What the examples share: calls by their plain numbers, and what they are told.
use engine::Engine;
use mapper::Mapper;
use runs::{Command, Reply, make};
use std::process::Abort;
use units::{
    Buffer, Card, DeviceAddress, Direction, Fault, Holder, Mapping, Request, Sync, UnmapRequest,
};

// Number, layer and place of a refusal, as the rules give them.
pub type Refusal = (u8, u32, u64);

// A call, and what it is told.
pub type Step = (Asked<'static>, Result<u64, Refusal>);

// A call, and its refusal.
pub type Refused = (Asked<'static>, Refusal);

// A call in numbers alone, so that lists of calls are constants.
#[derive(Clone, Copy)]
pub enum Asked<'a> {
    // Card, direction, address, length.
    Map(u8, u8, u32, u32),
    // Card, direction, device address, length.
    Unmap(u8, u8, u64, u32),
    // Card and device address.
    ForCpu(u8, u64),
    ForCard(u8, u64),
    // Address, and count or bytes.
    CpuRead(u32, usize),
    CpuWrite(u32, &'a [u8]),
    // Card, device address, and count or bytes.
    CardRead(u8, u64, usize),
    CardWrite(u8, u64, &'a [u8]),
    // Card.
    Reported(u8),
}

pub fn numbers(fault: Fault) -> Refusal {
    (u8::from(fault.kind), fault.layer, fault.place)
}

// The call.
fn command(asked: Asked<'_>) -> Command<'_> {
    match asked {
        Asked::Map(card, direction, address, length) => Command::Map(Request {
            card: Card(card),
            direction,
            buffer: Buffer { address, length },
        }),
        Asked::Unmap(card, direction, device, length) => Command::Unmap(UnmapRequest {
            card: Card(card),
            direction,
            device: DeviceAddress(device),
            length,
        }),
        Asked::ForCpu(card, device) => Command::Sync {
            call: Sync::ForCpu,
            card: Card(card),
            device: DeviceAddress(device),
        },
        Asked::ForCard(card, device) => Command::Sync {
            call: Sync::ForCard,
            card: Card(card),
            device: DeviceAddress(device),
        },
        Asked::CpuRead(address, count) => Command::CpuRead { address, count },
        Asked::CpuWrite(address, bytes) => Command::CpuWrite { address, bytes },
        Asked::CardRead(card, device, count) => Command::CardRead {
            card: Card(card),
            device: DeviceAddress(device),
            count,
        },
        Asked::CardWrite(card, device, bytes) => Command::CardWrite {
            card: Card(card),
            device: DeviceAddress(device),
            bytes,
        },
        Asked::Reported(card) => Command::Report { card: Card(card) },
    }
}

// The device address that a map answers, or else 0.
pub fn told(answer: Result<Reply, Fault>) -> Result<u64, Refusal> {
    match answer {
        Ok(Reply::At(device)) => Ok(device.0),
        Ok(_) => Ok(0),
        Err(fault) => Err(numbers(fault)),
    }
}

// One call on an engine with its memory, read into an answer buffer of 64 bytes.
pub fn ask<M: Mapper>(
    engine: &mut Engine<M>,
    memory: &mut [u8],
    asked: Asked<'_>,
) -> Result<u64, Refusal> {
    let mut out = [0u8; 64];
    told(make(engine, memory, command(asked), &mut out))
}

// The 8 bytes that a card reads, or the refusal.
pub fn card_bytes<M: Mapper>(
    engine: &mut Engine<M>,
    memory: &mut [u8],
    card: u8,
    device: u64,
) -> Result<[u8; 8], Refusal> {
    let mut out = [0u8; 8];
    let answer = make(
        engine,
        memory,
        command(Asked::CardRead(card, device, 8)),
        &mut out,
    );
    told(answer).map(|_| out)
}

// The calls are told this, one after the other.
pub fn all_told<M: Mapper>(
    rt: &impl Abort,
    engine: &mut Engine<M>,
    memory: &mut [u8],
    calls: &[Step],
) {
    for &(asked, answer) in calls {
        assert_eq!(rt; ask(engine, memory, asked), answer);
    }
}

// Of a map, would is refused with these numbers too.
fn would_agrees<M: Mapper>(mapper: &M, memory: &[u8], asked: Asked<'_>, refusal: Refusal) -> bool {
    match command(asked) {
        Command::Map(request) => mapper.would(memory, request).map_err(numbers) == Err(refusal),
        _ => true,
    }
}

// The call is refused with these numbers, and leaves its answer buffer as it was.
fn is_refused<M: Mapper>(
    engine: &mut Engine<M>,
    memory: &mut [u8],
    asked: Asked<'_>,
    refusal: Refusal,
) -> bool {
    let mut out = [9u8; 64];
    let answer = told(make(engine, memory, command(asked), &mut out));
    answer == Err(refusal) && out == [9u8; 64]
}

// Each call is refused with these numbers, and would answers what map answers. Nothing changes: neither memory nor answer buffer nor
// reports, nor how many mappings are open, these among them.
pub fn all_refused<M: Mapper>(
    rt: &impl Abort,
    engine: &mut Engine<M>,
    memory: &mut [u8; 32768],
    open: &[Mapping],
    calls: &[Refused],
) {
    let before = *memory;
    let reports = engine.reports;
    let count = engine.mapper.open_count();
    for &(asked, refusal) in calls {
        assert!(rt; would_agrees(&engine.mapper, memory, asked, refusal));
        assert!(rt; is_refused(engine, memory, asked, refusal));
        assert!(rt; *memory == before);
        assert!(rt; engine.reports == reports && engine.mapper.open_count() == count);
        are_open(rt, &engine.mapper, open);
    }
}

// These mappings are open.
pub fn are_open<M: Mapper>(rt: &impl Abort, mapper: &M, open: &[Mapping]) {
    for &mapping in open {
        assert_eq!(rt;
            mapper.mapping_at(mapping.card, mapping.device),
            Some(mapping)
        );
    }
}

// An open mapping both ways whose holder is the card.
pub fn held(card: u8, address: u32, length: u32, device: u64, landing: u32) -> Mapping {
    Mapping {
        card: Card(card),
        direction: Direction::Both,
        buffer: Buffer { address, length },
        device: DeviceAddress(device),
        landing,
        holder: Holder::ByCard,
    }
}
