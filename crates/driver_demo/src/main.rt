// A driver's day on one buffer, from the CPU to a card and back, over bare windows. Each step is printed with its answer.
#![tactic(auto)]

use driver::{CpuBuffer, Refused, Stopped, Transfer};
use engine::Engine;
use mapper::Mapper;
use rack::bare_windows;
use std::{fmt, io};
use units::{Buffer, Card, DeviceAddress, Direction, Fault};

// What a step was answered.
#[derive(Clone, Copy)]
enum Told {
    Done,
    At(DeviceAddress),
    Data([u8; 4]),
    No(Fault),
}

impl fmt::Display for Told {
    fn fmt<W: fmt::Write>(&self, f: &mut fmt::Formatter<W>) -> fmt::Result {
        match *self {
            Told::Done => write!(f, "ok"),
            Told::At(device) => {
                let address = device.0;
                write!(f, "at {address:012x}")
            }
            Told::Data(bytes) => {
                write!(f, "data ")?;
                for byte in bytes {
                    write!(f, "{byte:02x}")?;
                }
                Ok(())
            }
            Told::No(fault) => {
                let number = u8::from(fault.kind);
                let layer = fault.layer;
                let place = fault.place;
                write!(f, "no {number} {layer} {place}")
            }
        }
    }
}

// A write's answer.
fn written(answer: Result<(), Fault>) -> Told {
    match answer {
        Ok(()) => Told::Done,
        Err(fault) => Told::No(fault),
    }
}

// A read's answer, with the bytes that it read.
fn read(answer: Result<(), Fault>, bytes: [u8; 4]) -> Told {
    match answer {
        Ok(()) => Told::Data(bytes),
        Err(fault) => Told::No(fault),
    }
}

// Prints lines, and keeps the first failure to print: a driver with a buffer in hand cannot leave by `?`.
#[derive(Drop)]
struct Printer<'a> {
    rt: &'a HostRuntime,
    outcome: io::Result<()>,
}

impl Printer<'_> {
    fn step(&mut self, name: &str, told: Told) {
        if self.outcome.is_ok() {
            let rt = self.rt;
            self.outcome = println!(rt; "{name}: {told}");
        }
    }
}

// The card reads 4 bytes.
fn card_reads<M: Mapper>(
    engine: &mut Engine<M>,
    memory: &[u8],
    card: Card,
    device: DeviceAddress,
) -> Told {
    let mut bytes = [0u8; 4];
    let answer = engine.card_read(memory, card, device, 4, &mut bytes);
    read(answer, bytes)
}

// The buffer goes to the card, to the CPU between two syncs, back to the card, and home.
fn day<M: Mapper>(
    printer: &mut Printer<'_>,
    engine: &mut Engine<M>,
    memory: &mut [u8],
    transfer: Transfer,
) -> Result<CpuBuffer, Stopped> {
    let card = transfer.card;
    let mut bytes = [0u8; 4];

    let cpu = CpuBuffer::claim(transfer);
    printer.step("cpu writes", written(cpu.write(engine, memory, 0, b"PING")));
    let mapped = cpu.map(engine, memory)?;
    let device = mapped.device();
    printer.step("map", Told::At(device));
    printer.step("card reads", card_reads(engine, memory, card, device));
    printer.step(
        "card writes",
        written(engine.card_write(memory, card, device, b"PONG")),
    );

    let synced = mapped.sync_for_cpu(engine, memory)?;
    printer.step("sync for cpu", Told::Done);
    let answer = synced.read(engine, memory, 0, 4, &mut bytes);
    printer.step("cpu reads", read(answer, bytes));
    printer.step(
        "cpu writes",
        written(synced.write(engine, memory, 0, b"DONE")),
    );
    let mapped = synced.sync_for_card(engine, memory)?;
    printer.step("sync for card", Told::Done);
    printer.step("card reads", card_reads(engine, memory, card, device));

    let cpu = mapped.unmap(engine, memory)?;
    printer.step("unmap", Told::Done);
    let answer = cpu.read(engine, memory, 30, 4, &mut bytes);
    printer.step("cpu reads past the end", read(answer, bytes));
    printer.step("card reads", card_reads(engine, memory, card, device));
    Ok(cpu)
}

// A buffer past the end of memory is not mapped: its state comes back.
fn misplaced<M: Mapper>(
    printer: &mut Printer<'_>,
    engine: &mut Engine<M>,
    memory: &mut [u8],
    transfer: Transfer,
) -> Result<CpuBuffer, Stopped> {
    let mapped = CpuBuffer::claim(transfer).map(engine, memory)?;
    printer.step("map", Told::At(mapped.device()));
    Ok(mapped.unmap(engine, memory)?)
}

// Ends a job: the buffer that the CPU has is given back, and a mapping that was not closed stays open.
fn end(printer: &mut Printer<'_>, job: Result<CpuBuffer, Stopped>) {
    let told = match job {
        Ok(cpu) => {
            cpu.release();
            Told::Done
        }
        Err(Stopped::OnCpu(Refused { state, fault })) => {
            state.release();
            Told::No(fault)
        }
        Err(Stopped::Mapped(Refused { state, fault })) => {
            state.leave_open();
            Told::No(fault)
        }
        Err(Stopped::Synced(Refused { state, fault })) => {
            state.leave_open();
            Told::No(fault)
        }
    };
    printer.step("end", told);
}

fn main(rt: HostRuntime) -> anyhow::Result<()> {
    let mut engine = bare_windows();
    let mut memory = [0u8; 32768];
    let mut printer = Printer {
        rt: &rt,
        outcome: Ok(()),
    };
    let transfer = Transfer {
        card: Card(0),
        direction: Direction::Both,
        buffer: Buffer {
            address: 0x1100,
            length: 32,
        },
    };
    let job = day(&mut printer, &mut engine, &mut memory, transfer);
    end(&mut printer, job);
    let past = Buffer {
        address: 0x8000,
        length: 32,
    };
    let job = misplaced(
        &mut printer,
        &mut engine,
        &mut memory,
        Transfer {
            buffer: past,
            ..transfer
        },
    );
    end(&mut printer, job);
    printer.outcome?;
    if let Ok(report) = engine.report(Card(0)) {
        let count = report.count;
        println!(rt; "card 0 blocked {count}")?;
    }
    Ok(())
}
