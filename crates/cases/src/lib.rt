// Worked examples over bare windows, with values worked out by hand.
#![tactic(auto)]

#[cfg(test)]
mod tests {
    use engine::Engine;
    use mapper::Mapper;
    use rack::bare_windows;
    use runs::{Command, Reply, make};
    use script::Record;
    use session::play;
    use units::{
        Block, Buffer, Card, DeviceAddress, DevicePage, Fault, FaultKind, Geometry, Report, Request,
    };
    use windows::Windows;

    // The device address that a map answers, or else 0; number, layer and place of a refusal, as the rules give them.
    fn told(answer: Result<Reply, Fault>) -> Result<u64, (u8, u32, u64)> {
        match answer {
            Ok(Reply::At(device)) => Ok(device.0),
            Ok(_) => Ok(0),
            Err(fault) => Err((u8::from(fault.kind), fault.layer, fault.place)),
        }
    }

    // The direction is a number, as in a request.
    fn map(card: u8, direction: u8, address: u32, length: u32) -> Command<'static> {
        Command::Map(Request {
            card: Card(card),
            direction,
            buffer: Buffer { address, length },
        })
    }

    fn cpu_read(count: usize) -> Command<'static> {
        Command::CpuRead { address: 0, count }
    }

    fn read_of(address: u32, count: u8) -> Record<'static> {
        Record::CpuRead { address, count }
    }

    fn card_read(card: u8, device: u64, count: usize) -> Command<'static> {
        Command::CardRead {
            card: Card(card),
            device: DeviceAddress(device),
            count,
        }
    }

    // One call on an engine with its memory, read into an answer buffer of 64 bytes.
    fn ask(
        engine: &mut Engine<Windows>,
        memory: &mut [u8],
        command: Command<'_>,
    ) -> Result<u64, (u8, u32, u64)> {
        let mut out = [0u8; 64];
        told(make(engine, memory, command, &mut out))
    }

    // The number of the refusal of a set-up.
    fn refusal_of(cards: u8, last: u64, frames: u32) -> Option<u8> {
        let page = DevicePage(last);
        let windows = Windows::set_up(Geometry {
            cards,
            lasts: [page; 4],
            frames,
        });
        windows.refusal().map(u8::from)
    }

    #[test]
    fn spans(rt: HostRuntime) {
        assert_eq!(rt;
            Buffer {
                address: 4095,
                length: 2,
            }
            .span(),
            2
        );
        assert_eq!(rt;
            Buffer {
                address: 0,
                length: 32768,
            }
            .span(),
            8
        );
        assert_eq!(rt;
            Buffer {
                address: 1,
                length: 32768,
            }
            .span(),
            9
        );
        assert_eq!(rt;
            Buffer {
                address: 4294967295,
                length: 4294967295,
            }
            .span(),
            1048577
        );
    }

    #[test]
    fn set_up_numbers(rt: HostRuntime) {
        assert_eq!(rt; refusal_of(1, 1, 1), None);
        assert_eq!(rt; refusal_of(4, 68719476735, 1024), None);
        assert_eq!(rt; refusal_of(0, 1, 1), Some(16));
        assert_eq!(rt; refusal_of(5, 1, 1), Some(16));
        assert_eq!(rt; refusal_of(1, 0, 1), Some(16));
        assert_eq!(rt; refusal_of(1, 68719476736, 1), Some(16));
        assert_eq!(rt; refusal_of(1, 1, 0), Some(16));
        assert_eq!(rt; refusal_of(1, 1, 1025), Some(16));
    }

    #[test]
    fn after_a_failed_set_up(rt: HostRuntime) {
        let page = DevicePage(0);
        let mut engine = Engine::over(Windows::set_up(Geometry {
            cards: 1,
            lasts: [page; 4],
            frames: 1,
        }));
        let mut memory = [0u8; 4096];
        assert_eq!(rt;
            ask(&mut engine, &mut memory, map(0, 0, 0, 1)),
            Err((1, 0, 0))
        );
        assert_eq!(rt; ask(&mut engine, &mut memory, cpu_read(0)), Err((3, 0, 0)));
        assert_eq!(rt; ask(&mut engine, &mut memory, cpu_read(1)), Err((4, 0, 0)));
    }

    #[test]
    fn a_card_with_one_page(rt: HostRuntime) {
        let page = DevicePage(1);
        let mut engine = Engine::over(Windows::set_up(Geometry {
            cards: 2,
            lasts: [page; 4],
            frames: 1,
        }));
        let mut memory = [0u8; 4096];
        assert_eq!(rt; ask(&mut engine, &mut memory, map(0, 0, 0, 4096)), Ok(4096));
        assert_eq!(rt;
            ask(&mut engine, &mut memory, map(0, 0, 0, 1)),
            Err((10, 0, 1))
        );
        assert_eq!(rt; ask(&mut engine, &mut memory, map(1, 0, 0, 4096)), Ok(4096));
    }

    #[test]
    fn memory_of_another_size(rt: HostRuntime) {
        let mut engine = bare_windows();
        let mut memory = [0u8; 4096];
        assert_eq!(rt;
            ask(&mut engine, &mut memory, map(0, 0, 0, 1)),
            Err((4, 0, 32768))
        );
        assert_eq!(rt;
            ask(&mut engine, &mut memory, card_read(0, 4096, 1)),
            Err((4, 0, 32768))
        );
    }

    #[test]
    fn the_latest_block(rt: HostRuntime) {
        let mut engine = bare_windows();
        let mut memory = [0u8; 32768];
        assert_eq!(rt;
            ask(&mut engine, &mut memory, card_read(1, 0x7010, 4)),
            Err((14, 0, 0))
        );
        assert_eq!(rt; u8::from(FaultKind::Absent), 14);
        assert_eq!(rt;
            engine.report(Card(1)),
            Ok(Report {
                count: 1,
                latest: Some(Block {
                    device: DeviceAddress(0x7010),
                    kind: FaultKind::Absent,
                    level: 0,
                }),
            })
        );
    }

    #[test]
    fn answer_bytes_past_a_read_stay(rt: HostRuntime) {
        let mut engine = bare_windows();
        let mut memory = [7u8; 32768];
        let mut out = [9u8; 4];
        let reply = make(&mut engine, &mut memory, cpu_read(2), &mut out);
        assert_eq!(rt; told(reply), Ok(0));
        assert_eq!(rt; out[1], 7);
        assert_eq!(rt; out[2], 9);
        let mut short = [9u8; 1];
        let refused = make(&mut engine, &mut memory, cpu_read(2), &mut short);
        assert_eq!(rt; told(refused), Err((3, 0, 2)));
        assert_eq!(rt; short[0], 9);
    }

    // Records played one by one: two bytes are written and three read back, and a read past the end of memory is refused.
    #[test]
    fn records_one_by_one(rt: HostRuntime) {
        let mut engine = bare_windows();
        let mut memory = [0u8; 32768];
        let mut out = [9u8; 4];
        let write = Record::CpuWrite {
            address: 0x100,
            bytes: b"AB",
        };
        let done = play(&mut engine, &mut memory, write, &mut out);
        assert_eq!(rt; done, Ok(Reply::Done));
        let reply = play(&mut engine, &mut memory, read_of(0x100, 3), &mut out);
        assert_eq!(rt; reply, Ok(Reply::Bytes));
        assert_eq!(rt; out, [0x41, 0x42, 0, 9]);
        let past = play(&mut engine, &mut memory, read_of(0x8000, 1), &mut out);
        assert_eq!(rt; told(past), Err((4, 0, 32768)));
    }

    #[test]
    fn would_changes_nothing(rt: HostRuntime) {
        let engine = bare_windows();
        let memory = [0u8; 32768];
        let request = Request {
            card: Card(0),
            direction: 0,
            buffer: Buffer {
                address: 4095,
                length: 2,
            },
        };
        assert_eq!(rt;
            engine.mapper.would(&memory, request),
            Ok(DeviceAddress(0xffffefff))
        );
        assert_eq!(rt; engine.mapper.open_count(), 0);
    }
}
