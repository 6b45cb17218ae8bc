// A script from standard input, run over the shared rack.
use crate::line::Line;
use engine::Engine;
use mapper::Mapper;
use rack::run_shared;
use session::Session;
use std::io::Read;
use units::Card;

// The script on standard input: at most its first 16,384 bytes are read.
pub fn read_script(rt: &HostRuntime) -> anyhow::Result<Vec<u8>> {
    let mut script = Vec::new(rt.alloc());
    rt.stdin().take(16384).read_to_end(&mut script)?;
    Ok(script)
}

// Runs a script, and prints each record's answer and each card's blocks.
pub fn replay(rt: &HostRuntime) -> anyhow::Result<()> {
    let script = read_script(rt)?;
    let mut session = Session::read(rt.alloc(), script.as_slice())?;
    let mut memory = vec![in rt.alloc(); 0u8; 32768]?;
    let mut words = [0; 5120];
    let engine = run_shared(
        &mut words,
        memory.as_mut_slice(),
        session.steps.as_mut_slice(),
    );
    print_answers(rt, &session)?;
    print_blocks(rt, &engine)
}

fn print_answers(rt: &HostRuntime, session: &Session<'_>) -> anyhow::Result<()> {
    for (index, step) in session.steps.iter().enumerate() {
        let line = Line::of(index, step);
        println!(rt; "{line}")?;
    }
    if let Some(fault) = session.refusal {
        let line = Line {
            index: session.steps.len(),
            answer: Err(fault),
            bytes: &[],
        };
        println!(rt; "{line}")?;
    }
    Ok(())
}

fn print_blocks<M: Mapper>(rt: &HostRuntime, engine: &Engine<M>) -> anyhow::Result<()> {
    for card in 0..engine.mapper.cards() {
        if let Ok(report) = engine.report(Card(card)) {
            let count = report.count;
            println!(rt; "card {card} blocked {count}")?;
        }
    }
    Ok(())
}
