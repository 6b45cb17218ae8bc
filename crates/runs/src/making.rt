// Calls made one after the other, each as the definition of the calls says.
ghost use Rattle.std.specs.Prelude.{◌≡◌, length};
ghost use Rattle.mapper.specs.Called.{here};
ghost use Rattle.engine.specs.Made.{state};
ghost use Rattle.runs.specs.Commands.{meant, spoken, MadeOne, call_of, answer_of, Ran, LeftInTurn};

use crate::command::{Command, Reply, Step};
use engine::Engine;
use mapper::Mapper;
use units::Fault;

// Makes one call; only a read touches the answer buffer. Memory is lent beside the engine, as in `Mapper`, here and below. A match, since calls are data: they stand in lists, and a run is told of the whole list.
pub fn make<M: Mapper>(
    engine: &mut Engine<M>,
    memory: &mut [u8],
    command: Command<'_>,
    out: &mut [u8],
) -> Result<Reply, Fault>
    ensures { MadeOne M.Meaning engine.old engine.new memory.old memory.new out.old out.new (meant command.entry out.old) (spoken result out.new) }
{
    match command {
        Command::Map(request) => engine.map(memory, request).map(Reply::At),
        Command::Unmap(request) => engine.unmap(memory, request).map(|()| Reply::Done),
        Command::Sync { call, card, device } => engine
            .sync(memory, call, card, device)
            .map(|()| Reply::Done),
        Command::CpuRead { address, count } => engine
            .cpu_read(memory, address, count, out)
            .map(|()| Reply::Bytes),
        Command::CpuWrite { address, bytes } => engine
            .cpu_write(memory, address, bytes)
            .map(|()| Reply::Done),
        Command::CardRead {
            card,
            device,
            count,
        } => engine
            .card_read(memory, card, device, count, out)
            .map(|()| Reply::Bytes),
        Command::CardWrite {
            card,
            device,
            bytes,
        } => engine
            .card_write(memory, card, device, bytes)
            .map(|()| Reply::Done),
        Command::Report { card } => engine.report(card).map(Reply::Told),
    }
}

// Makes a step's call with the step's own answer buffer, and notes the reply.
pub fn take_step<M: Mapper>(engine: &mut Engine<M>, memory: &mut [u8], step: &mut Step<'_>)
    ensures made { MadeOne M.Meaning engine.old engine.new memory.old memory.new step.old.out.items step.new.out.items (call_of step.old) (answer_of step.new) }
    ensures asked { step.new.command ≡ step.old.command }
    ensures size { length step.new.out.items ≡ length step.old.out.items }
{
    let reply = make(engine, memory, step.command, step.out.as_mut_slice());
    step.reply = reply;
}

// Makes the steps' calls one after the other: answers, answer buffers and all that is left are those of the whole list, and of the
// mapper's own parts each call leaves what it leaves by itself.
pub fn run<M: Mapper>(engine: &mut Engine<M>, memory: &mut [u8], steps: &mut [Step<'_>])
    ensures fixed { M.setup engine.new.mapper ≡ M.setup engine.old.mapper }
    ensures ran { Ran (here M.Meaning engine.old.mapper memory.old) (state (M.opened engine.old.mapper) memory.old engine.old.reports) (state (M.opened engine.new.mapper) memory.new engine.new.reports) steps.old steps.new }
    ensures left { LeftInTurn M.Meaning engine.old.mapper engine.new.mapper steps.old steps.new }
{
    for step in steps.iter_mut() {
        take_step(engine, memory, step);
    }
}
