// A script as the steps of a run, and one record played by itself.
#![tactic(auto)]

ghost use Rattle.std.specs.Prelude.{◌≡◌, IfOk, replicate};
ghost use Rattle.script.specs.Items.{meant as item_of};
ghost use Rattle.script.specs.Scripts.{read_all};
ghost use Rattle.runs.specs.Commands.{call_of, spoken, MadeOne};
ghost use Rattle.runs.specs.Scripted.{call_for};
ghost use Rattle.session.specs.Asking.{Asked};

use engine::Engine;
use mapper::Mapper;
use runs::{Reply, Step, make};
use script::{Reader, Record};
use std::alloc::{AllocError, Global};
use units::Fault;

// What a script asks for: its records as steps, in their order, and the refusal that ends it, if any.
#[derive(Drop)]
pub struct Session<'s> {
    pub steps: Vec<Step<'s>>,
    pub refusal: Option<Fault>,
}

impl<'s> Session<'s> {
    // Reads a whole script, to its end or its first error.
    pub fn read(alloc: Global, script: &'s [u8]) -> Result<Session<'s>, AllocError>
        ensures { IfOk result (λ s. Asked (read_all script.now) s) }
    {
        let mut reader = Reader::new(script);
        let mut steps = Vec::new(alloc);
        loop {
            match reader.next() {
                Ok(Some(asked)) => steps.push(step_for(alloc, asked)?)?,
                Ok(None) => {
                    return Ok(Session {
                        steps,
                        refusal: None,
                    });
                }
                Err(fault) => {
                    return Ok(Session {
                        steps,
                        refusal: Some(fault),
                    });
                }
            }
        }
    }
}

// The step of a record, with an answer buffer of 64 bytes, which is what a read takes at most.
fn step_for(alloc: Global, asked: Record<'_>) -> Result<Step<'_>, AllocError>
    ensures { IfOk result (λ s. call_of s ≡ call_for (item_of asked.entry) (replicate 64 0)) }
{
    let out = vec![in alloc; 0u8; 64]?;
    Ok(Step {
        command: asked.into(),
        out,
        reply: Ok(Reply::Done),
    })
}

// Plays one record: answers and leaves what the definition of its call says. For whoever takes a script record by record, over
// any mapper. Memory is lent beside the engine, as in `Mapper`.
pub fn play<M: Mapper>(
    engine: &mut Engine<M>,
    memory: &mut [u8],
    asked: Record<'_>,
    out: &mut [u8],
) -> Result<Reply, Fault>
    ensures { MadeOne M.Meaning engine.old engine.new memory.old memory.new out.old out.new (call_for (item_of asked.entry) out.old) (spoken result out.new) }
{
    make(engine, memory, asked.into(), out)
}
