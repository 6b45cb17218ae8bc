// Runs over a bounce layer, with the promise that one card's accesses change for all others only what was lent to it for writing.
#![tactic(auto)]

ghost use Rattle.std.specs.Prelude.{◌≡◌, ℕ, List, [], length};
ghost use Rattle.meaning.specs.Calls.{Call};
ghost use Rattle.meaning.specs.Memory.{bytes_of};
ghost use Rattle.mapper.specs.Called.{here};
ghost use Rattle.engine.specs.Made.{state};
ghost use Rattle.runs.specs.Commands.{calls_of, Ran, LeftInTurn};
ghost use Rattle.isolation.specs.Lists.{struck};
ghost use Rattle.isolation.specs.Promise.{Isolated};
ghost use Rattle.isolation.specs.Shielding.{Shielded};
ghost use Rattle.isolated_runs.specs.Fresh.{Fresh};

use bounce::Bounce;
use engine::Engine;
use mapper::{Mapper, Meaning};
use runs::{Step, run};

// Makes the steps' calls one after the other, over a layer above any mapper, another layer among them. `ran` and `left` say
// what they answer and leave. `isolated` is the promise: from set-up on, whatever other list differs from this one in card A's accesses and reports alone.
pub fn run_isolated<M: Mapper>(
    engine: &mut Engine<Bounce<M>>,
    memory: &mut [u8],
    steps: &mut [Step<'_>],
)
    ensures fixed { ⟦<Bounce<M> as Meaning>⟧.setup engine.new.mapper ≡ ⟦<Bounce<M> as Meaning>⟧.setup engine.old.mapper }
    ensures ran { Ran (here ⟦<Bounce<M> as Meaning>⟧ engine.old.mapper memory.old) (state (⟦<Bounce<M> as Meaning>⟧.opened engine.old.mapper) memory.old engine.old.reports) (state (⟦<Bounce<M> as Meaning>⟧.opened engine.new.mapper) memory.new engine.new.reports) steps.old steps.new }
    ensures left { LeftInTurn ⟦<Bounce<M> as Meaning>⟧ engine.old.mapper engine.new.mapper steps.old steps.new }
    ensures isolated { Fresh ⟦<Bounce<M> as Meaning>⟧ engine.old → (A : ℕ) (k : List Call) → struck A (calls_of steps.old) ≡ struck A k
        → Isolated (here ⟦<Bounce<M> as Meaning>⟧ engine.old.mapper memory.old) A (bytes_of memory.old) (calls_of steps.old) k }
{
    run(engine, memory, steps);
}

// A layer with nothing open shields whatever is run on it, call by call or in lists, with any size of memory: what the promise asks of a mapper.
pub fn layer_shields<M: Mapper>(layer: &Bounce<M>)
    ensures { ⟦<Bounce<M> as Meaning>⟧.opened layer.now ≡ [] → (n : ℕ) → Shielded ⟦<Bounce<M> as Meaning>⟧.kind (⟦<Bounce<M> as Meaning>⟧.setup layer.now) n }
{}
