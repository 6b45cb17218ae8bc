// The shared rack: a layer with pool frames 6 and 7 over 10 tables.
ghost use Rattle.std.specs.Prelude.{◌≡◌, ℕ, List, [], length, replicate};
ghost use Rattle.cache.specs.Held.{held};
ghost use Rattle.meaning.specs.Calls.{Call};
ghost use Rattle.meaning.specs.Memory.{bytes_of};
ghost use Rattle.engine.specs.Made.{no_reports, state};
ghost use Rattle.runs.specs.Commands.{calls_of, Ran};
ghost use Rattle.isolation.specs.Lists.{struck};
ghost use Rattle.isolation.specs.Promise.{Isolated};
ghost use Rattle.pool.specs.Lending.{empty_pool};
ghost use Rattle.isolated_runs.specs.Fresh.{Fresh};
ghost use Rattle.rack.specs.Numbers.{numbers as rack_numbers};
ghost use Rattle.rack.specs.Shared.{shared_setup, shared_world, New, LeftFromNew};

use crate::engines::bare_tables;
use bounce::Bounce;
use engine::Engine;
use isolated_runs::run_isolated;
use mapper::Meaning;
use runs::Step;
use tables::Tables;
use units::Frame;

// An engine over a layer above 10 tables in lent words, which are cleared: nothing is open and nothing counted.
pub fn shared_rack<'t>(words: &'t mut [u64; 5120]) -> Engine<Bounce<Tables<'t>>>
    ensures setup { ⟦<Bounce<Tables<'t>> as Meaning>⟧.setup result.mapper ≡ shared_setup }
    ensures fresh { Fresh ⟦<Bounce<Tables<'t>> as Meaning>⟧ result }
    ensures new { New result.mapper }
{
    let Engine { mapper, .. } = bare_tables(words);
    Engine::over(Bounce::over(mapper, Frame(6), 2))
}

// Makes the steps' calls one after the other over a shared rack in lent words, and hands back the engine. `ran` and
// `left` say what they answer and leave, from nothing open and nothing counted on. `isolated` is the promise: whatever other list differs from this one in card A's
// accesses and reports alone.
pub fn run_shared<'t>(
    words: &'t mut [u64; 5120],
    memory: &mut [u8],
    steps: &mut [Step<'_>],
) -> Engine<Bounce<Tables<'t>>>
    ensures setup { ⟦<Bounce<Tables<'t>> as Meaning>⟧.setup result.mapper ≡ shared_setup }
    ensures ran { Ran (shared_world (length memory.old)) (state [] memory.old no_reports) (state (⟦<Bounce<Tables<'t>> as Meaning>⟧.opened result.mapper) memory.new result.reports) steps.old steps.new }
    ensures left { LeftFromNew ⟦<Bounce<Tables<'t>> as Meaning>⟧ result.mapper steps.old steps.new }
    ensures isolated { (A : ℕ) (k : List Call) → struck A (calls_of steps.old) ≡ struck A k → Isolated (shared_world (length memory.old)) A (bytes_of memory.old) (calls_of steps.old) k }
{
    let mut engine = shared_rack(words);
    run_isolated(&mut engine, memory, steps);
    engine
}
