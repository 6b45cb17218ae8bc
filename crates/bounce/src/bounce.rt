// A layer: the mapper below, by value, and the pool.
ghost use Rattle.std.specs.Prelude.{◌≡◌, ◌<◌, Bool, not, nat_lt, List, []};
ghost use Rattle.units.specs.declared.mapping.Mapping.{Mapping as Opened};
ghost use Rattle.units.specs.declared.mapping.Request.{Request as RequestOf};
ghost use Rattle.layer.specs.Choosing.{layer_choice, LayerChooses};
ghost use Rattle.layer.specs.Pools.{granted_count, may_stand};
ghost use Rattle.pool.specs.Lending.{empty_pool};
ghost use Rattle.layer_steps.specs.Tied.{setup_over, open_over, Tied};
ghost use Rattle.layer_steps.proofs.Props.{tied_prop};
ghost use Rattle.bounce.specs.Refusing.{setup_refusal, told_by};

use mapper::Mapper;
use pool::Pool;
use units::{FaultKind, Frame};

// A layer that was refused has a pool of no frames.
#[derive(Drop)]
pub struct Bounce<M: Mapper> {
    pub lower: M,
    pub pool: Pool,
    ghost tied: { Tied M.Meaning lower pool } by { tied_prop M.Meaning lower pool },
}

impl<M: Mapper> Bounce<M> {
    // A layer over the mapper, with nothing open and a pool of `count` frames from the first on; where that may not stand, with no cards and no frames.
    // The mapper below is left as it is. `choosing` tells how requests will be placed.
    pub fn over(lower: M, first: Frame, count: u32) -> Bounce<M>
        ensures lower { result.lower ≡ lower }
        ensures pool { result.pool ≡ empty_pool first.0 (granted_count (M.setup lower) (M.kind.reserved (M.setup lower)) (M.opened lower) first.0 count) }
        ensures refusal { told_by result.pool.count ≡ setup_refusal (M.setup lower) (M.kind.reserved (M.setup lower)) (M.opened lower) first.0 count }
        ensures empty { open_over M.Meaning result.lower result.pool ≡ [] }
        ensures choosing { let S = setup_over M.Meaning result.lower result.pool in (o : List Opened) (q : RequestOf) → 0 < result.pool.count → 0 < q.buffer.length → LayerChooses M.kind.choice S o q (layer_choice M.kind.choice S o q) }
    {
        let granted = granted(&lower, first, count);
        Bounce {
            lower,
            pool: Pool::new(first, granted),
        }
    }

    // Why the set-up was refused: the pool's size or place was wrong, or a mapping was open below. A refused layer is a mapper all the same, as other refused mappers are.
    pub fn refusal(&self) -> Option<FaultKind>
        ensures { result ≡ told_by self.now.pool.count }
    {
        self.is_refused().then_some(FaultKind::WrongPool)
    }

    // The layer was refused.
    pub(crate) fn is_refused(&self) -> bool
        ensures { result ≡ not (nat_lt 0 self.now.pool.count) }
    {
        self.pool.count == 0
    }
}

// The pool frames that are kept: those given or, where they may not stand over the mapper, none.
fn granted<M: Mapper>(lower: &M, first: Frame, count: u32) -> u32
    ensures { result ≡ granted_count (M.setup lower.now) (M.kind.reserved (M.setup lower.now)) (M.opened lower.now) first.0 count }
{
    if may_stand(lower, first, count) {
        count
    } else {
        0
    }
}

// The pool may stand over the mapper: 1 to 16 frames in memory, none of them reserved below, and nothing open there.
fn may_stand<M: Mapper>(lower: &M, first: Frame, count: u32) -> bool
    ensures { result ≡ may_stand (M.setup lower.now) (M.kind.reserved (M.setup lower.now)) (M.opened lower.now) first.0 count }
{
    count >= 1
        && count <= 16
        && first.0 as u64 + count as u64 <= lower.frames() as u64
        && lower.lowest_reserved(first.0, count).is_none()
        && lower.open_count() == 0
}
