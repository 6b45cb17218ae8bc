// Pool frames are free again only once nothing that is open below lands in them.
ghost use Rattle.std.specs.Prelude.{◌≡◌, ℕ, ◌==◌, cond, None};
ghost use Rattle.pool.specs.Lending.{loan_in, lent};
ghost use Rattle.layer_steps.specs.Freed.{Unlanded};

use mapper::Mapper;
use pool::Pool;
use units::Frame;

// Gives back the frames that are lent from this one on: no open mapping of the mapper below may land in them.
pub(crate) fn release<M: Mapper>(pool: &mut Pool, lower: &M, frame: Frame)
    requires { Unlanded pool.old (M.opened lower.now) frame.0 }
    ensures value { pool.new ≡ lent pool.old frame.0 None }
    ensures loans { (f : ℕ) → loan_in pool.new f ≡ cond (frame.0 == f) None (loan_in pool.old f) }
{
    pool.give_back(frame);
}
