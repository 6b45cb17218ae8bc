// What a layer is to all above it, and its laws, from those of the mapper below.
ghost use Rattle.layer.specs.Choosing.{layer_kind};
ghost use Rattle.layer.specs.Lifting.{reached_above};
ghost use Rattle.layer.specs.Possible.{layer_possible};
ghost use Rattle.layer.proofs.Lifted.{stands_over, reach_over};
ghost use Rattle.layer.proofs.Lawful.{over_any};
ghost use Rattle.pool.specs.Lending.{loan_in};
ghost use Rattle.layer_steps.specs.After.{LeftOver};
ghost use Rattle.layer_steps.specs.Tied.{setup_over, open_over};

use crate::bounce::Bounce;
use mapper::{Mapper, Meaning};

impl<M: Mapper> Meaning for Bounce<M> {
    ghost setup = { λ b. setup_over M.Meaning b.lower b.pool };

    ghost opened = { λ b. open_over M.Meaning b.lower b.pool };

    ghost reach = { λ b c p. reached_above b.pool.count (M.reach b.lower c p) };

    ghost kind = { layer_kind M.kind };

    ghost leaves = { λ b t d. LeftOver M.Meaning b.lower b.pool t d.lower d.pool };

    ghost possible = { layer_possible M.kind M.possible };

    ghost standing = { λ b. stands_over M.Meaning b.lower b.pool.first.0 b.pool.count (loan_in b.pool) b.tied.stands b.tied.same };

    ghost kept = { (over_any M.Meaning).kept };

    ghost disjoint_pages = { (over_any M.Meaning).disjoint_pages };

    ghost exact_reach = { λ b c p. reach_over M.Meaning b.lower b.pool.first.0 b.pool.count (loan_in b.pool) b.tied.same c p };

    ghost landing = { (over_any M.Meaning).landing };

    ghost empty_room = { (over_any M.Meaning).empty_room };

    ghost refusals = { (over_any M.Meaning).refusals };

    ghost bounds = { (over_any M.Meaning).bounds };
}
