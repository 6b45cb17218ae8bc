// What holds of every choice.
ghost use Rattle.chooser.specs.Facts.{OneAnswer, AnyOrder, Examples};

use crate::number::Number;

// There is one answer at most, the order of the ranges does not matter, and worked examples hold.
#[tactic(auto, unfolding(crate::specs::Finding::choice), using(crate::proofs::Answer::one_answer, crate::proofs::Same::any_order))]
pub fn facts<N: Number>()
    ensures one { OneAnswer N.Number.value }
    ensures order { AnyOrder N.Number.value }
    ensures cases { Examples }
{}
