// Worked examples of the rules, as one fact.
#![tactic(auto)]

ghost use Rattle.examples.specs.Worked.{Worked};

// The parts of a device address, two table words, spans, a buffer that is too long, and two choices.
#[tactic(auto, unfolding(chooser::specs::Finding::choice))]
pub fn worked_examples()
    ensures { Worked }
{}
