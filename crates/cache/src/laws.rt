// What holds of every invalidation.
ghost use Rattle.cache.specs.Descriptors.{Invalidates};

// Running the queue to the wait behind a span's descriptors leaves no entry of the span, and every other page as it was.
#[tactic(auto, using(crate::proofs::Spans::invalidates))]
pub fn invalidation_holds()
    ensures { Invalidates }
{}
