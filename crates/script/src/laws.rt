// What holds of every script, each law as the contract of a function.
ghost use Rattle.script.specs.Laws.{RoundTrip, GoesOn, Ends};

// Items that fit their fields are read back as they were written, with no refusal.
#[tactic(auto, using(crate::proofs::Encoded::round_trip))]
pub fn round_trip_stands()
    ensures { RoundTrip }
{}

// Reading goes on from each record to the next, until the end or a refusal.
#[tactic(auto, using(crate::proofs::Turns::goes_on))]
pub fn reading_goes_on()
    ensures { GoesOn }
{}

// Reading ends: there are at most a third as many records as bytes.
#[tactic(auto, using(crate::proofs::Turns::items_short))]
pub fn reading_ends()
    ensures { Ends }
{}
