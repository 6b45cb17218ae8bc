// What a bounce layer means over any mapper, worked out from what the mapper below means, and its laws.
#![tactic(auto)]

mod laws;

pub use laws::layer_keeps_the_laws;
