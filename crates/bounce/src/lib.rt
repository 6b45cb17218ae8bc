// The bounce layer over any mapper: what is not whole goes through a pool of frames.
#![tactic(auto)]

mod bounce;
mod laws;
mod mapping;
mod moves;
mod release;

pub use bounce::Bounce;
