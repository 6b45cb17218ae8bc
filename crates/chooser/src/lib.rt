// The chooser: where n numbers go among numbers of which some are in use.
#![tactic(auto)]

mod gap;
mod laws;
mod number;
mod space;
#[cfg(test)]
mod tests;

pub use gap::{Gap, Range};
pub use laws::facts;
pub use number::Number;
pub use space::{Space, choose};
