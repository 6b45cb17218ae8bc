// The translation cache of a page-table mapper, and the invalidation queue that removes its entries.
#![tactic(auto)]

mod cache;
mod laws;
mod queue;

pub use cache::{Cache, Translation};
pub use laws::invalidation_holds;
pub use queue::{Descriptor, Queue};
