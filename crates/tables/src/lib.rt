// The table mapper: VT-d second-level page tables in lent words, with a translation cache and an invalidation queue.
#![tactic(auto)]

mod access;
mod exact;
mod laws;
mod mapping;
mod release;
mod setup;
mod tables;

pub use tables::Tables;
