// How many tables are free, and how many a span of pages lacks.
#![tactic(auto)]

mod count;

pub use count::{free_count, lacking};
