// Reads a script: the records of calls that a run makes, one after another.
#![tactic(auto)]

mod field;
mod laws;
mod reader;
mod record;
mod value;

pub use laws::{reading_ends, reading_goes_on, round_trip_stands};
pub use reader::Reader;
pub use record::Record;
