// What a mapper is to all above it, what each call answers and leaves (specs/), and the moves of bytes in code.
#![tactic(auto)]

mod moves;
mod words;

pub use moves::{clear_bytes, copy_bytes, read_bytes, write_bytes};
pub use words::{is_held_at, is_on_page, new_mapping, reach_by, starts_at};
