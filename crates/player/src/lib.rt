// What the programs do with a script: it is read from standard input and run over the shared rack, and its answers are printed.
#![tactic(auto)]

mod console;
mod line;

pub use console::{read_script, replay};
