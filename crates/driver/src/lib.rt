// A driver's buffer in three states: with the CPU, with a card, or with the CPU between two syncs.
#![tactic(auto)]

mod access;
mod buffer;
mod cpu;
pub mod examples;
mod mapped;
mod stopped;
mod synced;

pub use buffer::{Refused, Transfer};
pub use cpu::CpuBuffer;
pub use mapped::MappedBuffer;
pub use stopped::Stopped;
pub use synced::SyncedBuffer;
