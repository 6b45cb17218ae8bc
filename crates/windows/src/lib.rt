// The window mapper: 8 windows for all cards, each with one open mapping.
#![tactic(auto)]

mod laws;
mod mapping;
mod windows;

pub use windows::Windows;
