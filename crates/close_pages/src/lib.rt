// Closing pages: their words are cleared, and tables with no word left given back.
#![tactic(auto)]

mod closing;

pub use closing::close_span;
